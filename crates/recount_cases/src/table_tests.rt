// Tables, and shares out of them by all groups.
use composition::{Composition, DemandType};
use every_group::{ByGroups, share_by_all_groups};
use refusal::Refusal;
use shapley::{CostTable, TableRefusal};
use std::array;
use std::process::Abort;
use std::test::Fail;

fn homes(counts: [u8; 4]) -> Result<Composition, u8> {
    Composition::new(counts).map_err(|refusal| refusal.number())
}

// A refusal's number, and the place that it names.
fn told(refusal: TableRefusal) -> (u8, Option<usize>) {
    let number = refusal.number();
    match refusal {
        TableRefusal::TooShort => (number, None),
        TableRefusal::OutsideLimits(place) => (number, Some(place)),
    }
}

// Costs make no table of these homes.
fn check_refused(
    rt: &impl Abort,
    counts: [u8; 4],
    costs: &[i64],
    expected: (u8, Option<usize>),
) -> Result<(), Fail> {
    let refused = CostTable::new(homes(counts)?, costs).err().map(told);
    assert_eq!(rt; refused, Some(expected));
    Ok(())
}

// Up to two homes of type 1 and one of type 3 are six groups. What stands behind six entries is not looked at.
#[test]
fn a_table_has_an_entry_within_the_limits_for_each_group(rt: HostRuntime) -> Result<(), Fail> {
    let counts = [2, 0, 1, 0];
    check_refused(&rt, counts, &[], (5, None))?;
    check_refused(&rt, counts, &[0, 0, 0, 0, 500_000_001], (5, None))?;
    check_refused(&rt, counts, &[0, 0, 0, 0, 0, 500_000_001], (34, Some(5)))?;
    check_refused(
        &rt,
        counts,
        &[0, -500_000_001, 0, i64::MIN, 0, 0],
        (34, Some(1)),
    )?;
    check_refused(&rt, counts, &[i64::MAX, 0, 0, 0, 0, 0], (34, Some(0)))?;
    let costs = [0, 500_000_000, -500_000_000, 0, 0, 0, 500_000_001];
    assert!(rt; CostTable::new(homes(counts)?, &costs).is_ok());
    Ok(())
}

// Beside a home of type 1 there are one more of type 1 and one of type 2, so four groups: nobody, each of them alone, and both. Of 6 orders the home comes first in 2, right behind one of the
// others in 1 each, and last in 2: 2 x 600, (1000 - 600) + (1100 - 900), 2 x (1600 - 1100), together 2800. The home of type 2: 2 x 900, (1100 - 600) for each of the others, 2 x (1600 - 1000),
// together 4000. L is 6 too.
#[test]
fn four_groups_can_be_gone_through_by_hand(rt: HostRuntime) -> Result<(), Fail> {
    let costs = [0, 600, 1000, 900, 1100, 1600];
    let table = CostTable::new(homes([2, 1, 0, 0])?, &costs).map_err(|refusal| refusal.number())?;
    let shares = DemandType::ALL.map(|of| share_by_all_groups(&table, of));
    let [one, two] = [2800, 4000].map(|share| Some(ByGroups { share, groups: 4 }));
    assert_eq!(rt; shares, [one, two, None, None]);
    Ok(())
}

// The first entry of 2160 is 0; after it the place's remainder by 11 says which limit a cost stands at.
fn by_elevens() -> [i64; 2160] {
    array::from_fn(|place| match place {
        0 => 0,
        _ if place % 11 < 6 => 500_000_000,
        _ => -500_000_000,
    })
}

// 24 homes of all four types at the limits of costs, each beside 8,388,608 groups of the others. Their shares were first added up apart from this program, and are in `worked` too: 5 x the first
// + 7 x the second + 4 x the third + 8 x the last = L x 500,000,000, the cost of all.
#[test]
fn all_groups_of_23_are_gone_through(rt: HostRuntime) -> Result<(), Fail> {
    let costs = by_elevens();
    let table = CostTable::new(homes([5, 7, 4, 8])?, &costs).map_err(|refusal| refusal.number())?;
    let shares = DemandType::ALL.map(|of| share_by_all_groups(&table, of));
    let expected = [
        117_624_463_000_000_000,
        179_847_855_000_000_000,
        337_568_627_000_000_000,
        -65_027_171_000_000_000,
    ];
    let groups = 8_388_608;
    assert_eq!(rt;
        shares,
        expected.map(|share| Some(ByGroups { share, groups }))
    );
    Ok(())
}
