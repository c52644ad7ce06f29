// Each share by counts beside the one by all groups, in every community of at most six homes, each with a table of its own.
use composition::{Composition, DemandType};
use every_group::{ByGroups, share_by_all_groups};
use refusal::Refusal;
use shapley::CostTable;
use std::process::Abort;
use std::test::Fail;

// A cost for each group inside at most six homes, of which there are at most 36, inside two homes of two types and one of each other. Nobody costs 0; the others cost from -32,768 to 32,767, by a
// sequence that each seed begins elsewhere.
fn costs_from(seed: u32) -> [i64; 36] {
    let mut costs = [0i64; 36];
    let mut drawn = seed;
    for cost in &mut costs[1..] {
        drawn = drawn.wrapping_mul(1_664_525).wrapping_add(1_013_904_223);
        *cost = i64::from((drawn >> 16) as i32 - 32_768);
    }
    costs
}

// Without homes there is no home to go through groups for; else there are as many groups as subsets of the others.
fn check_community(rt: &impl Abort, homes: Composition, seed: u32) -> Result<(), Fail> {
    let costs = costs_from(seed);
    let table = CostTable::new(homes, &costs).map_err(|refusal| refusal.number())?;
    let groups = 1u32 << homes.homes().saturating_sub(1);
    for of in DemandType::ALL {
        let by_counts = table.share(of);
        let expected = by_counts.map(|share| ByGroups { share, groups });
        assert_eq!(rt; share_by_all_groups(&table, of), expected);
    }
    Ok(())
}

// Inside six homes of each type lie 2,401 communities, of which 210 have at most six homes.
#[test]
fn both_shares_agree_in_every_small_community(rt: HostRuntime) -> Result<(), Fail> {
    let all = Composition::new([6; 4]).map_err(|refusal| refusal.number())?;
    let mut checked = 0u32;
    for place in 0..all.size() {
        let homes = all.at(place);
        if homes.homes() <= 6 {
            check_community(&rt, homes, place as u32)?;
            checked = checked.wrapping_add(1);
        }
    }
    assert_eq!(rt; checked, 210);
    Ok(())
}
