// Why a draft is refused, in which order, and that the account comes back as it was.
use crate::broken::*;
use crate::told::*;
use cost_rules::HeadRule;
use std::process::Abort;
use std::test::Fail;

// A draft of a new account, by a rule with a fault, is refused with this number before the rule is asked: the table stays.
fn check_refused(
    rt: &impl Abort,
    last: u16,
    homes: [u8; 4],
    table: &mut [i64],
    number: u8,
) -> Result<(), Fail> {
    let refused = draft(account_with(last, homes)?, &broken(99, 0), table).err();
    assert_eq!(rt; refused, Some(((number, None), (homes, 0, last))));
    for entry in table {
        assert_eq!(rt; *entry, 77);
    }
    Ok(())
}

// Up to two homes of type 1 and one of type 3 make six groups. Each account has all later grounds too, but for the
// one whose last number is 65,534.
#[test]
fn grounds_go_in_their_order(rt: HostRuntime) -> Result<(), Fail> {
    check_refused(&rt, 65_535, [0, 0, 0, 0], &mut [], 4)?;
    check_refused(&rt, 65_535, [2, 0, 1, 0], &mut [77; 5], 5)?;
    check_refused(&rt, 65_534, [2, 0, 1, 0], &mut [77; 5], 5)?;
    check_refused(&rt, 65_535, [2, 0, 1, 0], &mut [77; 6], 6)
}

// Two homes of types 1 and 2 with fees of 130 and 250 are charged 2 and 3 pence: 500 for a cost of 380 leave 120.
#[test]
fn the_bill_with_the_highest_number_is_the_last(rt: HostRuntime) -> Result<(), Fail> {
    let rule = head([130, 250, 0, 0])?;
    let mut table = [0i64; 4];
    let account = draft(account_with(65_534, [1, 1, 0, 0])?, &rule, &mut table)?.post();
    let standing = ([1, 1, 0, 0], 120, 65_535);
    assert_eq!(rt; standing_of(&account), standing);
    let refused = draft(account, &rule, &mut table).err();
    assert_eq!(rt; refused, Some(((6, None), standing)));
    Ok(())
}
