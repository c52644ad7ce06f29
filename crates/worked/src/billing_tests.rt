// What homes are billed, and what the purse keeps.
use crate::told::*;
use account::Account;
use cost_rules::{HeadRule, ListedRule, SumRule};
use std::process::Abort;
use std::test::Fail;

// Up to two homes of type 1 and one of type 2, the count of type 1 running fastest.
static COSTS: [i32; 6] = [0, 600, 1000, 900, 1100, 1600];

// Shares are over 6, the least common multiple of 1, 2 and 3. What a home adds to nobody counts 2 of the 6,
// what it adds to each one of the others counts 1, and what it adds to both of them counts 2.
// A home of type 1: 2 x 600, (1000 - 600) + (1100 - 900), 2 x (1600 - 1100). That is 1200 + 600 + 1000 = 2800.
// The home of type 2: 2 x 900, (1100 - 600) twice, 2 x (1600 - 1000). That is 1800 + 1000 + 1200 = 4000.
// 2800 / 6 is 466.7, so 5 pence; 4000 / 6 is 666.7, so 7 pence. The charges are 5 + 5 + 7 = 17 pence, 100 above the
// cost of 1600. A penny back to each home would take 300: the 100 stay in the purse.
#[test]
fn three_homes_are_billed(rt: HostRuntime) -> Result<(), Fail> {
    let mut table = [77i64; 7];
    let lines = [Some((2800, 5)), Some((4000, 7)), None, None];
    check_bills(
        &rt,
        [2, 1, 0, 0],
        &COSTS,
        &mut table,
        ((6, 1600, 0, 100), lines),
    )?;
    // the table holds the six costs, and what stands behind them is as before
    assert_eq!(rt; table, [0, 600, 1000, 900, 1100, 1600, 77]);
    Ok(())
}

// A draft of those homes' bills, withdrawn, which leaves the account as it was.
fn withdrawn(rt: &impl Abort, account: Account) -> Result<Account, Fail> {
    let before = standing_of(&account);
    let draft = draft_by_list(account, [2, 1, 0, 0], &COSTS, &mut [0; 6])?;
    let account = draft.withdraw();
    assert_eq!(rt; standing_of(&account), before);
    Ok(account)
}

// A draft of those homes' bills, posted: the account then has the draft's purse, and this last bill number.
fn posted(rt: &impl Abort, account: Account, expected: Bills, last: u16) -> Result<Account, Fail> {
    let draft = draft_by_list(account, [2, 1, 0, 0], &COSTS, &mut [0; 6])?;
    assert_eq!(rt; bills_of(&draft)?, expected);
    let account = draft.post();
    let ((_, _, _, purse), _) = expected;
    assert_eq!(rt; standing_of(&account), ([2, 1, 0, 0], purse, last));
    Ok(account)
}

// Each billing brings in 100 more than the cost. At the third there are 300, a penny for each of three homes: every bill is
// a penny lower, and the purse is empty again.
#[test]
fn the_purse_fills_and_is_given_back(rt: HostRuntime) -> Result<(), Fail> {
    let lines = [Some((2800, 5)), Some((4000, 7)), None, None];
    let lower = [Some((2800, 4)), Some((4000, 6)), None, None];
    let account = account_with(0, [2, 1, 0, 0])?;
    let account = posted(&rt, account, ((6, 1600, 0, 100), lines), 1)?;
    let account = posted(&rt, account, ((6, 1600, 0, 200), lines), 2)?;
    let account = withdrawn(&rt, account)?;
    let _account = posted(&rt, account, ((6, 1600, 1, 0), lower), 3)?;
    Ok(())
}

// A fee goes whole to the home that it is for, so that the shares are higher by 6 x 10 and 6 x 20. Together all cost
// 1600 + 10 + 10 + 20 = 1640. 2860 / 6 is 476.7, so 5 pence; 4120 / 6 is 686.7, so 7 pence: 60 above the cost.
#[test]
fn fees_are_added_to_listed_costs(rt: HostRuntime) -> Result<(), Fail> {
    let mut left = ListedRule::built_in();
    fill(&mut left, [2, 1, 0, 0], &COSTS)?;
    let right = head([10, 20, 0, 0])?;
    let rule = SumRule { left, right };
    let mut table = [0i64; 6];
    let draft = draft(account_with(0, [2, 1, 0, 0])?, &rule, &mut table)?;
    let lines = [Some((2860, 5)), Some((4120, 7)), None, None];
    assert_eq!(rt; bills_of(&draft)?, ((6, 1640, 0, 60), lines));
    assert_eq!(rt; line(&draft, 5), Err(1));
    assert_eq!(rt; table, [0, 610, 1020, 920, 1130, 1640]);
    Ok(())
}

// A home alone that earns 50 is billed nothing, and the 50 stay in the purse: a penny would take 100. One that earns 150
// gets a penny, and 50 stay.
#[test]
fn a_home_that_earns_is_paid_whole_pence(rt: HostRuntime) -> Result<(), Fail> {
    let mut table = [0i64; 2];
    let lines = [Some((-50, 0)), None, None, None];
    check_bills(
        &rt,
        [1, 0, 0, 0],
        &[0, -50],
        &mut table,
        ((1, -50, 0, 50), lines),
    )?;
    let lines = [Some((-150, -1)), None, None, None];
    check_bills(
        &rt,
        [1, 0, 0, 0],
        &[0, -150],
        &mut table,
        ((1, -150, 0, 50), lines),
    )
}
