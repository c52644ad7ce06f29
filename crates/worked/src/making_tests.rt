// What makes a rule or a group, and what is refused.
use crate::told::*;
use composition::Composition;
use cost_rules::ListedRule;
use std::process::Abort;
use std::test::Fail;

// A rule that says what one home of type 1 costs, and nothing of two, refuses a box and its costs, and stays as it was.
fn check_refused(
    rt: &impl Abort,
    largest: [u8; 4],
    costs: &[i32],
    refusal: (u8, Option<usize>),
) -> Result<(), Fail> {
    let mut rule = ListedRule::built_in();
    fill(&mut rule, [1, 0, 0, 0], &[0, 600])?;
    assert_eq!(rt; fill(&mut rule, largest, costs), Err(refusal));
    assert_eq!(rt; cost_by(&rule, [1, 0, 0, 0]), Ok(600));
    assert_eq!(rt; cost_by(&rule, [2, 0, 0, 0]), Err(11));
    Ok(())
}

// Each box and its costs have the later grounds too, as far as they can.
#[test]
fn a_listed_rule_is_refused_and_stays(rt: HostRuntime) -> Result<(), Fail> {
    check_refused(&rt, [24, 1, 0, 0], &[], (31, None))?;
    check_refused(&rt, [2, 0, 0, 0], &[], (32, None))?;
    check_refused(&rt, [2, 0, 0, 0], &[5, 0], (32, None))?;
    check_refused(&rt, [2, 0, 0, 0], &[5, 0, 0, 0], (32, None))?;
    check_refused(
        &rt,
        [2, 0, 0, 0],
        &[500_000_001, 500_000_001, 0],
        (33, None),
    )?;
    check_refused(&rt, [2, 0, 0, 0], &[-1, 0, 0], (33, None))?;
    check_refused(
        &rt,
        [2, 0, 0, 0],
        &[0, 500_000_000, 500_000_001],
        (34, Some(2)),
    )?;
    check_refused(
        &rt,
        [2, 0, 0, 0],
        &[0, -500_000_001, 500_000_001],
        (34, Some(1)),
    )
}

// Fees up to 1,000,000 either way are taken: 3 x 1,000,000 - 2 x 1,000,000 for three homes of type 1 and two of type 2.
// A refusal names the first type whose fee is not.
#[test]
fn a_fee_outside_the_limits_is_refused(rt: HostRuntime) -> Result<(), Fail> {
    let rule = head([1_000_000, -1_000_000, 0, 1])?;
    assert_eq!(rt; cost_by(&rule, [3, 2, 5, 0]), Ok(1_000_000));
    assert_eq!(rt; head([1_000_001, 0, 0, 0]).err(), Some((41, 1)));
    assert_eq!(rt; head([0, -1_000_001, 1_000_001, 0]).err(), Some((41, 2)));
    assert_eq!(rt; head([0, 0, 1_000_001, 1_000_001]).err(), Some((41, 3)));
    assert_eq!(rt; head([0, 0, 0, -1_000_001]).err(), Some((41, 4)));
    Ok(())
}

// How many homes a group has, or the number by which people know the refusal.
fn homes_in_group(counts: [u8; 4]) -> Result<u8, u8> {
    let group = by_number(Composition::new(counts))?;
    Ok(group.homes())
}

#[test]
fn a_group_has_at_most_24_homes(rt: HostRuntime) {
    assert_eq!(rt; homes_in_group([6, 6, 6, 6]), Ok(24));
    assert_eq!(rt; homes_in_group([24, 1, 0, 0]), Err(8));
    assert_eq!(rt; homes_in_group([255, 255, 255, 255]), Err(8));
}
