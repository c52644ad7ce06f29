// A draft by a rule that has a fault: which fault, at which place, and through how many sums it came.
use crate::broken::*;
use crate::told::*;
use cost_rules::{CostRule, HeadRule, ListedRule, SumRule};
use std::process::Abort;
use std::test::Fail;

// A draft of a new account is refused for a fault, given by place, number and rung, and leaves this in a table of 77s.
fn check_fault<R: CostRule>(
    rt: &impl Abort,
    rule: &R,
    homes: [u8; 4],
    fault: (usize, u8, u8),
    after: [i64; 4],
) -> Result<(), Fail> {
    let mut table = [77i64; 4];
    let refused = draft(account_with(3, homes)?, rule, &mut table).err();
    assert_eq!(rt; refused, Some(((7, Some(fault)), (homes, 0, 3))));
    assert_eq!(rt; table, after);
    Ok(())
}

// The rule lists at most one home of type 1, so the group of two, at place 2, is the first that has no cost. The entries
// before it hold their costs, and the rest is as before. Each sum on the fault's way lifts it by a rung.
#[test]
fn the_first_group_without_a_cost_is_named(rt: HostRuntime) -> Result<(), Fail> {
    let mut rule = ListedRule::built_in();
    fill(&mut rule, [1, 1, 0, 0], &[0, 10, 20, 25])?;
    let fees = head([5, 0, 0, 0])?;
    let sum = SumRule {
        left: fees,
        right: rule,
    };
    let sums = SumRule {
        left: sum,
        right: fees,
    };
    check_fault(&rt, &rule, [2, 0, 0, 0], (2, 11, 0), [0, 10, 77, 77])?;
    check_fault(&rt, &sum, [2, 0, 0, 0], (2, 11, 1), [0, 15, 77, 77])?;
    check_fault(&rt, &sums, [2, 0, 0, 0], (2, 11, 2), [0, 20, 77, 77])
}

// Two costs within the limits can add up to one outside them. That is a fault of the sum's own, on rung 0; another sum
// lifts it.
#[test]
fn a_sum_outside_the_limits_is_a_fault_of_the_sum(rt: HostRuntime) -> Result<(), Fail> {
    let mut left = ListedRule::built_in();
    fill(&mut left, [1, 1, 0, 0], &[0, 500_000_000, -500_000_000, 0])?;
    let mut right = ListedRule::built_in();
    fill(&mut right, [1, 1, 0, 0], &[0, 1, -1, 0])?;
    let sum = SumRule { left, right };
    let sums = SumRule {
        left: right,
        right: sum,
    };
    check_fault(&rt, &sum, [1, 0, 0, 0], (1, 10, 0), [0, 77, 77, 77])?;
    check_fault(&rt, &sum, [0, 1, 0, 0], (1, 10, 0), [0, 77, 77, 77])?;
    check_fault(&rt, &sums, [1, 0, 0, 0], (1, 10, 1), [0, 77, 77, 77])
}

// Where both parts have a fault, the left one is told, whatever its number and its rung. No rung is above 255.
#[test]
fn the_left_fault_goes_before_the_right_one(rt: HostRuntime) -> Result<(), Fail> {
    let low = broken(98, 0);
    let high = broken(99, 254);
    let low_first = SumRule {
        left: low,
        right: high,
    };
    let high_first = SumRule {
        left: high,
        right: low,
    };
    let sums = SumRule {
        left: high_first,
        right: low_first,
    };
    check_fault(&rt, &low_first, [0, 0, 1, 0], (1, 98, 1), [0, 77, 77, 77])?;
    check_fault(
        &rt,
        &high_first,
        [0, 0, 1, 0],
        (1, 99, 255),
        [0, 77, 77, 77],
    )?;
    check_fault(&rt, &sums, [0, 0, 1, 0], (1, 99, 255), [0, 77, 77, 77])
}
