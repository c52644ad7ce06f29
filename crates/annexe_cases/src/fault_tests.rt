// Homes and a period that are taken, but not drafted: there is no home (4), or some group has no cost (7). Behind the 7 stand the lowest place of such a group, its fault,
// and the fault's rung: 0, for the grid rule's own. A word that offends in the period goes before both.
use crate::asking::*;
use crate::inputs::*;
use crate::long_inputs::*;
use std::test::Fail;

// The worked input for nobody.
#[test]
fn a_draft_for_nobody_is_refused_with_4(rt: HostRuntime) -> Result<(), Fail> {
    check_with(&rt, 0, 0x91000000, "refused 4\n")
}

// The worked input for nobody, without its closing word.
#[test]
fn a_period_for_nobody_is_checked_first(rt: HostRuntime) -> Result<(), Fail> {
    let mut input = WORKED;
    input[0] = 0;
    check_answer(&rt, &input[..68], "refused 25 13\n")
}

// Places 0 to 6 are those of none to six homes of type 1; place 7 is a home of type 2.
#[test]
fn a_home_without_readings_has_fault_12(rt: HostRuntime) -> Result<(), Fail> {
    check_answer(&rt, &A_TYPE_WITHOUT_READINGS, "refused 7 7 12 0\n")
}

// Each home costs 125 x 20,000 x 20,000 / 1,000 = 50,000,000, so that ten of them cost 500,000,000, the most that a group may. A share is
// 2520 x 50,000,000, over 2520.
#[test]
fn a_cost_at_the_limit_is_listed(rt: HostRuntime) -> Result<(), Fail> {
    check_words(
        &rt,
        &importing(10),
        "homes 10 over 2520\n\
         cost 500000000\n\
         type 1 count 10 share 126000000000 bill 500000\n\
         rebate 0 purse 0\n",
    )
}

// One home more, so that the limit is passed by all of them together, at place 11, and by no smaller group.
#[test]
fn a_cost_above_the_limit_has_fault_10(rt: HostRuntime) -> Result<(), Fail> {
    check_words(&rt, &importing(11), "refused 7 11 10 0\n")
}

// Each home brings in 100 x 20,000 x 20,000 / 1,000 = 40,000,000: twelve bring in 480,000,000, thirteen more than the limit.
#[test]
fn the_first_group_that_earns_too_much_is_named(rt: HostRuntime) -> Result<(), Fail> {
    check_words(&rt, &exporting(), "refused 7 13 10 0\n")
}

// A home of type 1 or 2 costs 280,000,000. Together, at place 3, they cost more than the limit; at place 4 comes the home of type 3, which has no readings.
#[test]
fn the_fault_at_the_lower_place_is_named(rt: HostRuntime) -> Result<(), Fail> {
    check_words(&rt, &importing_with_one_unread(), "refused 7 3 10 0\n")
}
