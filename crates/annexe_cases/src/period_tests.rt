// Homes that are taken, and a period that is refused: the number says which part of it, the place where, counted from the period's first word.
use crate::asking::*;
use crate::inputs::*;
use std::test::Fail;

// A period has 1 to 17,568 half-hours.
#[test]
fn a_wrong_number_of_half_hours_is_refused_with_21(rt: HostRuntime) -> Result<(), Fail> {
    check_with(&rt, 4, 0x10000000, "refused 21 0\n")?;
    check_with(&rt, 4, 0x10000000 + 17_569, "refused 21 0\n")
}

#[test]
fn readings_for_no_type_are_refused_with_22(rt: HostRuntime) -> Result<(), Fail> {
    check_answer(&rt, &NO_READINGS, "refused 22 1\n")
}

#[test]
fn a_lowest_charge_above_the_highest_is_refused_with_23(rt: HostRuntime) -> Result<(), Fail> {
    check_answer(&rt, &LOWEST_ABOVE_HIGHEST, "refused 23 3\n")
}

// An export tariff is due at place 8.
#[test]
fn a_period_that_ends_behind_a_tariff_is_refused_with_24(rt: HostRuntime) -> Result<(), Fail> {
    check_answer(&rt, &CUT_BEHIND_A_TARIFF, "refused 24 8\n")
}

// The first half-hour ends at place 11, so that at place 12 the closing word is due.
#[test]
fn a_half_hour_too_many_is_refused_with_25(rt: HostRuntime) -> Result<(), Fail> {
    check_answer(&rt, &A_HALF_HOUR_TOO_MANY, "refused 25 12\n")
}

// The worked input, cut behind some of its words: it has four words of homes, and its period 14, places 0 to 13.
#[test]
fn the_first_word_that_is_missing_is_named(rt: HostRuntime) -> Result<(), Fail> {
    check_answer(&rt, &WORKED[..20], "refused 22 1\n")?;
    check_answer(&rt, &WORKED[..24], "refused 23 2\n")?;
    check_answer(&rt, &WORKED[..40], "refused 23 6\n")?;
    check_answer(&rt, &WORKED[..44], "refused 24 7\n")?;
    check_answer(&rt, &WORKED[..64], "refused 24 12\n")?;
    check_answer(&rt, &WORKED[..68], "refused 25 13\n")
}

// The closing word is the input's word 17, and the period's 13.
#[test]
fn the_closing_word_counts_from_the_periods_first_word(rt: HostRuntime) -> Result<(), Fail> {
    check_with(&rt, 17, 0xF0000011, "refused 25 13\n")
}

// The whole worked input, and behind it a word of zeros.
#[test]
fn a_word_behind_the_closing_word_is_refused_with_25(rt: HostRuntime) -> Result<(), Fail> {
    let mut input = [0; 76];
    input[..72].copy_from_slice(&WORKED);
    check_answer(&rt, &input, "refused 25 14\n")
}
