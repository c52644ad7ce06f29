// How long an input may be: whole words of four bytes, at most 65,536 bytes in all.
use crate::asking::*;
use crate::inputs::*;
use crate::long_inputs::*;
use std::test::Fail;

#[test]
fn an_empty_input_is_refused_with_61(rt: HostRuntime) -> Result<(), Fail> {
    check_answer(&rt, &[], "refused 61\n")
}

#[test]
fn homes_cut_inside_a_word_are_refused_with_61(rt: HostRuntime) -> Result<(), Fail> {
    check_answer(&rt, &CUT_INSIDE_A_HOME_WORD, "refused 61\n")?;
    check_answer(&rt, &WORKED[..1], "refused 61\n")
}

// The worked input without the last bytes of its closing word, and with the first of the next.
#[test]
fn a_period_cut_inside_a_word_is_refused_with_61(rt: HostRuntime) -> Result<(), Fail> {
    let mut longer = [0; 73];
    longer[..72].copy_from_slice(&WORKED);
    check_answer(&rt, &WORKED[..69], "refused 61\n")?;
    check_answer(&rt, &WORKED[..70], "refused 61\n")?;
    check_answer(&rt, &WORKED[..71], "refused 61\n")?;
    check_answer(&rt, &longer, "refused 61\n")
}

// Behind the homes stand zeros, and no period begins with one.
#[test]
fn an_input_of_65_536_bytes_is_read(rt: HostRuntime) -> Result<(), Fail> {
    check_answer(&rt, &zeros_behind_homes::<65_536>(), "refused 21 0\n")
}

// One byte more is a word cut short as well, four more are whole words that are too many.
#[test]
fn more_than_65_536_bytes_are_refused_with_61(rt: HostRuntime) -> Result<(), Fail> {
    check_answer(&rt, &zeros_behind_homes::<65_537>(), "refused 61\n")?;
    check_answer(&rt, &zeros_behind_homes::<65_540>(), "refused 61\n")
}

// 8,185 half-hours, of which each costs 1: 81.85 pence. The bill of 82 leaves 15 over.
#[test]
fn a_period_up_to_the_last_of_65_536_bytes_is_read(rt: HostRuntime) -> Result<(), Fail> {
    check_words(
        &rt,
        &half_hours_to_the_end(),
        "homes 1 over 1\n\
         cost 8185\n\
         type 1 count 1 share 8185 bill 82\n\
         rebate 0 purse 15\n",
    )
}
