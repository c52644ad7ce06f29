// The four words in front of the period, which name the homes of types 1 to 4: which are taken, and that all others are refused with 61.
use crate::asking::*;
use crate::inputs::*;
use std::test::Fail;

// Four words that are taken leave the period's first word to be missed, and so are refused with 21 at its place 0.
#[test]
fn four_words_of_homes_alone_lack_a_period(rt: HostRuntime) -> Result<(), Fail> {
    check_answer(&rt, &WORKED[..16], "refused 21 0\n")
}

#[test]
fn fewer_than_four_words_are_refused(rt: HostRuntime) -> Result<(), Fail> {
    check_answer(&rt, &WORKED[..4], "refused 61\n")?;
    check_answer(&rt, &WORKED[..8], "refused 61\n")?;
    check_answer(&rt, &WORKED[..12], "refused 61\n")
}

// A fifth such word stands where the period's first word is due.
#[test]
fn a_fifth_word_of_homes_is_no_period(rt: HostRuntime) -> Result<(), Fail> {
    check_with(&rt, 4, 0x94000000, "refused 21 0\n")
}

#[test]
fn homes_out_of_order_are_refused(rt: HostRuntime) -> Result<(), Fail> {
    let orders = [
        [0x92000000, 0x91000001, 0x93000000, 0x94000000],
        [0x91000001, 0x92000000, 0x94000000, 0x93000000],
        [0x91000001, 0x91000000, 0x93000000, 0x94000000],
        [0x94000000, 0x93000000, 0x92000000, 0x91000001],
    ];
    for words in orders {
        check_words(&rt, &words, "refused 61\n")?;
    }
    Ok(())
}

// Of kinds 8 and 10, which are next to 9, and of 1 and 0.
#[test]
fn homes_of_another_kind_are_refused(rt: HostRuntime) -> Result<(), Fail> {
    for (at, word) in [
        (0, 0x81000001),
        (1, 0xA2000000),
        (2, 0x13000000),
        (3, 0x04000000),
    ] {
        check_with(&rt, at, word, "refused 61\n")?;
    }
    Ok(())
}

// Types 0, 5 and 15, and bit 27 set beside the right type.
#[test]
fn homes_of_no_type_are_refused(rt: HostRuntime) -> Result<(), Fail> {
    for (at, word) in [
        (0, 0x90000001),
        (3, 0x95000000),
        (3, 0x9F000000),
        (0, 0x99000001),
    ] {
        check_with(&rt, at, word, "refused 61\n")?;
    }
    Ok(())
}

#[test]
fn up_to_24_homes_are_taken(rt: HostRuntime) -> Result<(), Fail> {
    let groups = [
        [0x91000000, 0x92000000, 0x93000000, 0x94000018],
        [0x91000006, 0x92000006, 0x93000006, 0x94000006],
        [0x91000017, 0x92000000, 0x93000001, 0x94000000],
    ];
    for words in groups {
        check_words(&rt, &words, "refused 21 0\n")?;
    }
    Ok(())
}

#[test]
fn a_25th_home_is_refused(rt: HostRuntime) -> Result<(), Fail> {
    let groups = [
        [0x91000000, 0x92000000, 0x93000000, 0x94000019],
        [0x91000007, 0x92000006, 0x93000006, 0x94000006],
        [0x91000018, 0x92000000, 0x93000000, 0x94000001],
    ];
    for words in groups {
        check_words(&rt, &words, "refused 61\n")?;
    }
    Ok(())
}

// The low 8 or 16 bits of each count say one home, or none.
#[test]
fn a_count_that_looks_small_in_its_low_bits_is_refused(rt: HostRuntime) -> Result<(), Fail> {
    for word in [0x91000101, 0x91000100, 0x91010001, 0x91010000, 0x91800000] {
        check_with(&rt, 0, word, "refused 61\n")?;
    }
    Ok(())
}

// 64 homes of each type are 256, of which 8 bits would keep none; two counts of 32,768 and two of 8,388,608 are as much to 16 and to 24 bits.
#[test]
fn counts_that_add_up_to_nothing_in_fewer_bits_are_refused(rt: HostRuntime) -> Result<(), Fail> {
    let groups = [
        [0x91000040, 0x92000040, 0x93000040, 0x94000040],
        [0x91008000, 0x92000000, 0x93008000, 0x94000000],
        [0x91000000, 0x92800000, 0x93000000, 0x94800000],
    ];
    for words in groups {
        check_words(&rt, &words, "refused 61\n")?;
    }
    Ok(())
}
