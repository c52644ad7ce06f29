// Which words make a period, what it tells, and at which place other words are refused.
use crate::periods::*;
use battery::Rating;
use period::{Period, Reading, Tariffs};
use std::process::Abort;
use std::test::Fail;

// The number of a refusal at each of its places.
static NUMBERS: [u8; 14] = [21, 22, 23, 23, 23, 23, 23, 24, 24, 24, 24, 24, 24, 25];

// One half-hour with readings for three types.
static THREE_TYPES: [u32; 14] = [
    0x10000001, 0x20000003, 0x30000000, 0x310003E8, 0x320001F4, 0x3300005A, 0x3400005A, 0x40000BB8,
    0x500001F4, 0x60000001, 0x60000002, 0x60000003, 0x70000004, 0xF000000D,
];

// A half-hour: the tariffs of import and export, the demands of the types and the generation.
fn reading(import: u32, export: u32, demands: [u32; 4], generation: u32) -> Reading {
    Reading {
        tariffs: Tariffs { import, export },
        demands,
        generation,
    }
}

// The half-hours of the worked period: the tariffs of the first hold over.
const FIRST: Reading = Reading {
    tariffs: Tariffs {
        import: 3000,
        export: 500,
    },
    demands: [200, 0, 0, 0],
    generation: 1000,
};

const SECOND: Reading = Reading {
    demands: [900, 0, 0, 0],
    generation: 0,
    ..FIRST
};

// Whether words make a period, or the number by which people know the refusal, and its place.
fn answer(words: &[u32]) -> Result<(), (u8, usize)> {
    let mut period = Period::built_in();
    fill_period(&mut period, words)
}

// Whether the worked period is one with another word at a place.
fn check_with(rt: &impl Abort, place: usize, word: u32, expected: Result<(), (u8, usize)>) {
    assert!(rt; place < 14);
    let mut words = WORKED;
    words[place] = word;
    assert_eq!(rt; answer(&words), expected);
}

// These are all half-hours of a period.
fn check_read(rt: &impl Abort, period: &Period, expected: &[Reading]) {
    let mut readings = period.readings();
    for half_hour in expected {
        assert_eq!(rt; readings.next(), Some(*half_hour));
    }
    assert_eq!(rt; readings.next(), None);
}

// Words make a period with these half-hours.
fn check_taken(rt: &impl Abort, words: &[u32], expected: &[Reading]) -> Result<(), Fail> {
    let mut period = Period::built_in();
    fill_period(&mut period, words)?;
    check_read(rt, &period, expected);
    Ok(())
}

// What the battery can do for one home.
fn rating(lowest: u32, highest: u32, most: u32, charging: u32, discharging: u32) -> Rating {
    Rating {
        lowest,
        highest,
        most,
        charging,
        discharging,
    }
}

#[test]
fn the_worked_period_is_read(rt: HostRuntime) -> Result<(), Fail> {
    let mut period = Period::built_in();
    assert_eq!(rt; period.types(), 1);
    assert_eq!(rt; period.battery().rating, rating(0, 0, 0, 1, 1));
    check_read(&rt, &period, &[reading(0, 0, [0; 4], 0)]);
    fill_period(&mut period, &WORKED)?;
    assert_eq!(rt; period.types(), 1);
    assert_eq!(rt; period.battery().rating, rating(0, 1000, 500, 90, 90));
    check_read(&rt, &period, &[FIRST, SECOND]);
    Ok(())
}

#[test]
fn a_refusal_leaves_the_period_as_it_was(rt: HostRuntime) -> Result<(), Fail> {
    let mut period = Period::built_in();
    fill_period(&mut period, &WORKED)?;
    assert_eq!(rt; fill_period(&mut period, &THREE_TYPES[..13]), Err((25, 13)));
    assert_eq!(rt; period.types(), 1);
    check_read(&rt, &period, &[FIRST, SECOND]);
    Ok(())
}

// Where another word stands, and where the words end.
#[test]
fn each_word_is_wanted_at_its_place(rt: HostRuntime) {
    for (place, number) in NUMBERS.iter().enumerate() {
        let refused = Err((*number, place));
        check_with(&rt, place, 0, refused);
        assert_eq!(rt; answer(&WORKED[..place]), refused);
    }
}

// The first and the last word that may stand at a place; the words beside them are refused there.
fn check_limits(rt: &impl Abort, place: usize, first: u32, last: u32) {
    assert!(rt; place < 14);
    let refused = Err((NUMBERS[place], place));
    check_with(rt, place, first.wrapping_sub(1), refused);
    check_with(rt, place, first, Ok(()));
    check_with(rt, place, last, Ok(()));
    check_with(rt, place, last.wrapping_add(1), refused);
}

#[test]
fn words_at_the_limits_are_taken(rt: HostRuntime) {
    let limits = [
        (3, 0x31000000, 0x31000000 + 100_000),
        (4, 0x32000000, 0x32000000 + 50_000),
        (5, 0x33000001, 0x33000000 + 100),
        (6, 0x34000001, 0x34000000 + 100),
        (7, 0x40000000, 0x40000000 + 20_000),
        (8, 0x50000000, 0x50000000 + 20_000),
        (9, 0x60000000, 0x60000000 + 20_000),
        (10, 0x70000000, 0x70000000 + 20_000),
        (11, 0x60000000, 0x60000000 + 20_000),
        (12, 0x70000000, 0x70000000 + 20_000),
        (13, 0xF000000D, 0xF000000D),
    ];
    for (place, first, last) in limits {
        check_limits(&rt, place, first, last);
    }
}

// The highest charge, at place 3, is 1,000.
#[test]
fn the_highest_charge_is_no_lower_than_the_lowest(rt: HostRuntime) {
    check_with(&rt, 2, 0x30000000 + 1000, Ok(()));
    check_with(&rt, 2, 0x30000000 + 1001, Err((23, 3)));
    check_with(&rt, 2, 0x30000000 + 100_000, Err((23, 3)));
    check_with(&rt, 2, 0x30000000 + 100_001, Err((23, 2)));
}

// With one half-hour the closing word is due at place 11, and with three it stands where a demand is due. With two types
// a second demand is due at place 10.
#[test]
fn half_hours_and_types_are_counted(rt: HostRuntime) {
    check_with(&rt, 0, 0x10000000, Err((21, 0)));
    check_with(&rt, 0, 0x10000001, Err((25, 11)));
    check_with(&rt, 0, 0x10000003, Err((24, 13)));
    check_with(&rt, 1, 0x20000000, Err((22, 1)));
    check_with(&rt, 1, 0x20000002, Err((24, 10)));
    check_with(&rt, 1, 0x20000005, Err((22, 1)));
}

// The worked period cut to its first half-hour and closed at place 11.
#[test]
fn nothing_stands_behind_the_closing_word(rt: HostRuntime) -> Result<(), Fail> {
    let mut words = WORKED;
    words[0] = 0x10000001;
    words[11] = 0xF000000B;
    check_taken(&rt, &words[..12], &[FIRST])?;
    assert_eq!(rt; answer(&words), Err((25, 12)));
    words[11] = 0xF000000C;
    assert_eq!(rt; answer(&words), Err((25, 11)));
    Ok(())
}

// Where the import tariff is due stands an export tariff, and where the export tariff is due a demand.
#[test]
fn the_first_half_hour_has_both_tariffs(rt: HostRuntime) {
    check_with(&rt, 7, 0x500001F4, Err((24, 7)));
    check_with(&rt, 8, 0x600000C8, Err((24, 8)));
}

// The worked period with both tariffs in the second half-hour as well: as before, new ones, and in the wrong order.
#[test]
fn a_later_half_hour_may_have_tariffs(rt: HostRuntime) -> Result<(), Fail> {
    let mut words = [
        0x10000002, 0x20000001, 0x30000000, 0x310003E8, 0x320001F4, 0x3300005A, 0x3400005A,
        0x40000BB8, 0x500001F4, 0x600000C8, 0x700003E8, 0x40000BB8, 0x500001F4, 0x60000384,
        0x70000000, 0xF000000F,
    ];
    check_taken(&rt, &words, &[FIRST, SECOND])?;
    words[11] = 0x40000BB9;
    words[12] = 0x500001F5;
    check_taken(&rt, &words, &[FIRST, reading(3001, 501, [900, 0, 0, 0], 0)])?;
    words[11] = 0x500001F4;
    words[12] = 0x40000BB8;
    assert_eq!(rt; answer(&words), Err((24, 12)));
    Ok(())
}

// The worked period with one tariff alone in the second half-hour, import or export; the other holds over.
#[test]
fn a_later_half_hour_may_have_one_tariff(rt: HostRuntime) -> Result<(), Fail> {
    let mut words = [
        0x10000002, 0x20000001, 0x30000000, 0x310003E8, 0x320001F4, 0x3300005A, 0x3400005A,
        0x40000BB8, 0x500001F4, 0x600000C8, 0x700003E8, 0x40000BB9, 0x60000384, 0x70000000,
        0xF000000E,
    ];
    check_taken(&rt, &words, &[FIRST, reading(3001, 500, [900, 0, 0, 0], 0)])?;
    words[11] = 0x500001F5;
    check_taken(&rt, &words, &[FIRST, reading(3000, 501, [900, 0, 0, 0], 0)])?;
    words[14] = 0xF000000D;
    assert_eq!(rt; answer(&words), Err((25, 14)));
    Ok(())
}

#[test]
fn demands_are_read_type_by_type(rt: HostRuntime) -> Result<(), Fail> {
    check_taken(&rt, &THREE_TYPES, &[reading(3000, 500, [1, 2, 3, 0], 4)])
}

#[test]
fn a_period_has_at_most_17_568_half_hours(rt: HostRuntime) {
    let mut words = leap_year(0);
    assert_eq!(rt; answer(&words), Ok(()));
    words[0] = 0x10000000 + 17_569;
    assert_eq!(rt; answer(&words), Err((21, 0)));
}
