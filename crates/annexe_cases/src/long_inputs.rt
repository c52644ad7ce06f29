// Inputs that are too long to be written out.
use std::array;

// One home, and zeros in the place of a period.
pub(crate) fn zeros_behind_homes<const N: usize>() -> [u8; N] {
    array::from_fn(|at| match at {
        0 => 0x01,
        3 => 0x91,
        7 => 0x92,
        11 => 0x93,
        15 => 0x94,
        _ => 0,
    })
}

// The words in front of the first demand: homes, half-hours, types with readings, a battery that holds nothing, and the tariffs of import and export.
fn opening(homes: [u8; 4], half_hours: u16, types: u8, import: u16, export: u16) -> [u32; 13] {
    [
        0x91000000 + u32::from(homes[0]),
        0x92000000 + u32::from(homes[1]),
        0x93000000 + u32::from(homes[2]),
        0x94000000 + u32::from(homes[3]),
        0x10000000 + u32::from(half_hours),
        0x20000000 + u32::from(types),
        0x30000000,
        0x31000000,
        0x32000000,
        0x33000064,
        0x34000064,
        0x40000000 + u32::from(import),
        0x50000000 + u32::from(export),
    ]
}

// One home, which imports 1 in each of 8,185 half-hours, at 1,000 for 1,000: 16,384 words.
pub(crate) fn half_hours_to_the_end() -> [u32; 16_384] {
    let opening = opening([1, 0, 0, 0], 8_185, 1, 1_000, 0);
    array::from_fn(|at| match at {
        0..=12 => opening[at],
        16_383 => 0xF0000000 + 16_379,
        _ if at % 2 == 0 => 0x70000000,
        _ => 0x60000001,
    })
}

// Homes of type 1, of which each imports 20,000 in each of 125 half-hours, at 20,000 for 1,000.
pub(crate) fn importing(homes: u8) -> [u32; 264] {
    let opening = opening([homes, 0, 0, 0], 125, 1, 20_000, 0);
    array::from_fn(|at| match at {
        0..=12 => opening[at],
        263 => 0xF0000000 + 259,
        _ if at % 2 == 0 => 0x70000000,
        _ => 0x60000000 + 20_000,
    })
}

// 24 homes of type 1, of which each exports 20,000 in each of 100 half-hours, at 20,000 for 1,000. There are readings for four types.
pub(crate) fn exporting() -> [u32; 514] {
    let opening = opening([24, 0, 0, 0], 100, 4, 20_000, 20_000);
    array::from_fn(|at| match at {
        0..=12 => opening[at],
        513 => 0xF0000000 + 509,
        _ if at % 5 == 2 => 0x70000000 + 20_000,
        _ => 0x60000000,
    })
}

// A home of each of the types 1 to 3. The first two have readings: each imports 20,000 in each of 700 half-hours, at 20,000 for 1,000.
pub(crate) fn importing_with_one_unread() -> [u32; 2_114] {
    let opening = opening([1, 1, 1, 0], 700, 2, 20_000, 0);
    array::from_fn(|at| match at {
        0..=12 => opening[at],
        2_113 => 0xF0000000 + 2_109,
        _ if at % 3 == 0 => 0x70000000,
        _ => 0x60000000 + 20_000,
    })
}
