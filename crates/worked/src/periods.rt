// Periods to test with.
use period::Period;
use refusal::Refusal;
use std::array;

// Two half-hours with readings for one type.
pub(crate) static WORKED: [u32; 14] = [
    0x10000002, // two half-hours
    0x20000001, // one type
    0x30000000, // the battery: from 0
    0x310003E8, // to 1,000
    0x320001F4, // up to 500 in a half-hour
    0x3300005A, // 90% of what is put in is stored
    0x3400005A, // 90% of what is drawn comes out
    0x40000BB8, // import tariff 3,000
    0x500001F4, // export tariff 500
    0x600000C8, // demand 200
    0x700003E8, // generation 1,000
    0x60000384, // demand 900
    0x70000000, // generation 0
    0xF000000D, // closed at place 13
];

// Fills a period, or tells the number by which people know the refusal, and its place.
pub(crate) fn fill_period<'a>(
    period: &mut Period<'a>,
    words: &'a [u32],
) -> Result<(), (u8, usize)> {
    period
        .fill(words)
        .map_err(|refusal| (refusal.number(), refusal.place))
}

// The longest period: readings for four types and both tariffs in each of 17,568 half-hours, all the same, with the largest battery, which loses nothing.
pub(crate) fn longest(tariff: u16, demand: u16, generation: u16) -> [u32; 122_984] {
    array::from_fn(|place| match place {
        0 => 0x10000000 + 17_568,
        1 => 0x20000004,
        2 => 0x30000000,
        3 => 0x31000000 + 100_000,
        4 => 0x32000000 + 50_000,
        5 => 0x33000064,
        6 => 0x34000064,
        122_983 => 0xF0000000 + 122_983,
        _ => match place % 7 {
            0 => 0x40000000 + u32::from(tariff),
            1 => 0x50000000 + u32::from(tariff),
            6 => 0x70000000 + u32::from(generation),
            _ => 0x60000000 + u32::from(demand),
        },
    })
}

// 366 days of a demand and no generation, with the worked period's battery and tariffs, closed at place 9 + 2 x 17,568.
pub(crate) fn leap_year(demand: u16) -> [u32; 35_146] {
    array::from_fn(|place| match place {
        0 => 0x10000000 + 17_568,
        1..=8 => WORKED[place],
        35_145 => 0xF0000000 + 35_145,
        _ if place % 2 == 0 => 0x70000000,
        _ => 0x60000000 + u32::from(demand),
    })
}
