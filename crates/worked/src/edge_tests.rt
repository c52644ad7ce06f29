// Shares of 24 homes at the limits of costs, where a share comes near the ends of an i64.
use crate::told::*;
use std::array;
use std::test::Fail;

// What up to one home of type 1 and 23 of type 2 cost: a group with the home of type 1 the first amount, any other but
// nobody the second.
fn by_turns(with: i32, without: i32) -> [i32; 48] {
    array::from_fn(|place| match place {
        0 => 0,
        _ if place % 2 == 1 => with,
        _ => without,
    })
}

// The first entry of 2160 is 0; after it the place's remainder by 11 says which limit a cost stands at.
fn by_elevens() -> [i32; 2160] {
    array::from_fn(|place| match place {
        0 => 0,
        _ if place % 11 < 6 => 500_000_000,
        _ => -500_000_000,
    })
}

// One home of type 1 and 23 of type 2. A group with the home of type 1 costs 500,000,000, any other but nobody
// -500,000,000. So the home of type 1 adds 1,000,000,000 to every group of the others but nobody, to whom it adds half
// of that: no share can be higher. All weights of a home together are L = 5,354,228,880, and that of nobody is
// L / 24 = 223,092,870. L x 1,000,000,000 - 223,092,870 x 500,000,000 = 5,242,682,445,000,000,000.
// A home of type 2 only takes 500,000,000 off what nobody costs: -223,092,870 x 500,000,000 = -111,546,435,000,000,000.
// Over L that is 979,166,666.7 and -20,833,333.3, so 9,791,667 and -208,333 pence; 9,791,667 - 23 x 208,333 = 5,000,008
// pence are 800 above the cost.
#[test]
fn the_highest_share(rt: HostRuntime) -> Result<(), Fail> {
    let costs = by_turns(500_000_000, -500_000_000);
    let one = Some((5_242_682_445_000_000_000, 9_791_667));
    let two = Some((-111_546_435_000_000_000, -208_333));
    let whole = (5_354_228_880, 500_000_000, 0, 800);
    check_bills(
        &rt,
        [1, 23, 0, 0],
        &costs,
        &mut [0; 48],
        (whole, [one, two, None, None]),
    )
}

// The same with every cost turned round. Rounded up, -979,166,666.7 and 20,833,333.3 are -9,791,666 and 208,334 pence;
// 23 x 208,334 - 9,791,666 = -4,999,984 pence are 1600 above the cost.
#[test]
fn the_lowest_share(rt: HostRuntime) -> Result<(), Fail> {
    let costs = by_turns(-500_000_000, 500_000_000);
    let one = Some((-5_242_682_445_000_000_000, -9_791_666));
    let two = Some((111_546_435_000_000_000, 208_334));
    let whole = (5_354_228_880, -500_000_000, 0, 1600);
    check_bills(
        &rt,
        [1, 23, 0, 0],
        &costs,
        &mut [0; 48],
        (whole, [one, two, None, None]),
    )
}

// 24 homes of all four types, 6 x 8 x 5 x 9 = 2160 groups. A group costs 500,000,000 if its place leaves 1 to 5 over when
// divided by 11, or 0 and it is not nobody, and -500,000,000 else. The shares were first added up
// apart from this program, in whole numbers without limits; crates/recount_cases goes through all 8,388,608 groups of the
// others one by one and comes to the same. 5 x 117,624,463 + 7 x 179,847,855 + 4 x 337,568,627 - 8 x 65,027,171 = L / 2, as
// it must be for a cost of 500,000,000.
#[test]
fn shares_of_four_types_at_the_limits(rt: HostRuntime) -> Result<(), Fail> {
    let lines = [
        Some((117_624_463_000_000_000, 219_686)),
        Some((179_847_855_000_000_000, 335_899)),
        Some((337_568_627_000_000_000, 630_472)),
        Some((-65_027_171_000_000_000, -121_450)),
    ];
    let whole = (5_354_228_880, 500_000_000, 0, 1100);
    check_bills(
        &rt,
        [5, 7, 4, 8],
        &by_elevens(),
        &mut [0; 2160],
        (whole, lines),
    )
}
