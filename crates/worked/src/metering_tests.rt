// What groups cost by the grid rule and by the peak rule.
use crate::periods::*;
use crate::told::*;
use metering::{GridRule, PeakRule};
use period::Period;
use std::process::Abort;
use std::test::Fail;

// What a group costs by the grid over these words, or the number by which people know the fault.
fn grid_cost(words: &[u32], homes: [u8; 4]) -> Result<Result<i64, u8>, Fail> {
    let mut period = Period::built_in();
    fill_period(&mut period, words)?;
    Ok(cost_by(&GridRule::on(period), homes))
}

// Sets the price of a rule, or tells the number by which people know the refusal.
fn set_price<'a>(rule: &mut PeakRule<'a>, period: Period<'a>, price: i64) -> Result<(), u8> {
    by_number(rule.fill(period, price))
}

// 495 imported at 3,000 less 300 exported at 500, by a thousandth. The second half-hour lacks 900, which are 1,800 watts.
#[test]
fn the_worked_period_costs_1335_and_its_peak_180(rt: HostRuntime) -> Result<(), Fail> {
    assert_eq!(rt; grid_cost(&WORKED, [0; 4])?, Ok(0));
    assert_eq!(rt; grid_cost(&WORKED, [1, 0, 0, 0])?, Ok(1335));
    assert_eq!(rt; grid_cost(&WORKED, [2, 0, 0, 0])?, Ok(2670));
    let mut period = Period::built_in();
    fill_period(&mut period, &WORKED)?;
    let mut peak = PeakRule::built_in();
    set_price(&mut peak, period, 100)?;
    assert_eq!(rt; cost_by(&peak, [0; 4]), Ok(0));
    assert_eq!(rt; cost_by(&peak, [1, 0, 0, 0]), Ok(180));
    Ok(())
}

// One watt-hour in each of two half-hours, at 600 for 1,000: 1,200 / 1,000 is 1.2, rounded down. Imported that costs 1; exported it brings in 1.2,
// and -1.2 is rounded down to -2.
#[test]
fn the_sum_is_divided_once_and_rounded_down(rt: HostRuntime) -> Result<(), Fail> {
    let mut words = WORKED;
    words[4] = 0x32000000;
    words[7] = 0x40000000 + 600;
    words[8] = 0x50000000 + 600;
    words[9] = 0x60000001;
    words[10] = 0x70000000;
    words[11] = 0x60000001;
    assert_eq!(rt; grid_cost(&words, [1, 0, 0, 0])?, Ok(1));
    words[9] = 0x60000000;
    words[10] = 0x70000001;
    words[11] = 0x60000000;
    words[12] = 0x70000001;
    assert_eq!(rt; grid_cost(&words, [1, 0, 0, 0])?, Ok(-2));
    Ok(())
}

// 24 homes of four types, 20,000 watt-hours each, in each of 17,568 half-hours: 8,432,640,000. Demanded, they are imported. Generated, those of the first five
// half-hours fill the battery, which holds 24 x 100,000, and 8,430,240,000 are exported. At 1 for 1,000 that costs 8,432,640, or brings in 8,430,240; at the highest tariffs
// either lies outside the limits. 24 homes of one type, under a tariff of 1 that is given once and holds for 366 days, cost the same.
#[test]
fn the_largest_walk_does_not_overflow(rt: HostRuntime) -> Result<(), Fail> {
    let mut words = leap_year(20_000);
    words[7] = 0x40000001;
    assert_eq!(rt; grid_cost(&words, [24, 0, 0, 0])?, Ok(8_432_640));
    assert_eq!(rt; grid_cost(&longest(1, 20_000, 0), [6; 4])?, Ok(8_432_640));
    assert_eq!(rt; grid_cost(&longest(1, 0, 20_000), [6; 4])?, Ok(-8_430_240));
    assert_eq!(rt; grid_cost(&longest(20_000, 20_000, 0), [6; 4])?, Err(10));
    assert_eq!(rt; grid_cost(&longest(20_000, 0, 20_000), [6; 4])?, Err(10));
    Ok(())
}

// 366 days at the highest demand, tariff and price: 24 homes cost more than any group may, by the grid and by their peak, but that one of them has no readings goes
// before that. Of 12 homes the peak is 12 x 20,000, which are 480,000 watts and cost 480,000,000.
#[test]
fn missing_readings_go_before_a_cost_outside_the_limits(rt: HostRuntime) -> Result<(), Fail> {
    let mut words = leap_year(20_000);
    words[7] = 0x40000000 + 20_000;
    let mut period = Period::built_in();
    fill_period(&mut period, &words)?;
    let grid = GridRule::on(period);
    assert_eq!(rt; cost_by(&grid, [24, 0, 0, 0]), Err(10));
    assert_eq!(rt; cost_by(&grid, [23, 0, 0, 1]), Err(12));
    let mut peak = PeakRule::built_in();
    set_price(&mut peak, period, 1_000_000)?;
    assert_eq!(rt; cost_by(&peak, [12, 0, 0, 0]), Ok(480_000_000));
    assert_eq!(rt; cost_by(&peak, [24, 0, 0, 0]), Err(10));
    assert_eq!(rt; cost_by(&peak, [23, 1, 0, 0]), Err(12));
    Ok(())
}

// A refused price leaves the rule as it was, and so the rule to begin with, which stands on a period for type 1 at the price 0.
#[test]
fn a_price_is_from_0_to_1_000_000(rt: HostRuntime) -> Result<(), Fail> {
    let mut period = Period::built_in();
    fill_period(&mut period, &WORKED)?;
    let mut peak = PeakRule::built_in();
    assert_eq!(rt; set_price(&mut peak, period, -1), Err(42));
    assert_eq!(rt; cost_by(&peak, [1, 0, 0, 0]), Ok(0));
    assert_eq!(rt; cost_by(&peak, [0, 1, 0, 0]), Err(12));
    assert_eq!(rt; set_price(&mut peak, period, 1_000_000), Ok(()));
    assert_eq!(rt; set_price(&mut peak, period, 1_000_001), Err(42));
    assert_eq!(rt; cost_by(&peak, [1, 0, 0, 0]), Ok(1_800_000));
    assert_eq!(rt; set_price(&mut peak, period, 0), Ok(()));
    assert_eq!(rt; cost_by(&peak, [1, 0, 0, 0]), Ok(0));
    Ok(())
}
