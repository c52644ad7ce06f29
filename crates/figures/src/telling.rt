// The worked figures, told line by line.
ghost use Rattle.std.specs.Prelude.{◌≡◌, IfOk};
ghost use Rattle.figures.specs.WorkedCases.{figures, WorkedCases};

use crate::bills::Bills;
use crate::figures::Figures;
use composition::DemandType;
use std::io;

// Works the figures out, and tells them. They are those of the worked cases, which hold.
#[tactic(auto, using(crate::proofs::Cases::worked_cases))]
pub fn tell_figures(rt: &impl Print) -> io::Result<Figures>
    ensures told { IfOk result (λ told. told ≡ figures) }
    ensures worked { WorkedCases }
{
    let figures = Figures::work_out();
    println!(rt;
        "The worked figures, as a list. Money is in hundredths of a penny, or in pence where a p stands; energy is in watt-hours."
    )?;
    tell_weights(rt, &figures)?;
    tell_three_homes(rt, &figures)?;
    tell_one_home(rt, &figures)?;
    tell_half_hours(rt, &figures)?;
    Ok(figures)
}

fn tell_weights(rt: &impl Print, figures: &Figures) -> io::Result<()> {
    let among_24 = figures.multiple_for_24;
    let weight = figures.weight_among_24;
    let among_4 = figures.multiple_for_4;
    let [none, one, two, three] = figures.weights_among_4;
    println!(rt; "Shares among 24 homes are fractions over {among_24}.")?;
    println!(rt;
        "Of these parts, what one of 24 homes adds to a group of 11 others counts {weight}."
    )?;
    println!(rt;
        "Among 4 homes shares are fractions over {among_4}: what one adds to nobody counts {none} of these parts, to one other {one}, to two {two}, and to three {three}."
    )
}

fn tell_three_homes(rt: &impl Print, figures: &Figures) -> io::Result<()> {
    let [first, second, third] = &figures.billed_by_list;
    let fees = &figures.billed_with_fees;
    tell_bills(
        rt,
        "Two homes of type 1 and one of type 2, by listed costs",
        first,
    )?;
    tell_bills(rt, "The same homes once more", second)?;
    tell_bills(rt, "And a third time", third)?;
    tell_bills(
        rt,
        "The same homes, with fees, from an empty purse again",
        fees,
    )
}

fn tell_one_home(rt: &impl Print, figures: &Figures) -> io::Result<()> {
    let [earning_50, earning_150] = &figures.earning;
    tell_bills(rt, "One home that earns half a penny", earning_50)?;
    tell_bills(rt, "One home that earns a penny and a half", earning_150)
}

fn tell_bills(rt: &impl Print, title: &str, bills: &Bills) -> io::Result<()> {
    let cost = bills.cost;
    let rebate = bills.rebate;
    let purse = bills.purse;
    println!(rt; "{title}: cost {cost}, {rebate}p back to each, then {purse} in the purse.")?;
    for of in DemandType::ALL {
        tell_line(rt, bills, of)?;
    }
    Ok(())
}

fn tell_line(rt: &impl Print, bills: &Bills, of: DemandType) -> io::Result<()> {
    let number = u8::from(of);
    match bills.lines[of.position()] {
        Some((share, bill)) => println!(rt;
            "  A home of type {number}: share {share}/{}, bill {bill}p.",
            bills.lcm
        ),
        None => println!(rt; "  Type {number} has no homes, and no line."),
    }
}

fn tell_half_hours(rt: &impl Print, figures: &Figures) -> io::Result<()> {
    let [first, second] = figures.half_hours;
    let grid = figures.grid_charges;
    let peak = figures.peak_costs;
    tell_half_hour(
        rt,
        "One home with an empty battery, 200 demanded and 1000 generated",
        first,
    )?;
    tell_half_hour(
        rt,
        "Its next half-hour, 900 demanded and nothing generated",
        second,
    )?;
    println!(rt;
        "At 3000 for 1,000 Wh imported and 500 for 1,000 Wh exported, the grid charges {grid} for the two half-hours."
    )?;
    println!(rt; "At the price 100 for each 1,000 W, their peak costs {peak}.")
}

fn tell_half_hour(rt: &impl Print, of: &str, half_hour: (u32, u32, u32)) -> io::Result<()> {
    let (charge, import, export) = half_hour;
    println!(rt; "{of}: charge {charge}, import {import}, export {export}.")
}
