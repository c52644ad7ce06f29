// The figures of the worked cases.
ghost use Rattle.std.specs.Prelude.{◌≡◌};
ghost use Rattle.figures.specs.WorkedCases.{figures};

use crate::billed::{billed_by_list, billed_with_fees, earning_50, earning_150};
use crate::bills::Bills;
use crate::half_hours::half_hours;
use crate::metered::{grid_charges, peak_costs};
use crate::weights::{multiple_for, weight_of, weights_among_4};

#[derive(Clone, Copy)]
pub struct Figures {
    // what shares among 24 homes are fractions over
    pub multiple_for_24: u64,
    // the weight of what one of them adds to 11 others
    pub weight_among_24: u64,
    // what shares among 4 homes are fractions over
    pub multiple_for_4: u64,
    // the weights of what one of them adds to none, one, two and three others
    pub weights_among_4: [u64; 4],
    // three homes, billed by listed costs three times in a row
    pub billed_by_list: [Bills; 3],
    // and from an empty purse with fees
    pub billed_with_fees: Bills,
    // a home that earns 50, and one that earns 150
    pub earning: [Bills; 2],
    // a home's two half-hours: charge, import and export
    pub half_hours: [(u32, u32, u32); 2],
    // what these cost by the grid, and by their peak
    pub grid_charges: i64,
    pub peak_costs: i64,
}

impl Figures {
    // The figures, as accounts, rules and the battery answer them.
    pub fn work_out() -> Figures
        ensures { result ≡ figures }
    {
        Figures {
            multiple_for_24: multiple_for([6; 4]),
            weight_among_24: weight_of(24, 11),
            multiple_for_4: multiple_for([1; 4]),
            weights_among_4: weights_among_4(),
            billed_by_list: billed_by_list(),
            billed_with_fees: billed_with_fees(),
            earning: [earning_50(), earning_150()],
            half_hours: half_hours(),
            grid_charges: grid_charges(),
            peak_costs: peak_costs(),
        }
    }
}
