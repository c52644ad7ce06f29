// Figures that a person can follow by hand: stated, worked out by the public calls, and told.
#![tactic(auto)]

mod accounts;
mod billed;
mod bills;
mod costs;
mod figures;
mod half_hours;
mod metered;
mod rules;
mod telling;
mod weights;

pub use bills::Bills;
pub use costs::{COSTS, FEES, THREE_HOMES};
pub use figures::Figures;
pub use telling::tell_figures;
