// What a group of homes costs by its meter: the walk through a period, and the rules that price it.
#![tactic(auto)]

mod grid_rule;
mod grid_tally;
mod half_hour;
mod metered_rule;
mod peak_rule;
mod peak_tally;
mod price;
mod refusals;
mod tally;

pub use grid_rule::GridRule;
pub use peak_rule::PeakRule;
pub use refusals::PriceOutside;
