// Division of signed amounts, rounded to a whole number, exact for every amount that an i64 holds.
#![tactic(auto)]

mod divisor;
mod round;

pub use divisor::Divisor;
pub use round::{round_down, round_up};
