// The battery: what it can do for one home, and what it does for a group of homes in one half-hour.
#![tactic(auto)]

mod battery;
mod rating;

pub use battery::Battery;
pub use rating::Rating;
