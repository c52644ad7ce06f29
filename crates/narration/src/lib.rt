// What is done to an account, told line by line as it happens.
#![tactic(auto)]

mod drafts;
mod homes;
mod meter;
mod refused;
mod story;

pub use meter::by_the_meter;
pub use story::by_lists_and_fees;
