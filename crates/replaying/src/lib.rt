// A ledger: lists of calls on accounts, replayed line by line.
#![tactic(auto)]

mod entries;
mod input;
mod ledger;
mod telling;

pub use input::read_all;
pub use telling::replay;
