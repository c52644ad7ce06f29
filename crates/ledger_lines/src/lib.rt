// One line of a ledger: a call on an account, or something that the calls need, written in words with single spaces between.
#![tactic(auto)]

mod fields;
mod forms;
mod keyword;
mod kinds;
mod line;
mod numbers;
mod parts;
mod reading;
#[cfg(test)]
mod tests;
mod unread;

pub use line::{Kind, Line, Listed, Making, WrittenRule};
pub use parts::parts_between;
pub use reading::read;
pub use unread::Unread;
