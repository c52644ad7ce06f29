// Cost rules in a table: each has a number, and a sum names its parts by theirs.
#![tactic(auto)]

mod book;
mod definition;
mod refusals;
mod rule;
#[cfg(test)]
mod tests;

pub use book::{MOST_RULES, RuleBook};
pub use definition::Definition;
pub use refusals::AddRefusal;
pub use rule::BookRule;
