// What the program recount prints for an input: each share once more, by all groups of the other homes.
#![tactic(auto)]

mod recount;
mod row;

pub use recount::{Recount, count_again};
