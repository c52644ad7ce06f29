// A share once more: out of what a home adds to every group of the others, which are gone through one by one.
#![tactic(auto)]

mod by_groups;
mod newcomer;
mod split;
mod sums;

pub use by_groups::{ByGroups, share_by_all_groups};
