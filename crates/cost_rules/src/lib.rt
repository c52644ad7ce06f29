// Rules that say what a group of homes costs, behind one interface.
#![tactic(auto)]

mod cost_rule;
mod fault;
mod head;
mod listed;
mod pricing;
mod refusals;
mod sum;

pub use cost_rule::CostRule;
pub use fault::Fault;
pub use head::HeadRule;
pub use listed::ListedRule;
pub use pricing::price;
pub use refusals::{FeeOutside, ListedRefusal};
pub use sum::SumRule;
