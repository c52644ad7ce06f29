// Shares by Shapley value, as whole numbers over a least common multiple.
#![tactic(auto)]

mod cost_table;
mod refusals;
mod weight_table;

pub use cost_table::CostTable;
pub use refusals::TableRefusal;
pub use weight_table::{lcm_to, weight};
