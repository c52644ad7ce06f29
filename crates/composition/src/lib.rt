// Groups of homes by how many there are of each demand type.
#![tactic(auto)]

mod composition;
mod demand_type;
mod refusals;

pub use composition::Composition;
pub use demand_type::DemandType;
pub use refusals::{NoSuchType, TooManyHomes};
