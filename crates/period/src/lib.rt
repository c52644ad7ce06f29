// A period of half-hour readings: the words that write it down, and the check that they do.
#![tactic(auto)]

mod cursor;
mod kinds;
mod label;
mod period;
mod reading;
mod readings;
mod refusals;
mod slot;
mod words;

pub use period::Period;
pub use reading::{Reading, Tariffs};
pub use readings::Readings;
pub use refusals::{Part, PeriodRefusal};
pub use words::{field, field_value, kind};
