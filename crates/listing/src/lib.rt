// What the program annexe prints for an input: a listing of shares and bills, or a refusal.
#![tactic(auto)]

mod homes;
mod input;
mod listing;
mod refusals;
mod request;
mod row;
mod words;

pub use input::read_input;
pub use listing::{Listing, list};
pub use refusals::InputRefusal;
pub use request::{MOST_COSTS, Request};
pub use words::{MOST_BYTES, MOST_WORDS};
