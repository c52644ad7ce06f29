// The account of a battery cabinet: who is in it, what they owe, and what the purse keeps.
#![tactic(auto)]

mod account;
mod draft;
mod refusals;

pub use account::Account;
pub use draft::{Draft, Refused};
pub use refusals::{DraftRefusal, JoinRefusal, LeaveRefusal};
