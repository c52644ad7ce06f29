// One list of calls on an account, line by line.
#![tactic(auto)]

mod asking;
mod held;
mod notes;
mod session;
mod standing;

pub use session::Session;
