// What a ledger prints of a call: its answer, and what stands behind it.
#![tactic(auto)]

mod answer;
mod grounds;
mod outcome;
mod shown;
mod told;

pub use answer::{Answer, DraftTold, cost, done, drafted, line};
pub use grounds::{Ground, Grounded, Known, refused};
pub use outcome::Outcome;
pub use shown::Shown;
pub use told::tell;
