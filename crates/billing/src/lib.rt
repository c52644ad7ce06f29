// One billing on plain numbers: the rebate that every home gets, and what stays in the purse.
// Money is in hundredths of a penny, unless a name says pence.
#![tactic(auto)]

mod charges;
mod settling;

pub use charges::Charges;
pub use settling::Settlement;
