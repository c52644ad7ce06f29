// A draft of bills. It holds the account, so that nobody joins, leaves or drafts again before it is posted or withdrawn.
ghost use Rattle.std.specs.Prelude.{◌<◌};
ghost use Rattle.account.specs.Terms.{today};

use crate::account::Account;
use crate::refusals::DraftRefusal;

mod billing_homes;
mod ending;
mod telling;

#[derive(Drop)]
pub struct Draft {
    account: Account,
    // the least common multiple that the shares are fractions over
    lcm: u64,
    // what all homes together cost, in hundredths of a penny
    cost: i64,
    // what every home is given back, in pence
    rebate: i64,
    // the purse once the draft is posted
    purse: u32,
    // share and bill of each type that has homes
    lines: [Option<(i64, i64)>; 4],
    ghost numbers_left: { account.last < today.highest },
}

// A draft that was refused, with the account as it was.
#[derive(Drop)]
pub struct Refused {
    pub account: Account,
    pub refusal: DraftRefusal,
}
