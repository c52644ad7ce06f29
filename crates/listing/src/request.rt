// What an input asks for: bills for homes, over a period.
ghost use Rattle.std.specs.Prelude.{◌≡◌};

use account::Account;
use period::Period;

mod drafting;
mod reading;

pub use drafting::MOST_COSTS;

#[derive(Drop)]
pub struct Request<'a> {
    // the homes have joined it, and no bill was posted
    account: Account,
    period: Period<'a>,
    ghost first: { account.last ≡ 0 },
}
