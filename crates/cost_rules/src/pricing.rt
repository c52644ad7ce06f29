// The limits of what a group may cost.
ghost use Rattle.std.specs.Prelude.{◌≡◌};
ghost use Rattle.cost_rules.specs.Prices.{priced, Priced};

use crate::fault::Fault;

// The most that a group may cost, or earn.
const LIMIT: i64 = 500_000_000;

// An amount as a cost, or the fault of one outside the limits.
pub fn price(amount: i64) -> Result<i64, Fault>
    ensures value { result ≡ priced amount }
    ensures law { Priced amount result }
{
    if (-LIMIT..=LIMIT).contains(&amount) {
        Ok(amount)
    } else {
        // an amount outside the limits
        Err(Fault::own(10))
    }
}
