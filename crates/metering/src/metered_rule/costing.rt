// What a metered rule costs a group.
ghost use Rattle.std.specs.Prelude.{◌≡◌};
ghost use Rattle.metering.specs.Metered.{covers, metered};
ghost use Rattle.metering.specs.Owed.{metered_free, metered_limited, rated_page};
ghost use Rattle.period.specs.Filled.{page};

use super::MeteredRule;
use crate::tally::Tally;
use composition::Composition;
use cost_rules::{CostRule, Fault, price};

impl<T: Tally> CostRule for MeteredRule<'_, T> {
    ghost meaning = { λ s. metered (T.Tally.meaning s.tally) (page s.period) };

    ghost free = { λ s. metered_free (T.Tally.meaning s.tally) (page s.period) (rated_page s.period) (T.Tally.free s.tally) };

    ghost limited = { λ s. metered_limited (T.Tally.meaning s.tally) (page s.period) };

    // What the tally makes of the group, if there are readings for all its homes, and if that lies within the limits.
    fn cost(&self, of: &Composition) -> Result<i64, Fault> {
        if !covers(self.period.types(), of) {
            // a home of a type without readings
            return Err(Fault::own(12));
        }
        price(self.walk(of))
    }
}

// Whether there are readings for every home of a group: none is of a type beyond the first few.
fn covers(types: u8, group: &Composition) -> bool
    ensures { result ≡ covers types group.now.counts }
{
    group
        .counts()
        .iter()
        .skip(usize::from(types))
        .all(|&count| count == 0)
}
