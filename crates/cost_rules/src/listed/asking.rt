// What a listed rule answers.
ghost use Rattle.cost_rules.specs.Listed.{listed};
ghost use Rattle.cost_rules.specs.Owed.{listed_free, listed_limited};

use super::ListedRule;
use crate::cost_rule::CostRule;
use crate::fault::Fault;
use composition::Composition;

impl CostRule for ListedRule<'_> {
    ghost meaning = { λ s. listed s.largest.counts s.table.now };

    ghost free = { λ s. listed_free s.largest.counts s.table.now s.largest.four s.free };

    ghost limited = { λ s. listed_limited s.largest.counts s.table.now s.whole s.limited };

    fn cost(&self, of: &Composition) -> Result<i64, Fault> {
        if !of.fits(&self.largest) {
            // a group outside the box
            return Err(Fault::own(11));
        }
        let place = self.largest.place(of);
        Ok(i64::from(self.table[place]))
    }
}
