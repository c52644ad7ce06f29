// The interface of all cost rules.
ghost use Rattle.std.specs.Prelude.{◌≡◌};
ghost use Rattle.cost_rules.specs.Meanings.{Meaning, Free, Limited};

use crate::fault::Fault;
use composition::Composition;

pub trait CostRule {
    // What each composition costs, or why it has no cost.
    ghost meaning: { Self → Meaning };

    // What a rule owes: nobody costs nothing, and every cost lies within the limits.
    ghost free: { (s : Self) → Free (meaning s) };

    ghost limited: { (s : Self) → Limited (meaning s) };

    // The cost of a composition, or its fault, as the rule means it.
    fn cost(&self, of: &Composition) -> Result<i64, Fault>
        ensures { result ≡ meaning self.now of.now.counts };
}
