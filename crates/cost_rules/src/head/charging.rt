// What a head rule answers.
ghost use Rattle.cost_rules.specs.Heads.{headed};
ghost use Rattle.cost_rules.specs.Owed.{headed_free, headed_limited};

use super::HeadRule;
use crate::cost_rule::CostRule;
use crate::fault::Fault;
use composition::Composition;

impl CostRule for HeadRule {
    ghost meaning = { λ s. headed s.fees };

    ghost free = { λ s. headed_free s.fees s.four };

    ghost limited = { λ s. headed_limited s.fees s.small s.four };

    fn cost(&self, of: &Composition) -> Result<i64, Fault> {
        Ok(of.weighted(&self.fees))
    }
}
