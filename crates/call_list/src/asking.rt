// What a group costs, and whether there is such a group.
ghost use Rattle.call_list.specs.Holding.{Asked, Composed};

use answers::{Answer, cost, done, refused};
use composition::Composition;
use cost_rules::CostRule;

// What a group costs by a rule, or why there is no such group.
pub(crate) fn ask<R: CostRule>(rule: &R, of: [u8; 4]) -> Answer
    ensures { Asked (R.CostRule.meaning rule.now) of result }
{
    match Composition::new(of) {
        Ok(group) => cost(rule.cost(&group)),
        Err(refusal) => refused(refusal),
    }
}

// Whether there is such a group.
pub(crate) fn compose(of: [u8; 4]) -> Answer
    ensures { Composed of result }
{
    match Composition::new(of) {
        Ok(_) => Answer::Done,
        Err(refusal) => refused(refusal),
    }
}
