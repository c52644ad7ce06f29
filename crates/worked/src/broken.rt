// A rule that is not one of the crate of rules, as a stranger might bring it: every group but nobody has the same fault.
ghost use Rattle.worked.specs.Broken.{broken, broken_free, broken_limited};

use composition::Composition;
use cost_rules::{CostRule, Fault};

#[derive(Clone, Copy)]
pub(crate) struct BrokenRule {
    pub(crate) fault: Fault,
}

impl CostRule for BrokenRule {
    ghost meaning = { λ s. broken s.fault };

    ghost free = { λ s. broken_free s.fault };

    ghost limited = { λ s. broken_limited s.fault };

    fn cost(&self, of: &Composition) -> Result<i64, Fault> {
        if of.homes() == 0 {
            return Ok(0);
        }
        Err(self.fault)
    }
}

// Where every group but nobody has the fault with this number and rung.
pub(crate) fn broken(number: u8, rung: u8) -> BrokenRule {
    BrokenRule {
        fault: Fault { number, rung },
    }
}
