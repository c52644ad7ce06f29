// Filling a caller's table with the cost of every composition inside an account. A rule and a table go side by side, as `draft` takes them: a struct of the two
// would be made for one call, and taken apart in it.
ghost use Rattle.std.specs.Prelude.{◌≤◌, length};
ghost use Rattle.composition.specs.Counts.{size};
ghost use Rattle.account.specs.Filling.{FillEnds};
ghost use Rattle.account.specs.Calls.{Prepared};
ghost use Rattle.account.specs.Terms.{today};

use super::Account;
use crate::refusals::DraftRefusal;
use composition::Composition;
use cost_rules::CostRule;

// The highest number that a bill can have.
const HIGHEST: u16 = 65_535;

impl Account {
    // Tests whether a draft may be made, and fills the table for it.
    pub(crate) fn prepare<R: CostRule>(
        &self,
        rule: &R,
        table: &mut [i64],
    ) -> Result<(), DraftRefusal>
        ensures { Prepared today (R.CostRule.meaning rule.now) self.now table.old result table.new }
    {
        if self.homes.homes() == 0 {
            return Err(DraftRefusal::NoHomes);
        }
        if table.len() < self.homes.size() {
            return Err(DraftRefusal::TableTooShort);
        }
        if self.last == HIGHEST {
            return Err(DraftRefusal::NumbersUsedUp);
        }
        fill(&self.homes, rule, table)
    }
}

// Asks the rule for one composition after another, by place, up to the first that has a fault.
fn fill<R: CostRule>(homes: &Composition, rule: &R, table: &mut [i64]) -> Result<(), DraftRefusal>
    requires { size homes.now.counts ≤ length table.old }
    ensures { FillEnds (R.CostRule.meaning rule.now) homes.now.counts table.old result table.new }
{
    let size = homes.size();
    for (place, entry) in table[..size].iter_mut().enumerate() {
        *entry = rule
            .cost(&homes.at(place))
            .map_err(|fault| DraftRefusal::Faulty { place, fault })?;
    }
    Ok(())
}
