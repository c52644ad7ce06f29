// Drafting bills.
ghost use Rattle.std.specs.Prelude.{◌<◌};
ghost use Rattle.account.specs.Calls.{Drafted, AfterPosting};
ghost use Rattle.account.specs.Terms.{today};

use super::Account;
use crate::draft::{Draft, Refused};
use cost_rules::CostRule;

impl Account {
    // Fills the table with what every composition of these homes costs by the rule, and divides the cost of all of them.
    pub fn draft<R: CostRule>(self, rule: &R, table: &mut [i64]) -> Result<Draft, Refused>
        ensures { Drafted today (R.CostRule.meaning rule.now) self table.old result table.new }
    {
        // a match and no `?`: the account goes into either answer
        match self.prepare(rule, table) {
            Ok(()) => Ok(Draft::bill(self, table)),
            Err(refusal) => Err(Refused {
                account: self,
                refusal,
            }),
        }
    }

    // This account once bills were posted.
    pub(crate) fn posted(self, purse: u32) -> Account
        requires { self.last < today.highest }
        ensures { AfterPosting self purse result }
    {
        Account {
            homes: self.homes,
            purse,
            last: self.last + 1,
        }
    }
}
