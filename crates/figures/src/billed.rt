// Homes that are billed.
ghost use Rattle.std.specs.Prelude.{◌≡◌, [], ◌∷◌};
ghost use Rattle.account.specs.Calls.{Posted};
ghost use Rattle.figures.specs.WorkedCases.{first_bills, second_bills, third_bills, bills_with_fees, bills_earning_50, bills_earning_150};
ghost use Rattle.figures.specs.Workings.{Billable, BillsEnded};

use crate::accounts::{one_home, three_homes};
use crate::bills::Bills;
use crate::costs::{COSTS, FEES, THREE_HOMES};
use crate::rules::list;
use account::Account;
use cost_rules::{CostRule, HeadRule, SumRule};

// Three homes, three times by listed costs.
pub(crate) fn billed_by_list() -> [Bills; 3]
    ensures { result ≡ first_bills ∷ second_bills ∷ third_bills ∷ [] }
{
    let rule = list(THREE_HOMES, &COSTS);
    let (first, account) = bill(three_homes(), &rule);
    let (second, account) = bill(account, &rule);
    let (third, _account) = bill(account, &rule);
    [first, second, third]
}

// Three homes, by listed costs and fees.
pub(crate) fn billed_with_fees() -> Bills
    ensures { result ≡ bills_with_fees }
{
    let rule = SumRule {
        left: list(THREE_HOMES, &COSTS),
        right: HeadRule::new(FEES).unwrap(),
    };
    let (bills, _account) = bill(three_homes(), &rule);
    bills
}

// One home that earns half a penny.
pub(crate) fn earning_50() -> Bills
    ensures { result ≡ bills_earning_50 }
{
    let costs = [0, -50];
    let rule = list([1, 0, 0, 0], &costs);
    let (bills, _account) = bill(one_home(), &rule);
    bills
}

// One that earns a penny and a half.
pub(crate) fn earning_150() -> Bills
    ensures { result ≡ bills_earning_150 }
{
    let costs = [0, -150];
    let rule = list([1, 0, 0, 0], &costs);
    let (bills, _account) = bill(one_home(), &rule);
    bills
}

// Bills by a rule, and the account once they are posted.
fn bill<R: CostRule>(account: Account, rule: &R) -> (Bills, Account)
    requires { Billable (R.CostRule.meaning rule.now) account }
    ensures { BillsEnded Posted (R.CostRule.meaning rule.now) account result.0 result.1 }
{
    let draft = account.draft(rule, &mut [0; 6]).unwrap();
    (Bills::of(&draft), draft.post())
}
