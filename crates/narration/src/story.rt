// A walk through one account: homes join, one is refused, bills are drafted, posted and withdrawn, and a sum of rules is drafted by.
ghost use Rattle.std.specs.Prelude.{IfOk, ◌≡◌};
ghost use Rattle.account.specs.Runs.{Been};
ghost use Rattle.cost_rules.specs.Filled.{Holds};
ghost use Rattle.figures.specs.WorkedCases.{three_homes, costs, fees};
ghost use Rattle.narration.specs.Story.{EndOfLists};

use crate::drafts::{draft_and_post, draft_and_withdraw};
use crate::homes::open_and_join;
use crate::refused::unless_refused;
use account::Account;
use cost_rules::{HeadRule, ListedRule, SumRule};
use figures::{COSTS, FEES, THREE_HOMES};

// The account as it stands at the end.
pub fn by_lists_and_fees(rt: &impl Print) -> anyhow::Result<Account>
    ensures been { IfOk result (Been 0) }
    ensures ends { IfOk result EndOfLists }
{
    let account = open_and_join(rt)?;
    let listed = list_costs(rt)?;
    let mut table = [0i64; 6];
    let account = draft_and_post(rt, account, &listed, &mut table)?;
    let account = draft_and_post(rt, account, &listed, &mut table)?;
    let account = draft_and_post(rt, account, &listed, &mut table)?;
    let account = draft_and_withdraw(rt, account, &listed, &mut table)?;
    let rule = SumRule {
        left: listed,
        right: fees(rt)?,
    };
    draft_and_post(rt, account, &rule, &mut table)
}

fn list_costs(rt: &impl Print) -> anyhow::Result<ListedRule<'static>>
    ensures { IfOk result (λ rule. Holds rule three_homes costs) }
{
    let mut rule = ListedRule::built_in();
    let answer = rule.fill(THREE_HOMES, &COSTS);
    unless_refused(
        rt,
        answer,
        "The costs would be listed.",
        "the listed costs are no rule",
    )?;
    println!(rt;
        "The rule lists what up to two homes of type 1 and one of type 2 cost, in hundredths of a penny."
    )?;
    println!(rt;
        "  Nobody: 0. One of type 1: 600. Two: 1000. One of type 2: 900, with one of type 1: 1100, with two: 1600."
    )?;
    Ok(rule)
}

fn fees(rt: &impl Print) -> anyhow::Result<HeadRule>
    ensures { IfOk result (λ rule. rule.fees ≡ fees) }
{
    let answer = HeadRule::new(FEES);
    let fees = unless_refused(rt, answer, "Fees would be added.", "the fees are no rule")?;
    println!(rt; "To the rule are added fees for each home: 10 for type 1, and 20 for type 2.")?;
    Ok(fees)
}
