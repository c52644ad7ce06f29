// Drafts, and how they end. An account, a rule and a table go side by side, as a draft takes them: a struct of the three would be made for one call, and
// taken apart in it.
ghost use Rattle.std.specs.Prelude.{IfOk, Ok, ◌≡◌};
ghost use Rattle.account.specs.Calls.{Drafted, Posted, Withdrawn};
ghost use Rattle.account.specs.Runs.{GoesOn};
ghost use Rattle.account.specs.Terms.{today};
ghost use Rattle.narration.specs.Story.{DraftEnded};

use crate::homes::show_account;
use crate::refused::unless_refused;
use account::{Account, Draft};
use cost_rules::CostRule;
use refusal::Refusal;
use std::io;

// A draft, which is posted: the account goes on from there. Two calls, this and the next, since each promises what its end does; the rest is `draft_and`.
pub(crate) fn draft_and_post<R: CostRule>(
    rt: &impl Print,
    account: Account,
    rule: &R,
    table: &mut [i64],
) -> anyhow::Result<Account>
    ensures posted { IfOk result (DraftEnded Posted (R.CostRule.meaning rule.now) account table.old table.new) }
    ensures goes_on { IfOk result (GoesOn account) }
{
    draft_and(rt, account, rule, table, Draft::post, "posted")
}

// A draft, which is withdrawn.
pub(crate) fn draft_and_withdraw<R: CostRule>(
    rt: &impl Print,
    account: Account,
    rule: &R,
    table: &mut [i64],
) -> anyhow::Result<Account>
    ensures withdrawn { IfOk result (DraftEnded Withdrawn (R.CostRule.meaning rule.now) account table.old table.new) }
    ensures goes_on { IfOk result (GoesOn account) }
{
    draft_and(rt, account, rule, table, Draft::withdraw, "withdrawn")
}

// A draft, and what ends it, with the word for that.
fn draft_and<R: CostRule, E: FnOnce(Draft) -> Account>(
    rt: &impl Print,
    account: Account,
    rule: &R,
    table: &mut [i64],
    end: E,
    ended: &str,
) -> anyhow::Result<Account>
    requires { E.IsAlwaysCallable end }
    ensures { IfOk result (DraftEnded (E.post end) (R.CostRule.meaning rule.now) account table.old table.new) }
{
    let account = end(draft(rt, account, rule, table)?);
    println!(rt; "The draft is {ended}.")?;
    show_account(rt, &account)?;
    Ok(account)
}

fn draft<R: CostRule>(
    rt: &impl Print,
    account: Account,
    rule: &R,
    table: &mut [i64],
) -> anyhow::Result<Draft>
    ensures { IfOk result (λ d. Drafted today (R.CostRule.meaning rule.now) account table.old (Ok d) table.new) }
{
    let answer = account
        .draft(rule, table)
        .map_err(|refused| refused.refusal);
    let draft = unless_refused(
        rt,
        answer,
        "Bills would be drafted.",
        "the draft is refused",
    )?;
    show_draft(rt, &draft)?;
    Ok(draft)
}

// This and its lines are printed here, and not by `Display`: the draft is another crate's type, and the words are the story's.
fn show_draft(rt: &impl Print, draft: &Draft) -> io::Result<()> {
    let homes = draft.homes().homes();
    let cost = draft.cost();
    let lcm = draft.lcm();
    let rebate = draft.rebate();
    let purse = draft.purse();
    println!(rt;
        "Bills are drafted for {homes} homes, which cost {cost} together. Shares are fractions over {lcm}."
    )?;
    println!(rt; "  Each home gets {rebate}p back, and the purse would then hold {purse}.")?;
    // by number, as `line` takes a type
    for number in [1, 2, 3] {
        show_line(rt, draft, number)?;
    }
    Ok(())
}

fn show_line(rt: &impl Print, draft: &Draft, number: u8) -> io::Result<()> {
    match draft.line(number) {
        Ok(Some((share, bill))) => println!(rt;
            "  A home of type {number}: share {share}/{}, bill {bill}p.",
            draft.lcm()
        ),
        Ok(None) => println!(rt; "  Type {number} has no homes, and no line."),
        Err(refusal) => println!(rt;
            "  There is no type {number}. Refused, number {}.",
            refusal.number()
        ),
    }
}
