// An account as a line finds it: open, or held by a draft that stands.
ghost use Rattle.account.specs.Calls.{Posted, Withdrawn};
ghost use Rattle.call_list.specs.Accounts.{OnOpen, OnDraft, AfterCall, JoinTaken, LeaveTaken, DraftTaken, DraftShown, EndTaken, LineOf, answered};
ghost use Rattle.std.specs.Prelude.{◌≡◌, Ok, Err};

use account::{Account, Draft, Refused};
use answers::{Answer, Outcome, Shown, done, drafted, line, refused};
use cost_rules::CostRule;

#[derive(Drop)]
pub(crate) enum Standing {
    Open(Account),
    Drafted(Draft),
}

impl Standing {
    // A home would join. Nobody joins, leaves or drafts while a draft stands.
    pub(crate) fn join(self, number: u8) -> (Standing, Outcome)
        ensures { OnOpen (JoinTaken number) self result.1 result.0 }
    {
        let Standing::Open(mut account) = self else {
            return (self, Outcome::Unreadable);
        };
        let answer = done(account.join(number));
        after_call(account, answer)
    }

    // A home would leave.
    pub(crate) fn leave(self, number: u8) -> (Standing, Outcome)
        ensures { OnOpen (LeaveTaken number) self result.1 result.0 }
    {
        let Standing::Open(mut account) = self else {
            return (self, Outcome::Unreadable);
        };
        let answer = done(account.leave(number));
        after_call(account, answer)
    }

    // Bills would be drafted. The table is told as the draft leaves it.
    pub(crate) fn draft<R: CostRule>(self, rule: &R, mut table: Vec<i64>) -> (Standing, Outcome)
        ensures { OnOpen (DraftTaken (R.CostRule.meaning rule.now) table.items) self result.1 result.0 }
    {
        let Standing::Open(account) = self else {
            return (self, Outcome::Unreadable);
        };
        match account.draft(rule, table.as_mut_slice()) {
            Ok(draft) => accepted(draft, table),
            Err(draft) => turned_down(draft, table),
        }
    }

    // The line of a type in the draft that stands.
    pub(crate) fn line(&self, number: u8) -> Outcome
        ensures { LineOf number self.now result }
    {
        match self {
            Standing::Open(_) => Outcome::Unreadable,
            Standing::Drafted(draft) => answered(line(draft.line(number))),
        }
    }

    pub(crate) fn post(self) -> (Standing, Outcome)
        ensures { OnDraft (EndTaken Posted) self result.1 result.0 }
    {
        self.end(Draft::post)
    }

    pub(crate) fn withdraw(self) -> (Standing, Outcome)
        ensures { OnDraft (EndTaken Withdrawn) self result.1 result.0 }
    {
        self.end(Draft::withdraw)
    }

    // The draft that stands is ended, and gives its account back.
    fn end<E: FnOnce(Draft) -> Account>(self, end: E) -> (Standing, Outcome)
        requires { E.IsAlwaysCallable end }
        ensures { OnDraft (EndTaken (E.post end)) self result.1 result.0 }
    {
        let Standing::Drafted(draft) = self else {
            return (self, Outcome::Unreadable);
        };
        after_call(end(draft), Answer::Done)
    }
}

// A draft that is accepted stands.
fn accepted(draft: Draft, table: Vec<i64>) -> (Standing, Outcome)
    ensures { DraftShown (Ok draft) table.items result.1 result.0 }
{
    let outcome = Outcome::Answered {
        answer: drafted(&draft),
        table: Some(table),
        account: None,
    };
    (Standing::Drafted(draft), outcome)
}

// A draft that is refused gives its account back, which is shown behind the table.
fn turned_down(draft: Refused, table: Vec<i64>) -> (Standing, Outcome)
    ensures { DraftShown (Err draft) table.items result.1 result.0 }
{
    let Refused { account, refusal } = draft;
    let outcome = Outcome::Answered {
        answer: refused(refusal),
        table: Some(table),
        account: Some(Shown::of(&account)),
    };
    (Standing::Open(account), outcome)
}

// An account that is open after a call, which is shown behind the answer.
fn after_call(account: Account, answer: Answer) -> (Standing, Outcome)
    ensures { AfterCall account answer result.1 result.0 }
{
    let shown = Shown::of(&account);
    let outcome = Outcome::Answered {
        answer,
        table: None,
        account: Some(shown),
    };
    (Standing::Open(account), outcome)
}

// An answer, with nothing behind it.
pub(crate) fn answered(answer: Answer) -> Outcome
    ensures { result ≡ answered answer }
{
    Outcome::Answered {
        answer,
        table: None,
        account: None,
    }
}
