// One list of calls: the account, what is noted, and what is held.
ghost use Rattle.std.specs.Prelude.{◌≡◌, ◌≢◌, IfOk, OnErr};
ghost use Rattle.call_list.specs.Accounts.{OnOpen, DraftTaken};
ghost use Rattle.call_list.specs.Holding.{Asked};
ghost use Rattle.call_list.specs.Lists.{Answers, Begun, GoesOnWith, IfRule, Inside, TakesMemory};
ghost use Rattle.ledger_lines.specs.declared.line.Line.TheVariants.{End};
ghost use Rattle.answers.specs.declared.outcome.Outcome.TheVariants.{Unreadable};

use crate::asking::{ask, compose};
use crate::held::Held;
use crate::notes::Notes;
use crate::standing::{Standing, answered};
use account::Account;
use answers::Outcome;
use ledger_lines::Line;
use std::alloc::{AllocError, Global};

#[derive(Drop)]
pub struct Session<'a> {
    standing: Standing,
    notes: Notes<'a>,
    held: Held<'a>,
}

impl<'a> Session<'a> {
    // A list begins with a new account, and with nothing noted.
    pub fn begin(alloc: Global, last: u16) -> Session<'a>
        ensures { Begun last result }
    {
        Session {
            standing: Standing::Open(Account::open_after(last)),
            notes: Notes::new(alloc),
            held: Held::built_in(),
        }
    }

    // What comes of a line inside the list, and the list as it goes on, unless that line ends it.
    pub fn take(self, line: &'a Line<'a>) -> Result<(Option<Session<'a>>, Outcome), AllocError>
        ensures goes_on { IfOk result (λ r. GoesOnWith line.now self.entry r.1 r.0) }
        ensures memory { OnErr result (TakesMemory line.now) }
    {
        if let Line::End = line {
            return Ok((None, Outcome::Taken));
        }
        let Session {
            standing,
            mut notes,
            mut held,
        } = self;
        let (standing, outcome) = step(standing, &mut notes, &mut held, line)?;
        let list = Session {
            standing,
            notes,
            held,
        };
        Ok((Some(list), outcome))
    }
}

// A line that does not end the list.
fn step<'a>(
    standing: Standing,
    notes: &mut Notes<'a>,
    held: &mut Held<'a>,
    line: &'a Line<'a>,
) -> Result<(Standing, Outcome), AllocError>
    requires { line.now ≢ End }
    ensures memory { OnErr result (TakesMemory line.now) }
    ensures inside { IfOk result (λ r. Inside line.now (record { standing = standing; notes = notes.old; held = held.old }) r.1 (record { standing = r.0; notes = notes.new; held = held.new })) }
{
    match line {
        Line::Join(number) => Ok(standing.join(*number)),
        Line::Leave(number) => Ok(standing.leave(*number)),
        Line::Draft { rule, table } => draft(standing, notes, *rule, table),
        Line::Line(number) => {
            let outcome = standing.line(*number);
            Ok((standing, outcome))
        }
        Line::Post => Ok(standing.post()),
        Line::Withdraw => Ok(standing.withdraw()),
        Line::Period { number, words } => {
            let outcome = notes.note_period(*number, words.as_slice())?;
            Ok((standing, outcome))
        }
        Line::Rule { number, rule } => {
            let outcome = notes.note_rule(*number, rule)?;
            Ok((standing, outcome))
        }
        Line::Cost { rule, of } => Ok((standing, cost(notes, *rule, *of))),
        Line::Compose(of) => Ok((standing, answered(compose(*of)))),
        Line::Make(making) => Ok((standing, answered(held.make(making)))),
        Line::Ask { kind, of } => Ok((standing, answered(held.ask(*kind, *of)))),
        Line::List { .. } | Line::End => Ok((standing, Outcome::Unreadable)),
    }
}

// A draft by a rule of the book. It fills a copy of the table in the line.
fn draft(
    standing: Standing,
    notes: &Notes<'_>,
    rule: usize,
    table: &Vec<i64>,
) -> Result<(Standing, Outcome), AllocError>
    ensures { IfOk result (λ r. IfRule notes.now.book rule (λ f. OnOpen (DraftTaken f table.now.items) standing r.1 r.0) ((r.1 ≡ Unreadable) × (r.0 ≡ standing))) }
{
    let Some(rule) = notes.book.rule(rule) else {
        return Ok((standing, Outcome::Unreadable));
    };
    Ok(standing.draft(&rule, table.clone()?))
}

// What a group costs by a rule of the book.
fn cost(notes: &Notes<'_>, rule: usize, of: [u8; 4]) -> Outcome
    ensures { IfRule notes.now.book rule (λ f. Answers (Asked f of) result) (result ≡ Unreadable) }
{
    match notes.book.rule(rule) {
        Some(rule) => answered(ask(&rule, of)),
        None => Outcome::Unreadable,
    }
}
