// A ledger line by line, inside a list of calls or outside of any.
ghost use Rattle.std.specs.Prelude.{IfOk};
ghost use Rattle.replaying.specs.Ledgers.{ComesOf, Outside};
ghost use Rattle.replaying.specs.Reading.{read_line};

use answers::Outcome;
use call_list::Session;
use ledger_lines::Line;
use std::alloc::{AllocError, Global};

// What comes of a line, and the list that it leaves the ledger in, if any.
pub(crate) fn take<'a>(
    alloc: Global,
    before: Option<Session<'a>>,
    line: Option<&'a Line<'a>>,
) -> Result<(Option<Session<'a>>, Outcome), AllocError>
    ensures { IfOk result (λ r. ComesOf before.entry (read_line line.entry) r.1 r.0) }
{
    match (before, line) {
        (Some(list), Some(line)) => list.take(line),
        (None, Some(line)) => Ok(outside(alloc, line)),
        (before, None) => Ok((before, Outcome::Unreadable)),
    }
}

// What comes of a line outside of any list: it begins one, or cannot be acted on.
fn outside<'a>(alloc: Global, line: &Line<'_>) -> (Option<Session<'a>>, Outcome)
    ensures { Outside line.now result.1 result.0 }
{
    match line {
        Line::List { last, .. } => (Some(Session::begin(alloc, *last)), Outcome::Taken),
        _ => (None, Outcome::Unreadable),
    }
}
