// Replaying a ledger: every line with its answer.
ghost use Rattle.std.specs.Prelude.{◌≡◌, IfErr, IfOk};
ghost use Rattle.std.specs.IoError.{error_kind};
ghost use Rattle.replaying.specs.Ledgers.{AllTold, Replayed};
ghost use Rattle.replaying.specs.Reading.{Entered, texts_of};
ghost use Rattle.replaying.specs.Runs.{DraftsAreByTheirRules, ListsAreRuns};

use crate::entries::{Entry, entries};
use crate::ledger::take;
use answers::tell;
use std::alloc::Global;
use std::io;
use std::io::ErrorKind;

// What a ledger says of an input: each line as it came, and behind it what came of it.
// Every list is a run of its account, with drafts by the rules that its lines name, so that all is promised of it that is promised of accounts.
pub fn replay(alloc: Global, input: &[u8]) -> io::Result<Vec<u8>>
    ensures replayed { IfOk result (λ out. Replayed input.now out.items) }
    ensures runs { ListsAreRuns }
    ensures drafts { DraftsAreByTheirRules }
    ensures memory { IfErr result (λ e. error_kind e ≡ ErrorKind.OutOfMemory) }
{
    let entries = entries(alloc, input)?;
    replay_entries(alloc, entries.as_slice())
}

fn replay_entries<'a>(alloc: Global, entries: &'a [Entry<'a>]) -> io::Result<Vec<u8>>
    requires { Entered entries.now }
    ensures told { IfOk result (λ out. AllTold (texts_of entries.now) out.items) }
    ensures memory { IfErr result (λ e. error_kind e ≡ ErrorKind.OutOfMemory) }
{
    let mut out = Vec::new(alloc);
    let mut list = None;
    for (index, entry) in entries.iter().enumerate() {
        let (after, outcome) = take(alloc, list, entry.line.as_ref())?;
        list = after;
        out.extend_from_slice(entry.text)?;
        tell(&mut out, index + 1, &outcome)?;
    }
    Ok(out)
}
