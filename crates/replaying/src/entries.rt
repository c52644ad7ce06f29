// A ledger's input, line by line: each as it came, and as it was read.
ghost use Rattle.std.specs.Prelude.{◌≡◌, IfOk};
ghost use Rattle.ledger_lines.specs.Lines.{seen};
ghost use Rattle.replaying.specs.Ledgers.{lines_in, but_empty_last, ReadAs};
ghost use Rattle.replaying.specs.Reading.{AllRead};

use ledger_lines::{Line, Unread, parts_between, read};
use std::alloc::{AllocError, Global};

#[derive(Drop)]
pub(crate) struct Entry<'t> {
    pub(crate) text: &'t [u8],
    pub(crate) line: Option<Line<'t>>,
}

// All lines of an input. Each ends in a line feed, and what stands behind the last one is a line too, unless it is empty.
pub(crate) fn entries<'t>(alloc: Global, input: &'t [u8]) -> Result<Vec<Entry<'t>>, AllocError>
    ensures { IfOk result (λ entries. AllRead (lines_in input.now) entries.items) }
{
    let parts = parts_between(alloc, input, b'\n')?;
    read_entries(alloc, but_empty_last(parts.as_slice()))
}

fn but_empty_last<'p, 't>(parts: &'p [&'t [u8]]) -> &'p [&'t [u8]]
    ensures { seen result.now ≡ but_empty_last (seen parts.now) }
{
    match parts {
        [lines @ .., last] if last.is_empty() => lines,
        lines => lines,
    }
}

fn read_entries<'t>(alloc: Global, lines: &[&'t [u8]]) -> Result<Vec<Entry<'t>>, AllocError>
    ensures { IfOk result (λ entries. AllRead (seen lines.now) entries.items) }
{
    let mut entries = Vec::new(alloc);
    for text in lines {
        entries.push(read_entry(alloc, text)?)?;
    }
    Ok(entries)
}

fn read_entry<'t>(alloc: Global, text: &'t [u8]) -> Result<Entry<'t>, AllocError>
    ensures { IfOk result (λ entry. (entry.text.now ≡ text.now) × ReadAs text.now entry.line) }
{
    let line = match read(alloc, text) {
        Ok(line) => Some(line),
        Err(Unread::NoLine) => None,
        Err(Unread::NoMemory) => return Err(AllocError),
    };
    Ok(Entry { text, line })
}
