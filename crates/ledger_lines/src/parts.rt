// What stands between marks.
ghost use Rattle.std.specs.Prelude.{◌≡◌, ◌==◌, IfOk};
ghost use Rattle.std.specs.List.{slice_split};
ghost use Rattle.ledger_lines.specs.Lines.{seen};

use std::alloc::{AllocError, Global};

// What stands between the bytes of a text that are a mark: one part more than there are marks, empty ones too.
pub fn parts_between<'t>(
    alloc: Global,
    text: &'t [u8],
    mark: u8,
) -> Result<Vec<&'t [u8]>, AllocError>
    ensures { IfOk result (λ parts. seen parts.items ≡ slice_split (λ b. b == mark) text.now) }
{
    text.split(|byte| *byte == mark).collect(alloc)
}
