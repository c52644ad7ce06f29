// An input as it comes from a reader.
ghost use Rattle.std.specs.Prelude.{◌≡◌, ◌+◌, IfOk, IfSome, take};
ghost use Rattle.listing.specs.Inputs.{most_bytes};

use crate::words::MOST_BYTES;
use std::alloc::Global;
use std::io;
use std::io::Read;

// All that a reader gives, or one byte more than an input may have: by that it is known to be too long.
pub fn read_input<R: Read + Drop>(alloc: Global, reader: R) -> io::Result<Vec<u8>>
    ensures { IfOk result (λ input. IfSome (R.remaining reader) (λ bytes. input.items ≡ take (most_bytes + 1) bytes)) }
{
    let mut input = Vec::new(alloc);
    reader.take(MOST_BYTES as u64 + 1).read_to_end(&mut input)?;
    Ok(input)
}
