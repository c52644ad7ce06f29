// A ledger's input as it comes from a reader.
ghost use Rattle.std.specs.Prelude.{◌≡◌, IfOk, IfSome};

use std::alloc::Global;
use std::io;
use std::io::Read;

// All bytes of a reader.
pub fn read_all<R: Read + Drop>(alloc: Global, mut reader: R) -> io::Result<Vec<u8>>
    ensures { IfOk result (λ input. IfSome (R.remaining reader) (λ bytes. input.items ≡ bytes)) }
{
    let mut input = Vec::new(alloc);
    reader.read_to_end(&mut input)?;
    Ok(input)
}
