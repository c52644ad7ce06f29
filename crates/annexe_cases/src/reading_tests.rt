// How much of a stream is read, and what comes of one that fails.
use crate::inputs::*;
use listing::{MOST_BYTES, read_input};
use std::fs::File;
use std::io::Read;
use std::test::Fail;

#[test]
fn a_whole_input_is_read(rt: HostRuntime) -> Result<(), Fail> {
    let input = read_input(rt.alloc(), &WORKED[..])?;
    assert_eq!(rt; input.as_slice(), &WORKED[..]);
    Ok(())
}

// Of four bytes too many, the first is enough.
#[test]
fn one_byte_too_many_is_read_and_no_more(rt: HostRuntime) -> Result<(), Fail> {
    let stream = [0u8; MOST_BYTES + 4];
    let input = read_input(rt.alloc(), &stream[..])?;
    assert_eq!(rt; input.len(), MOST_BYTES + 1);
    Ok(())
}

// A byte, and then a folder, which opens and cannot be read.
#[test]
fn a_stream_that_fails_on_its_way_is_an_error(rt: HostRuntime) -> Result<(), Fail> {
    let stream = WORKED[..1].chain(File::open(&rt, ".")?);
    let read = read_input(rt.alloc(), stream);
    assert!(rt; read.is_err());
    Ok(())
}
