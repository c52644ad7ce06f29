// The words of a period that are still to be read.
ghost use Rattle.std.specs.Prelude.{◌+◌, ◌^◌, ◌<◌, length};

mod checking;
mod reading_words;

pub(crate) use checking::check;

#[derive(Drop)]
pub(crate) struct Cursor<'a> {
    rest: &'a [u32],
    // how many words have been read, which is the place of the next
    place: usize,
    ghost counted: { place + length rest.now < 2 ^ 64 },
}
