// A period that the check accepted. It is lent its words, and changes none of them.
ghost use Rattle.std.specs.Prelude.{◌≡◌, true};
ghost use Rattle.period.specs.Reader.{accepts};

mod filling;
mod telling;

#[derive(Clone, Copy)]
pub struct Period<'a> {
    words: &'a [u32],
    ghost accepted: { accepts words.now ≡ true },
}
