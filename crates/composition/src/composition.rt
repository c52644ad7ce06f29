// A group of homes: how many there are of each demand type, at most 24 in all.
ghost use Rattle.std.specs.Prelude.{◌≡◌, ◌≤◌, length};
ghost use Rattle.composition.specs.Counts.{most, total};

mod adding;
mod changing;
mod making;
mod placing;

// The most homes that a group can have.
const MOST: u8 = 24;

#[derive(Clone, Copy)]
pub struct Composition {
    counts: [u8; 4],
    ghost four: { length counts ≡ 4 },
    ghost few: { total counts ≤ most },
}
