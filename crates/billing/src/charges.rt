// What a billing starts from.
ghost use Rattle.std.specs.Prelude.{◌<◌};
ghost use Rattle.composition.specs.Counts.{total};

use composition::Composition;

// The homes, at least one in all; the whole pence charged to a home of each type before any rebate;
// the cost to cover; and the purse as the last billing left it.
#[derive(Clone, Copy)]
pub struct Charges {
    pub homes: Composition,
    pub pence: [i32; 4],
    pub cost: i32,
    pub purse: u32,
    ghost some: { 0 < total homes.counts },
}
