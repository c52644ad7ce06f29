// Making a composition, and what it tells of itself.
ghost use Rattle.std.specs.Prelude.{◌≡◌};
ghost use Rattle.composition.specs.Counts.{total, nobody};
ghost use Rattle.composition.specs.Made.{Made};

use super::{Composition, MOST};
use crate::refusals::TooManyHomes;

impl Composition {
    // A group with these counts, or a refusal if there are more than 24 homes in all.
    pub fn new(counts: [u8; 4]) -> Result<Composition, TooManyHomes>
        ensures { Made counts result }
    {
        if homes_in(&counts) > u16::from(MOST) {
            return Err(TooManyHomes);
        }
        Ok(Composition { counts })
    }

    // The group of no homes.
    pub fn empty() -> Composition
        ensures { result.counts ≡ nobody }
    {
        Composition { counts: [0; 4] }
    }

    // How many homes of each type.
    pub fn counts(&self) -> [u8; 4]
        ensures { result ≡ self.now.counts }
    {
        self.counts
    }

    // How many homes in all.
    pub fn homes(&self) -> u8
        ensures { result ≡ total self.now.counts }
    {
        homes_in(&self.counts) as u8
    }
}

fn homes_in(counts: &[u8; 4]) -> u16
    ensures { result ≡ total counts.now }
{
    counts.iter().map(|count| u16::from(*count)).sum()
}
