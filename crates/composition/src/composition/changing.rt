// One home more or fewer of a type.
ghost use Rattle.std.specs.Prelude.{◌≡◌};
ghost use Rattle.composition.specs.Counts.{count, raised};
ghost use Rattle.composition.specs.Made.{Made, Without};
ghost use Rattle.composition.specs.Types.{position};

use super::{Composition, MOST};
use crate::demand_type::DemandType;
use crate::refusals::TooManyHomes;

impl Composition {
    // How many homes of a type.
    pub fn count(&self, of: DemandType) -> u8
        ensures { result ≡ count (position of) self.now.counts }
    {
        self.counts[of.position()]
    }

    // This group and one home more of a type, or a refusal if that makes more than 24.
    pub fn with_one(&self, more: DemandType) -> Result<Composition, TooManyHomes>
        ensures { Made (raised (position more) self.now.counts) result }
    {
        if self.homes() == MOST {
            return Err(TooManyHomes);
        }
        let mut counts = self.counts;
        counts[more.position()] += 1;
        Ok(Composition { counts })
    }

    // This group less one home of a type, if it has one.
    pub fn without_one(&self, fewer: DemandType) -> Option<Composition>
        ensures { Without (position fewer) self.now.counts result }
    {
        let left = self.count(fewer).checked_sub(1)?;
        let mut counts = self.counts;
        counts[fewer.position()] = left;
        Some(Composition { counts })
    }
}
