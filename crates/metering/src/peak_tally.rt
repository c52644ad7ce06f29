// The tally of the highest half-hour, which is paid for at a price.
ghost use Rattle.metering.specs.Owed.{idle_peak_cost};
ghost use Rattle.metering.specs.Peak.{peak_cost};
ghost use Rattle.metering.specs.Tallies.{peak_over};

use crate::half_hour::HalfHour;
use crate::price::Price;
use crate::tally::{Tally, UNIT};

#[derive(Clone, Copy)]
pub struct PeakTally {
    pub(crate) price: Price,
}

impl Tally for PeakTally {
    // The most that was lacking in a half-hour, before the battery.
    type SoFar = u32;

    ghost meaning = { λ t. peak_cost t.price.value };

    ghost over = { λ t. peak_over t.price.value };

    ghost room = { λ _ _. Unit {0} };

    ghost free = { λ t. idle_peak_cost t.price.value };

    fn start(self) -> u32 {
        0
    }

    fn take(self, peak: u32, half: &HalfHour) -> u32 {
        peak.max(half.demand.saturating_sub(half.generation))
    }

    fn cost(self, peak: u32) -> i64 {
        (2 * u64::from(peak) * u64::from(self.price.value) / UNIT) as i64
    }
}
