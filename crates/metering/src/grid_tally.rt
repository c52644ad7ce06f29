// The tally of the grid: imports at the import tariff less exports at the export tariff.
ghost use Rattle.metering.specs.Grid.{grid_cost};
ghost use Rattle.metering.specs.Owed.{idle_grid};
ghost use Rattle.metering.specs.Tallies.{Room, grid_over};

use crate::half_hour::HalfHour;
use crate::tally::{Tally, UNIT};
use rounding::{Divisor, round_down};

// It fixes nothing beforehand: the tariffs come with the half-hours.
#[derive(Clone, Copy)]
pub struct GridTally;

// In thousandths of a hundredth of a penny: tariffs are for 1,000 watt-hours.
#[derive(Clone, Copy)]
pub struct Traded {
    paid: u64,
    earned: u64,
}

impl Tally for GridTally {
    type SoFar = Traded;

    ghost meaning = { λ _. grid_cost };

    ghost over = { λ _ t. grid_over t.paid t.earned };

    ghost room = { λ t n. Room t.paid n × Room t.earned n };

    ghost free = { λ _. idle_grid };

    fn start(self) -> Traded {
        Traded { paid: 0, earned: 0 }
    }

    fn take(self, so_far: Traded, half: &HalfHour) -> Traded {
        Traded {
            paid: so_far.paid + u64::from(half.import) * u64::from(half.tariffs.import),
            earned: so_far.earned + u64::from(half.export) * u64::from(half.tariffs.export),
        }
    }

    // Divided once, at the end, so that no half-hour is rounded.
    fn cost(self, so_far: Traded) -> i64 {
        let owed = so_far.paid as i64 - so_far.earned as i64;
        round_down(owed, Divisor { value: UNIT })
    }
}
