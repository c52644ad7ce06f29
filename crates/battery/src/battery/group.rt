// The battery of a group of homes, each of which has one like it, and the charge that it holds.
ghost use Rattle.std.specs.Prelude.{◌≡◌, ◌-◌, ◌*◌, ◌/◌, min};
ghost use Rattle.battery.specs.Steps.{most_in, most_out};

use super::Battery;
use super::moved::Moved;

#[derive(Clone, Copy)]
pub(super) struct Group {
    pub battery: Battery,
    pub homes: u8,
    pub charge: u32,
}

impl Group {
    // What of an amount left over goes into the battery.
    pub(super) fn put_in(&self, left_over: u32) -> Moved
        ensures { result.energy ≡ min left_over (most_in self.now.battery.rating self.now.homes self.now.charge) }
    {
        self.most().at_most(self.fits()).at_most(left_over)
    }

    // What of an amount that is lacking comes out of the battery.
    // Not one function with `put_in`: told which way the energy goes, it would have to pick a limit that each of the two simply names.
    pub(super) fn taken_out(&self, lacking: u32) -> Moved
        ensures { result.energy ≡ min lacking (most_out self.now.battery.rating self.now.homes self.now.charge) }
    {
        self.most().at_most(self.yields()).at_most(lacking)
    }

    // The most that it moves in a half-hour.
    fn most(&self) -> Moved
        ensures { result.energy ≡ self.now.homes * self.now.battery.rating.most }
    {
        Moved {
            energy: u32::from(self.homes) * self.battery.rating.most,
        }
    }

    // How much can go in until it is full.
    fn fits(&self) -> u32
        ensures { result ≡ 100 * (self.now.homes * self.now.battery.rating.highest - self.now.charge) / self.now.battery.rating.charging }
    {
        let highest = u32::from(self.homes) * self.battery.rating.highest;
        100 * highest.saturating_sub(self.charge) / self.battery.rating.charging
    }

    // How much can come out until it is at its lowest.
    fn yields(&self) -> u32
        ensures { result ≡ (self.now.charge - self.now.homes * self.now.battery.rating.lowest) * self.now.battery.rating.discharging / 100 }
    {
        let lowest = u32::from(self.homes) * self.battery.rating.lowest;
        let held = self.charge.saturating_sub(lowest);
        (u64::from(held) * u64::from(self.battery.rating.discharging) / 100) as u32
    }
}
