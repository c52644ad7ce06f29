// A group of homes is walked through a period, half-hour by half-hour.
ghost use Rattle.std.specs.Prelude.{◌≡◌, ◌*◌, ◌≤◌};
ghost use Rattle.metering.specs.Demands.{demand_of, group_of};
ghost use Rattle.metering.specs.Tallies.{DemandsSmall, ReadingSmall, Small};
ghost use Rattle.metering.specs.Walks.{half_hour, charge_after, half_hours_of};
ghost use Rattle.period.specs.Filled.{page};
ghost use Rattle.period.specs.Limits.{most_value};

use super::MeteredRule;
use crate::half_hour::HalfHour;
use crate::tally::Tally;
use battery::Battery;
use composition::Composition;
use period::Reading;

impl<T: Tally> MeteredRule<'_, T> {
    // What the tally makes of the half-hours of a group.
    pub(super) fn walk(&self, group: &Composition) -> i64
        ensures { result ≡ T.Tally.meaning self.now.tally (half_hours_of (page self.now.period) (group_of group.now.counts)) }
    {
        let battery = self.period.battery();
        // Never so, since a battery is rated. It is said once before the walk, so that no half-hour tests a divisor: a tally that leaves the battery out
        // then pays nothing for it.
        if battery.rating.charging == 0 || battery.rating.discharging == 0 {
            unreachable!();
        }
        let mut charge = u32::from(group.homes()) * battery.rating.lowest;
        let mut so_far = self.tally.start();
        for reading in self.period.readings() {
            let (half, after) = half_hour(&battery, group, charge, &reading);
            so_far = self.tally.take(so_far, &half);
            charge = after;
        }
        self.tally.cost(so_far)
    }
}

// One half-hour of a group that begins it with a charge, and the charge that it ends with. That a reading is small is asked for, here and of its parts
// below. Three types would say it no plainer, of a reading, of its four demands and of one amount: each would be made anew from plain numbers.
#[tactic(auto, using(crate::proofs::Demanding::demand_small))]
fn half_hour(
    battery: &Battery,
    group: &Composition,
    charge: u32,
    reading: &Reading,
) -> (HalfHour, u32)
    requires { ReadingSmall reading.now }
    ensures half { result.0 ≡ half_hour battery.now.rating (group_of group.now.counts) charge reading.now }
    ensures charge { result.1 ≡ charge_after battery.now.rating (group_of group.now.counts) charge reading.now }
    ensures small { Small result.0 }
{
    let homes = group.homes();
    let demand = demand(group, &reading.demands);
    let generation = of_homes(homes, reading.generation);
    let (after, import, export) = battery.step(homes, charge, demand, generation);
    let half = HalfHour {
        demand,
        generation,
        import,
        export,
        tariffs: reading.tariffs,
    };
    (half, after)
}

// What a group demands, where a home of each type has its demand.
fn demand(group: &Composition, each: &[u32; 4]) -> u32
    requires { DemandsSmall each.now }
    ensures { result ≡ demand_of group.now.counts each.now }
{
    group
        .counts()
        .iter()
        .zip(each)
        .map(|(&homes, &demand)| of_homes(homes, demand))
        .sum()
}

// What some homes have together, where each has so much.
fn of_homes(homes: u8, each: u32) -> u32
    requires { each ≤ most_value }
    ensures { result ≡ homes * each }
{
    u32::from(homes) * each
}
