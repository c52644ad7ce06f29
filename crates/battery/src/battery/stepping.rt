// One half-hour of a group's battery.
ghost use Rattle.std.specs.Prelude.{◌≡◌, ◌*◌, ◌/◌};
ghost use Rattle.battery.specs.Steps.{up, after, imported, exported};
ghost use Rattle.battery.specs.Energy.{Balanced};

use super::Battery;
use super::group::Group;
use super::moved::Moved;

impl Battery {
    // A group of homes, each with this battery, starts a half-hour with a charge: the charge that it ends with, its import and its export.
    #[tactic(auto, using(crate::proofs::Balances::answer_balanced))]
    pub fn step(&self, homes: u8, charge: u32, demand: u32, generation: u32) -> (u32, u32, u32)
        ensures charge { result.0 ≡ after self.now.rating homes charge demand generation }
        ensures import { result.1 ≡ imported self.now.rating homes charge demand generation }
        ensures export { result.2 ≡ exported self.now.rating homes charge demand generation }
        ensures law { Balanced self.now.rating homes charge demand generation result.0 result.1 result.2 }
    {
        let group = Group {
            battery: *self,
            homes,
            charge,
        };
        if generation > demand {
            let left_over = generation - demand;
            let put_in = group.put_in(left_over);
            (charge + self.stored(put_in), 0, left_over - put_in.energy)
        } else {
            let lacking = demand - generation;
            let taken_out = group.taken_out(lacking);
            (
                charge - self.drawn(taken_out),
                lacking - taken_out.energy,
                0,
            )
        }
    }

    // What of the energy put in is stored.
    fn stored(&self, put_in: Moved) -> u32
        ensures { result ≡ put_in.energy * self.now.rating.charging / 100 }
    {
        put_in.energy * self.rating.charging / 100
    }

    // What is drawn for the energy taken out.
    fn drawn(&self, taken_out: Moved) -> u32
        ensures { result ≡ up (100 * taken_out.energy) self.now.rating.discharging }
    {
        (100 * taken_out.energy).div_ceil(self.rating.discharging)
    }
}
