// Energy that goes into a battery or comes out of it in a half-hour: no more than 255 homes' batteries move.
ghost use Rattle.std.specs.Prelude.{◌≡◌, ◌*◌, ◌≤◌, min};
ghost use Rattle.battery.specs.Ratings.{most_moved};

#[derive(Clone, Copy)]
pub(super) struct Moved {
    pub energy: u32,
    ghost small: { energy ≤ 255 * most_moved },
}

impl Moved {
    // As much of it as a limit lets through.
    pub(super) fn at_most(self, limit: u32) -> Moved
        ensures { result.energy ≡ min limit self.energy }
    {
        Moved {
            energy: self.energy.min(limit),
        }
    }
}
