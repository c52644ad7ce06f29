// Homes that were gone through: some are in a group, the others stay out of it.
ghost use Rattle.std.specs.Prelude.{◌≡◌, ◌+◌, ◌*◌, ◌<◌};
ghost use Rattle.composition.specs.Counts.{most, nobody, raised, total};
ghost use Rattle.composition.specs.Types.{position};
ghost use Rattle.shapley.specs.Combinations.{factorial};

use composition::{Composition, DemandType};

#[derive(Clone, Copy)]
pub(crate) struct Split {
    pub(crate) members: Composition,
    out: u8,
    // in how many orders the members can come, and then those who stay out
    pub(crate) orders: u128,
    ghost few: { total members.counts + out < most },
    ghost all_orders: { orders ≡ factorial (total members.counts) * factorial out },
}

impl Split {
    // Nobody was gone through.
    pub(crate) fn of_nobody() -> Split
        ensures members { result.members.counts ≡ nobody }
        ensures out { result.out ≡ 0 }
    {
        Split {
            members: Composition::empty(),
            out: 0,
            orders: 1,
        }
    }

    // One home more, which is in the group.
    pub(crate) fn with(self, next: DemandType) -> Split
        requires { total self.members.counts + self.out + 1 < most }
        ensures members { result.members.counts ≡ raised (position next) self.members.counts }
        ensures out { result.out ≡ self.out }
    {
        let members = self.members.with_one(next).unwrap();
        Split {
            members,
            out: self.out,
            orders: self.orders * u128::from(members.homes()),
        }
    }

    // One home more, which stays out.
    pub(crate) fn without(self) -> Split
        requires { total self.members.counts + self.out + 1 < most }
        ensures members { result.members ≡ self.members }
        ensures out { result.out ≡ self.out + 1 }
    {
        let out = self.out + 1;
        Split {
            members: self.members,
            out,
            orders: self.orders * u128::from(out),
        }
    }
}
