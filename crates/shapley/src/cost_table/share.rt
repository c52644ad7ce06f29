// A home's share, read off a table of costs.
ghost use Rattle.std.specs.Prelude.{◌≡◌, ◌<◌, pos, slice_index_or, MatchOption};
ghost use Rattle.composition.specs.Counts.{count, size};
ghost use Rattle.composition.specs.Types.{position};
ghost use Rattle.shapley.specs.CostTables.{SharedBy};

use super::CostTable;
use super::home::Home;
use composition::DemandType;

impl<'a> CostTable<'a> {
    // The share of a home of a type, over the least common multiple of 1 to as many homes as there are.
    pub fn share(&self, of: DemandType) -> Option<i64>
        ensures { SharedBy self.now of result }
    {
        Some(self.home(of)?.share())
    }

    // A home of a type, if there is one.
    fn home(&self, of: DemandType) -> Option<Home<'a>>
        ensures { MatchOption result (count (position of) self.now.homes.counts ≡ 0) (λ h. (h.table ≡ self.now) × (h.of ≡ of)) }
    {
        let others = self.homes.without_one(of)?;
        Some(Home {
            table: *self,
            of,
            others,
        })
    }

    // The cost at a place.
    pub(super) fn cost(&self, place: usize) -> i64
        requires { place < size self.now.homes.counts }
        ensures { result ≡ slice_index_or self.now.costs.now place (pos 0) }
    {
        self.costs[place]
    }
}
