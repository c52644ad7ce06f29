// One home in a table of costs, beside the others.
ghost use Rattle.std.specs.Prelude.{◌≡◌, ◌<◌};
ghost use Rattle.composition.specs.Counts.{count, lowered, at_place};
ghost use Rattle.composition.specs.Types.{position};
ghost use Rattle.shapley.specs.CostTables.{share_in};

use super::CostTable;
use super::group::Group;
use composition::{Composition, DemandType};

// A home of a type among those of a table, and all homes but this one.
#[derive(Clone, Copy)]
pub(super) struct Home<'a> {
    pub(super) table: CostTable<'a>,
    pub(super) of: DemandType,
    pub(super) others: Composition,
    ghost some: { 0 < count (position of) table.homes.counts },
    ghost fewer: { others.counts ≡ lowered (position of) table.homes.counts },
}

impl Home<'_> {
    // What the home adds to every group of the others, weighted, added up.
    pub(super) fn share(&self) -> i64
        ensures { result ≡ share_in self.now.table self.now.of }
    {
        let sum: i128 = (0..self.others.size())
            .map(|place| self.group(place).term())
            .sum();
        sum as i64
    }

    // The group of the others at a place.
    fn group(&self, place: usize) -> Group<'_>
        ensures home { result.home.now ≡ self.now }
        ensures members { result.members.counts ≡ at_place self.now.others.counts place }
    {
        Group {
            home: self,
            members: self.others.at(place),
        }
    }
}
