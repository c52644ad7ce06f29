// What a home adds to a group of the others.
ghost use Rattle.std.specs.Prelude.{◌≡◌, ◌*◌};
ghost use Rattle.composition.specs.Counts.{total, Inside};
ghost use Rattle.shapley.specs.Combinations.{ways};
ghost use Rattle.shapley.specs.CostTables.{added_in, term_in};
ghost use Rattle.shapley.specs.Groups.{Inside_prop};
ghost use Rattle.shapley.specs.Weights.{weight};

use super::home::Home;
use crate::weight_table::{choose, entry};
use composition::Composition;

// A home, and a group of the others.
#[derive(Clone, Copy)]
pub(super) struct Group<'a> {
    pub(super) home: &'a Home<'a>,
    pub(super) members: Composition,
    ghost inside: { Inside members.counts home.now.others.counts } by { Inside_prop members.counts home.now.others.counts },
}

impl Group<'_> {
    // What the group brings to the home's share: what the home adds to it, as often as it counts.
    pub(super) fn term(&self) -> i128
        ensures { result ≡ term_in self.now.home.now.table self.now.home.now.of self.now.members.counts }
    {
        i128::from(self.factor()) * i128::from(self.added())
    }

    // How much the group counts: the weight of one with so many homes, for each way to pick it.
    fn factor(&self) -> u64
        ensures { result ≡ weight (total self.now.home.now.table.homes.counts) (total self.now.members.counts) * ways self.now.home.now.others.counts self.now.members.counts }
    {
        entry(self.home.table.homes.homes(), self.members.homes()) * self.ways()
    }

    // In how many ways the group can be picked out of the others: one type after the other, each picked for itself.
    fn ways(&self) -> u64
        ensures { result ≡ ways self.now.home.now.others.counts self.now.members.counts }
    {
        let others = self.home.others.counts();
        let members = self.members.counts();
        others
            .iter()
            .zip(&members)
            .map(|(&of, &picked)| choose(of, picked))
            .product()
    }

    // What the home adds to the group's cost.
    fn added(&self) -> i64
        ensures { result ≡ added_in self.now.home.now.table self.now.home.now.of self.now.members.counts }
    {
        let table = &self.home.table;
        let place = table.homes.place(&self.members);
        let further = place + table.homes.step(self.home.of);
        table.cost(further) - table.cost(place)
    }
}
