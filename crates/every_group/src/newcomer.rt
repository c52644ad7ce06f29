// A home that comes right behind a group of the others, one group after another.
ghost use Rattle.std.specs.Prelude.{◌≡◌, ◌+◌, ◌<◌, MatchOption};
ghost use Rattle.composition.specs.Counts.{count, lowered, total, Inside};
ghost use Rattle.composition.specs.Types.{position};
ghost use Rattle.every_group.specs.Going.{Behind, FromAll, GoneThrough, Parted, Taken};
ghost use Rattle.shapley.specs.CostTables.{added_in, cost_in};

use crate::by_groups::ByGroups;
use crate::split::Split;
use crate::sums::Sums;
use composition::{Composition, DemandType};
use shapley::{CostTable, lcm_to};

#[derive(Clone, Copy)]
pub(crate) struct Newcomer<'a> {
    table: CostTable<'a>,
    of: DemandType,
    others: Composition,
    ghost some: { 0 < count (position of) table.homes.counts },
    ghost fewer: { others.counts ≡ lowered (position of) table.homes.counts },
}

impl<'a> Newcomer<'a> {
    // A home of a type, if there is one.
    pub(crate) fn of(table: &CostTable<'a>, of: DemandType) -> Option<Newcomer<'a>>
        ensures { MatchOption result (count (position of) table.now.homes.counts ≡ 0) (λ h. (h.table ≡ table.now) × (h.of ≡ of)) }
    {
        let others = table.homes.without_one(of)?;
        Some(Newcomer {
            table: *table,
            of,
            others,
        })
    }

    // What the home adds in all N! orders, over L. N! is a multiple of L, and the sum one of N! / L, so that nothing is left over in either division; the second is of an amount
    // that may be negative.
    pub(crate) fn share(&self) -> ByGroups
        ensures { FromAll self.now.table self.now.of result }
    {
        let sums = self.behind_all(self.others, Split::of_nobody());
        let orders_a_part = sums.orders / u128::from(lcm_to(&self.table.homes));
        ByGroups {
            share: sums.added.div_euclid(orders_a_part as i128) as i64,
            groups: sums.groups,
        }
    }

    // Behind every group that the members and some of those left make up: the next of them is out of it, or in it.
    fn behind_all(&self, left: Composition, split: Split) -> Sums
        requires { Parted self.now.others.counts left.counts split.members.counts split.out }
        ensures { GoneThrough self.now.table self.now.of self.now.others.counts left.counts split.members.counts result }
    {
        let Some((next, rest)) = one_of(&left) else {
            return self.behind(split);
        };
        let without = self.behind_all(rest, split.without());
        let with = self.behind_all(rest, split.with(next));
        without.plus(with)
    }

    // Behind one group.
    fn behind(&self, split: Split) -> Sums
        requires inside { Inside split.members.counts self.now.others.counts }
        requires all { total split.members.counts + split.out ≡ total self.now.others.counts }
        ensures { Behind self.now.table self.now.of self.now.others.counts split.members.counts result }
    {
        let added = self.added(&split.members);
        Sums {
            groups: 1,
            orders: split.orders,
            added: split.orders as i128 * i128::from(added),
        }
    }

    // What the home adds to a group's cost.
    fn added(&self, group: &Composition) -> i64
        requires { Inside group.now.counts self.now.others.counts }
        ensures { result ≡ added_in self.now.table self.now.of group.now.counts }
    {
        let joined = group.with_one(self.of).unwrap();
        self.cost(&joined) - self.cost(group)
    }

    fn cost(&self, group: &Composition) -> i64
        requires { Inside group.now.counts self.now.table.homes.counts }
        ensures { result ≡ cost_in self.now.table group.now.counts }
    {
        self.table.costs[self.table.homes.place(group)]
    }
}

// A home of a group, and the rest of the group; none if it has no homes.
fn one_of(group: &Composition) -> Option<(DemandType, Composition)>
    ensures { Taken group.now.counts result }
{
    for of in DemandType::ALL {
        if let Some(rest) = group.without_one(of) {
            return Some((of, rest));
        }
    }
    None
}
