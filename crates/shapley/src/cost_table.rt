// What every group inside some homes costs, by place.
ghost use Rattle.std.specs.Prelude.{ℕ, ◌<◌, ◌≤◌, length, pos, slice_index_or};
ghost use Rattle.composition.specs.Counts.{size};
ghost use Rattle.cost_rules.specs.Limits.{Within};

use composition::Composition;

mod group;
mod home;
mod making;
mod share;

#[derive(Clone, Copy)]
pub struct CostTable<'a> {
    pub homes: Composition,
    pub costs: &'a [i64],
    ghost long: { size homes.counts ≤ length costs.now },
    ghost limits: { (p : ℕ) → p < size homes.counts → Within (slice_index_or costs.now p (pos 0)) },
}
