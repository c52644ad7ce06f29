// A rule that lists its costs, one for each composition inside a box.
ghost use Rattle.std.specs.Prelude.{◌≡◌, ℕ, ◌<◌, length, pos, slice_index_or};
ghost use Rattle.composition.specs.Counts.{size};
ghost use Rattle.cost_rules.specs.Limits.{Within};

use composition::Composition;

mod asking;
mod filling;

#[derive(Clone, Copy)]
pub struct ListedRule<'a> {
    // the largest composition that has a cost
    largest: Composition,
    // the costs of the compositions inside it by place, lent by the caller
    table: &'a [i32],
    ghost whole: { length table.now ≡ size largest.counts },
    ghost free: { slice_index_or table.now 0 (pos 0) ≡ pos 0 },
    ghost limited: { (p : ℕ) → p < length table.now → Within (slice_index_or table.now p (pos 0)) },
}
