// A rule that charges a fee for each home of a type.
ghost use Rattle.std.specs.Prelude.{◌≡◌, ℕ, ◌<◌, length, pos, slice_index_or};
ghost use Rattle.cost_rules.specs.Fees.{IsFee};

mod charging;
mod making;

#[derive(Clone, Copy)]
pub struct HeadRule {
    fees: [i32; 4],
    ghost four: { length fees ≡ 4 },
    ghost small: { (i : ℕ) → i < 4 → IsFee (slice_index_or fees i (pos 0)) },
}
