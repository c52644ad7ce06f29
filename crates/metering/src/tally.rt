// What is added up over the half-hours of a walk.
ghost use Rattle.std.specs.Prelude.{◌≡◌, ℕ, suc, ◌≤◌, List, [], ◌∷◌, ℤ, pos};
ghost use Rattle.metering.specs.Tallies.{Idle, Small};
ghost use Rattle.period.specs.Limits.{most_half_hours};
ghost use Rattle.metering.specs.declared.half_hour.HalfHour.{HalfHour as Half};

use crate::half_hour::HalfHour;

// How much a tariff and a price are for: so many watt-hours, or watts.
pub(crate) const UNIT: u64 = 1000;

// A tally is what a rule fixes beforehand; what it keeps of a walk is a value apart. The rule holds the tally itself: with a value of an associated type in it,
// it could not be copied.
pub(crate) trait Tally: Copy {
    // What is kept of the half-hours that were taken so far.
    type SoFar: Copy;

    // What all half-hours of a walk cost.
    ghost meaning: { Self → List Half → ℤ };

    // Half-hours in which nothing moves cost nothing. It stands above the functions, since what a rule owes can name nothing that stands below them.
    ghost free: { (tally : Self) (halves : List Half) → Idle halves → meaning tally halves ≡ pos 0 };

    // What these half-hours cost together with those that were taken.
    ghost over: { Self → Self.SoFar → List Half → ℤ };

    // There is room for so many half-hours more.
    ghost room: { Self.SoFar → ℕ → Type 0 };

    fn start(self) -> Self::SoFar
        ensures empty { (halves : List Half) → over self result halves ≡ meaning self halves }
        ensures room { (n : ℕ) → n ≤ most_half_hours → room result n };

    fn take(self, so_far: Self::SoFar, half: &HalfHour) -> Self::SoFar
        requires small { Small half.now }
        requires spare { (n : ℕ) × room so_far (suc n) }
        ensures taken { (halves : List Half) → over self result halves ≡ over self so_far (half.now ∷ halves) }
        ensures less { (n : ℕ) → room so_far (suc n) → room result n };

    fn cost(self, so_far: Self::SoFar) -> i64
        requires { room so_far 0 }
        ensures { result ≡ over self so_far [] };
}
