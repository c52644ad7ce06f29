// Weights, and the multiples that they are parts of.
ghost use Rattle.std.specs.Prelude.{◌≡◌, ◌≤◌, [], ◌∷◌};
ghost use Rattle.composition.specs.Counts.{most, total};
ghost use Rattle.shapley.specs.CommonMultiple.{lcm_to};
ghost use Rattle.shapley.specs.Weights.{weight, HasWeight};

use composition::Composition;
use shapley::{lcm_to, weight};

// What shares among so many homes are fractions over.
pub(crate) fn multiple_for(counts: [u8; 4]) -> u64
    requires { total counts ≤ most }
    ensures { result ≡ lcm_to (total counts) }
{
    let homes = Composition::new(counts).unwrap();
    lcm_to(&homes)
}

// The weight of what one of so many homes adds to so many others.
pub(crate) fn weight_of(homes: u8, others: u8) -> u64
    requires { HasWeight homes others }
    ensures { result ≡ weight homes others }
{
    weight(homes, others).unwrap()
}

// The weights of what one of 4 homes adds to none, one, two and three others.
pub(crate) fn weights_among_4() -> [u64; 4]
    ensures { result ≡ 3 ∷ 1 ∷ 1 ∷ 3 ∷ [] }
{
    [
        weight_of(4, 0),
        weight_of(4, 1),
        weight_of(4, 2),
        weight_of(4, 3),
    ]
}
