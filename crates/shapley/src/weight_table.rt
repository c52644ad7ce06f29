// The weights of what a home adds to a group of others, in a table, and what is read off it.
ghost use Rattle.std.specs.Prelude.{◌≡◌, ◌<◌, ◌≤◌};
ghost use Rattle.composition.specs.Counts.{most, total};
ghost use Rattle.shapley.specs.Combinations.{choose};
ghost use Rattle.shapley.specs.CommonMultiple.{lcm_to, LeastCommonMultiple};
ghost use Rattle.shapley.specs.Tables.{LookedUp};
ghost use Rattle.shapley.specs.Weights.{weight, HasWeight, WeightsAreExact};

use composition::Composition;

// Row after row: for n homes, one to 24, the weights of a group of 0 to n - 1 others.
const WEIGHTS: [u64; 300] = [
    1, // 1 home
    1, // 2 homes
    1, 2, // 3 homes
    1, 2, 3, // 4 homes
    1, 1, 3, 12, // 5 homes
    3, 2, 3, 12, 10, // 6 homes
    2, 1, 1, 2, 10, 60, // 7 homes
    10, 4, 3, 4, 10, 60, 105, // 8 homes
    15, 5, 3, 3, 5, 15, 105, 280, // 9 homes
    35, 10, 5, 4, 5, 10, 35, 280, 252, // 10 homes
    28, 7, 3, 2, 2, 3, 7, 28, 252, 2520, // 11 homes
    252, 56, 21, 12, 10, 12, 21, 56, 252, 2520, 2310, // 12 homes
    210, 42, 14, 7, 5, 5, 7, 14, 42, 210, 2310, 27720, // 13 homes
    2310, 420, 126, 56, 35, 30, 35, 56, 126, 420, 2310, 27720, 25740, // 14 homes
    1980, 330, 90, 36, 20, 15, 15, 20, 36, 90, 330, 1980, 25740, 24024, // 15 homes
    1716, 264, 66, 24, 12, 8, 7, 8, 12, 24, 66, 264, 1716, 24024, 45045, // 16 homes
    3003, 429, 99, 33, 15, 9, 7, 7, 9, 15, 33, 99, 429, 3003, 45045, 720720, // 17 homes
    45045, 6006, 1287, 396, 165, 90, 63, 56, 63, 90, 165, 396, 1287, 6006, 45045, 720720, 680680, // 18 homes
    40040, 5005, 1001, 286, 110, 55, 35, 28, 28, 35, 55, 110, 286, 1001, 5005, 40040, 680680,
    12252240, // 19 homes
    680680, 80080, 15015, 4004, 1430, 660, 385, 280, 252, 280, 385, 660, 1430, 4004, 15015, 80080,
    680680, 12252240, 11639628, // 20 homes
    612612, 68068, 12012, 3003, 1001, 429, 231, 154, 126, 126, 154, 231, 429, 1001, 3003, 12012,
    68068, 612612, 11639628, 11085360, // 21 homes
    554268, 58344, 9724, 2288, 715, 286, 143, 88, 66, 60, 66, 88, 143, 286, 715, 2288, 9724, 58344,
    554268, 11085360, 10581480, // 22 homes
    503880, 50388, 7956, 1768, 520, 195, 91, 52, 36, 30, 30, 36, 52, 91, 195, 520, 1768, 7956,
    50388, 503880, 10581480, 232792560, // 23 homes
    10581480, 1007760, 151164, 31824, 8840, 3120, 1365, 728, 468, 360, 330, 360, 468, 728, 1365,
    3120, 8840, 31824, 151164, 1007760, 10581480, 232792560, 223092870, // 24 homes
    9699690, 881790, 125970, 25194, 6630, 2210, 910, 455, 273, 195, 165, 165, 195, 273, 455, 910,
    2210, 6630, 25194, 125970, 881790, 9699690, 223092870,
];

// The weight among so many homes of what one adds to a group of so many others, if there is such a group.
pub fn weight(homes: u8, others: u8) -> Option<u64>
    ensures entry { LookedUp homes others result }
    ensures rule { WeightsAreExact }
{
    (homes <= 24 && others < homes).then(|| entry(homes, others))
}

// A weight that the table has: row n starts behind the 1 + 2 + .. + (n - 1) entries of the rows before.
pub(crate) fn entry(homes: u8, others: u8) -> u64
    requires { HasWeight homes others }
    ensures { result ≡ weight homes others }
{
    let homes = usize::from(homes);
    WEIGHTS[homes * (homes - 1) / 2 + usize::from(others)]
}

// In how many ways some can be picked. Each weight of a row times its ways is the row's first, so that no second table is needed.
pub(crate) fn choose(of: u8, picked: u8) -> u64
    requires few { of < most }
    requires within { picked ≤ of }
    ensures { result ≡ choose of picked }
{
    entry(of + 1, 0) / entry(of + 1, picked)
}

// The least common multiple of 1 to as many homes as there are: what all their shares are fractions over.
pub fn lcm_to(homes: &Composition) -> u64
    ensures value { result ≡ lcm_to (total homes.now.counts) }
    ensures least { LeastCommonMultiple (total homes.now.counts) result }
{
    match homes.homes() {
        0 => 1,
        homes => u64::from(homes) * entry(homes, 0),
    }
}
