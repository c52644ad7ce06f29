// Three homes, and what they cost.

// Two homes of type 1 and one of type 2.
pub const THREE_HOMES: [u8; 4] = [2, 1, 0, 0];

// What groups of these homes cost, in hundredths of a penny: the count of type 1 runs fastest.
pub static COSTS: [i32; 6] = [0, 600, 1000, 900, 1100, 1600];

// The fees for a home of each type.
pub const FEES: [i32; 4] = [10, 20, 0, 0];
