// What an amount is divided by.
ghost use Rattle.std.specs.Prelude.{◌^◌, ◌<◌};

// Above 0, so that the quotient exists, and small enough to be divided by as an i64.
// Whoever writes a divisor shows both.
#[derive(Clone, Copy)]
pub struct Divisor {
    pub value: u64,
    ghost positive: { 0 < value },
    ghost signed: { value < 2 ^ 63 },
}
