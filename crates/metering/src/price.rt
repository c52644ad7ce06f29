// The price of a peak, in hundredths of a penny for 1,000 watts.
ghost use Rattle.std.specs.Prelude.{◌≤◌};
ghost use Rattle.metering.specs.Limits.{most_price};

mod making;

#[derive(Clone, Copy)]
pub struct Price {
    pub(crate) value: u32,
    ghost small: { value ≤ most_price },
}
