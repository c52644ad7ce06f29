// The arithmetic of one billing.
ghost use Rattle.std.specs.Prelude.{◌≡◌, pos, ◌+ℤ◌};
ghost use Rattle.billing.specs.Billing.{surplus, Settled, Small};

use crate::charges::Charges;
use rounding::{Divisor, round_down};

// The rebate of every home in pence, which is negative where the charges fall short of the cost, and the new purse.
#[derive(Clone, Copy)]
pub struct Settlement {
    pub rebate: i64,
    pub purse: u32,
}

impl Charges {
    // Each home gets the most whole pence that the pot pays for; what is left over stays in the purse.
    pub fn settle(&self) -> Settlement
        ensures settled { Settled self.now.homes.counts self.now.pence self.now.cost self.now.purse result.rebate result.purse }
        ensures small { Small result.rebate }
    {
        let penny_each = 100 * u64::from(self.homes.homes());
        let pot = self.pot();
        let rebate = round_down(pot, Divisor { value: penny_each });
        let purse = pot.rem_euclid(penny_each as i64) as u32;
        Settlement { rebate, purse }
    }

    // What there is to give back: the purse, and what the charges bring in above the cost.
    fn pot(&self) -> i64
        ensures value { result ≡ pos self.now.purse +ℤ surplus self.now.homes.counts self.now.pence self.now.cost }
        ensures small { Small result }
    {
        let income = 100 * self.homes.weighted(&self.pence);
        i64::from(self.purse) + (income - i64::from(self.cost))
    }
}
