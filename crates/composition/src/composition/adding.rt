// Adding up amounts over the homes of a group.
ghost use Rattle.std.specs.Prelude.{◌≡◌, ◌*◌, ◌^◌, pos, ◌*ℤ◌};
ghost use Rattle.composition.specs.Amounts.{weighted, Between};

use super::Composition;

impl Composition {
    // All homes together, where a home of each type has its amount.
    pub fn weighted(&self, amounts: &[i32; 4]) -> i64
        ensures value { result ≡ weighted self.now.counts amounts.now }
        ensures size { Between (4 * (255 * 2 ^ 31)) result }
    {
        let mut sum = 0;
        for (count, amount) in self.counts.iter().zip(amounts) {
            sum += product(*count, *amount);
        }
        sum
    }
}

// The homes of one type together.
fn product(count: u8, amount: i32) -> i64
    ensures value { result ≡ pos count *ℤ amount }
    ensures size { Between (255 * 2 ^ 31) result }
{
    i64::from(count) * i64::from(amount)
}
