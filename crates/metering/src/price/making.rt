// Making a price.
ghost use Rattle.metering.specs.Filled.{PriceMade};

use super::Price;
use crate::refusals::PriceOutside;

// The most that a price may be.
const MOST: i64 = 1_000_000;

// The price with this value, or a refusal if it lies outside 0 to 1,000,000.
impl TryFrom<i64> for Price {
    type Error = PriceOutside;

    ghost try_from_gives = { PriceMade };

    fn try_from(value: i64) -> Result<Price, PriceOutside> {
        if !(0..=MOST).contains(&value) {
            return Err(PriceOutside);
        }
        Ok(Price {
            value: value as u32,
        })
    }
}
