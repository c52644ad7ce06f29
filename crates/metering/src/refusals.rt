// Why a rule is not filled, and under which number.
ghost use Rattle.metering.specs.Refusals.{price_outside};

use refusal::Refusal;

// The price lies outside 0 to 1,000,000.
#[derive(Clone, Copy, Debug, PartialEq, Eq)]
pub struct PriceOutside;

impl Refusal for PriceOutside {
    ghost known_by = { λ _. price_outside };

    fn number(self) -> u8 {
        42
    }
}
