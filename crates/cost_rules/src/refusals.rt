// Why a rule is not made, and under which number.
ghost use Rattle.cost_rules.specs.Refusals.{listed_number, fee_outside};
ghost use Rattle.cost_rules.specs.declared.refusals.ListedRefusal.TheVariants.{BoxTooLarge};
ghost use Rattle.std.specs.Prelude.{◌≡◌};

use composition::{DemandType, TooManyHomes};
use refusal::Refusal;

// Why a box and a table make no rule.
#[derive(Clone, Copy, Debug, PartialEq, Eq)]
pub enum ListedRefusal {
    // the box holds more than 24 homes
    BoxTooLarge,
    // the table has not one entry for each composition inside the box
    WrongLength,
    // nobody would not cost nothing
    FirstNotZero,
    // the first entry outside the limits stands at this place
    OutsideLimits(usize),
}

impl Refusal for ListedRefusal {
    ghost known_by = { listed_number };

    // No cast: one ground comes with its place.
    fn number(self) -> u8 {
        match self {
            ListedRefusal::BoxTooLarge => 31,
            ListedRefusal::WrongLength => 32,
            ListedRefusal::FirstNotZero => 33,
            ListedRefusal::OutsideLimits(_) => 34,
        }
    }
}

// A box is a composition, which has at most 24 homes. Written out, and not derived, since a contract has to say which case this becomes.
impl From<TooManyHomes> for ListedRefusal {
    ghost from_gives = { λ _ refusal. refusal ≡ BoxTooLarge };

    fn from(_refusal: TooManyHomes) -> ListedRefusal {
        ListedRefusal::BoxTooLarge
    }
}

// The first type whose fee lies outside the limits.
#[derive(Clone, Copy, Debug, PartialEq, Eq)]
pub struct FeeOutside {
    pub of: DemandType,
}

impl Refusal for FeeOutside {
    ghost known_by = { λ _. fee_outside };

    fn number(self) -> u8 {
        41
    }
}
