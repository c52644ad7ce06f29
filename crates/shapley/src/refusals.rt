// Why costs are no table of some homes, and under which number.
ghost use Rattle.shapley.specs.Refusals.{table_number};

use refusal::Refusal;

#[derive(Clone, Copy, Debug, PartialEq, Eq)]
pub enum TableRefusal {
    // there are fewer entries than groups inside the homes
    TooShort,
    // the first entry outside the limits stands at this place
    OutsideLimits(usize),
}

impl Refusal for TableRefusal {
    ghost known_by = { table_number };

    // No cast: a case that holds a place has no number to be cast to.
    fn number(self) -> u8 {
        match self {
            TableRefusal::TooShort => 5,
            TableRefusal::OutsideLimits(_) => 34,
        }
    }
}
