// Why words are no period, and under which number.
use refusal::Refusal;

// The part of a period that a word belongs to, by its number outside.
#[derive(Clone, Copy, Debug, PartialEq, Eq)]
pub enum Part {
    // how many half-hours there are
    Length = 21,
    // how many types there are readings for
    Types = 22,
    Battery = 23,
    // a half-hour's tariffs, demands and generation
    HalfHour = 24,
    // the closing word, or a word behind it
    Closing = 25,
}

// The first offending word: its part and its place, which is the number of words if one is missing.
#[derive(Clone, Copy, Debug, PartialEq, Eq)]
pub struct PeriodRefusal {
    pub part: Part,
    pub place: usize,
}

impl Refusal for PeriodRefusal {
    ghost use Rattle.period.specs.Refusals.{part_number};

    ghost known_by = { λ r. part_number r.part };

    fn number(self) -> u8 {
        self.part as u8
    }
}
