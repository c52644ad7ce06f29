// Why a call is refused: the number that the reason is known by, and what is known beside it.
ghost use Rattle.std.specs.Prelude.{◌≡◌, Some};
ghost use Rattle.answers.specs.Answers.{fee_known, listed_known, period_known, draft_known};
ghost use Rattle.answers.specs.Answers as answered;
ghost use Rattle.answers.specs.Texts.{ground_text};
ghost use Rattle.answers.specs.declared.grounds.Known.TheVariants.{Nothing};

use crate::answer::Answer;
use account::{DraftRefusal, JoinRefusal, LeaveRefusal};
use composition::{NoSuchType, TooManyHomes};
use cost_rules::{Fault, FeeOutside, ListedRefusal};
use metering::PriceOutside;
use period::PeriodRefusal;
use refusal::Refusal;
use std::fmt;

#[derive(Clone, Copy)]
pub struct Ground {
    pub number: u8,
    pub known: Known,
}

#[derive(Clone, Copy)]
pub enum Known {
    Nothing,
    // the place of what offends, or the number of a type
    At(usize),
    // the place of a composition, and the fault there
    Faulty { place: usize, fault: Fault },
}

// A refusal with what is known beside its number.
pub trait Grounded: Refusal + Copy {
    ghost use Rattle.answers.specs.declared.grounds.Known.{Known};

    // What is known, for contracts.
    ghost beside: { Self → Known } = { λ _. Nothing };

    fn known(self) -> Known
        ensures { result ≡ beside self };
}

impl Grounded for JoinRefusal {
    fn known(self) -> Known {
        Known::Nothing
    }
}

impl Grounded for LeaveRefusal {
    fn known(self) -> Known {
        Known::Nothing
    }
}

impl Grounded for NoSuchType {
    fn known(self) -> Known {
        Known::Nothing
    }
}

impl Grounded for TooManyHomes {
    fn known(self) -> Known {
        Known::Nothing
    }
}

impl Grounded for PriceOutside {
    fn known(self) -> Known {
        Known::Nothing
    }
}

impl Grounded for FeeOutside {
    ghost beside = { fee_known };

    fn known(self) -> Known {
        Known::At(usize::from(u8::from(self.of)))
    }
}

impl Grounded for ListedRefusal {
    ghost beside = { listed_known };

    fn known(self) -> Known {
        match self {
            ListedRefusal::OutsideLimits(place) => Known::At(place),
            _ => Known::Nothing,
        }
    }
}

impl Grounded for PeriodRefusal {
    ghost beside = { period_known };

    fn known(self) -> Known {
        Known::At(self.place)
    }
}

impl Grounded for DraftRefusal {
    ghost beside = { draft_known };

    fn known(self) -> Known {
        match self {
            DraftRefusal::Faulty { place, fault } => Known::Faulty { place, fault },
            _ => Known::Nothing,
        }
    }
}

// A refusal, as it is answered.
pub fn refused<E: Grounded>(refusal: E) -> Answer
    ensures { result ≡ answered.refused E.known_by E.beside refusal }
{
    Answer::Refused(Ground {
        number: refusal.number(),
        known: refusal.known(),
    })
}

impl fmt::Display for Ground {
    ghost output = { λ ground. Some (ground_text ground) };

    fn fmt<W: fmt::Write>(&self, f: &mut fmt::Formatter<W>) -> fmt::Result {
        let number = self.number;
        match self.known {
            Known::Nothing => write!(f, "refused {number}"),
            Known::At(place) => write!(f, "refused {number} {place}"),
            Known::Faulty {
                place,
                fault: Fault {
                    number: fault,
                    rung,
                },
            } => write!(f, "refused {number} {place} {fault} {rung}"),
        }
    }
}
