// Why there is no listing for an input, under which number, and how that is printed.
ghost use Rattle.std.specs.Prelude.{◌≡◌, Some};
ghost use Rattle.listing.specs.Refusals.{input_number};
ghost use Rattle.listing.specs.Texts.{refusal_text};
ghost use Rattle.listing.specs.declared.refusals.InputRefusal.TheVariants.{Period as NoPeriod, Draft as NoDraft};

use account::DraftRefusal;
use cost_rules::Fault;
use period::PeriodRefusal;
use refusal::Refusal;
use std::fmt;

#[derive(Clone, Copy, Debug, PartialEq, Eq)]
pub enum InputRefusal {
    // too long, no whole words, or the first four do not name at most 24 homes
    Unreadable,
    // the other words are no period
    Period(PeriodRefusal),
    // these homes have no draft over that period
    Draft(DraftRefusal),
}

impl Refusal for InputRefusal {
    ghost known_by = { input_number };

    // No cast: two of the grounds have numbers of their own.
    fn number(self) -> u8 {
        match self {
            InputRefusal::Unreadable => 61,
            InputRefusal::Period(refusal) => refusal.number(),
            InputRefusal::Draft(refusal) => refusal.number(),
        }
    }
}

// The number, and behind it what else is known: a place, or a place with the number and the rung of the fault there.
impl fmt::Display for InputRefusal {
    ghost output = { λ refusal. Some (refusal_text refusal) };

    fn fmt<W: fmt::Write>(&self, f: &mut fmt::Formatter<W>) -> fmt::Result {
        let number = self.number();
        match *self {
            InputRefusal::Period(PeriodRefusal { place, .. }) => {
                writeln!(f, "refused {number} {place}")
            }
            InputRefusal::Draft(
                DraftRefusal::Faulty {
                    place,
                    fault: Fault {
                        number: fault,
                        rung,
                    },
                },
            ) => writeln!(f, "refused {number} {place} {fault} {rung}"),
            _ => writeln!(f, "refused {number}"),
        }
    }
}

// Made of others by `?`: written out, and not derived, since a contract has to say which case each becomes.

impl From<PeriodRefusal> for InputRefusal {
    ghost from_gives = { λ of refusal. refusal ≡ NoPeriod of };

    fn from(refusal: PeriodRefusal) -> InputRefusal {
        InputRefusal::Period(refusal)
    }
}

impl From<DraftRefusal> for InputRefusal {
    ghost from_gives = { λ of refusal. refusal ≡ NoDraft of };

    fn from(refusal: DraftRefusal) -> InputRefusal {
        InputRefusal::Draft(refusal)
    }
}
