// Why a call on an account is refused, and under which number.
ghost use Rattle.std.specs.Prelude.{◌≡◌, Some};
ghost use Rattle.account.specs.Refusals.{join_number, leave_number, draft_number};
ghost use Rattle.account.specs.Texts.{join_text, leave_text};
ghost use Rattle.account.specs.declared.refusals.JoinRefusal.TheVariants.{NoSuchType as NoTypeToJoin, Full};
ghost use Rattle.account.specs.declared.refusals.LeaveRefusal.TheVariants.{NoSuchType as NoTypeToLeave};

use composition::{NoSuchType, TooManyHomes};
use cost_rules::Fault;
use refusal::Refusal;
use std::fmt;

#[derive(Clone, Copy, Debug, PartialEq, Eq)]
pub enum JoinRefusal {
    NoSuchType = 1,
    // there are 24 homes already
    Full = 2,
}

#[derive(Clone, Copy, Debug, PartialEq, Eq)]
pub enum LeaveRefusal {
    NoSuchType = 1,
    // there is no home of that type
    NoneThere = 3,
}

#[derive(Clone, Copy, Debug, PartialEq, Eq)]
pub enum DraftRefusal {
    NoHomes,
    // the table has not one entry for each composition inside the account
    TableTooShort,
    // the last bill has the highest number there is
    NumbersUsedUp,
    // the composition at this place, the lowest such place, has this fault
    Faulty { place: usize, fault: Fault },
}

impl Refusal for JoinRefusal {
    ghost known_by = { join_number };

    fn number(self) -> u8 {
        self as u8
    }
}

impl Refusal for LeaveRefusal {
    ghost known_by = { leave_number };

    fn number(self) -> u8 {
        self as u8
    }
}

impl Refusal for DraftRefusal {
    ghost known_by = { draft_number };

    // No cast: a fault comes with its place.
    fn number(self) -> u8 {
        match self {
            DraftRefusal::NoHomes => 4,
            DraftRefusal::TableTooShort => 5,
            DraftRefusal::NumbersUsedUp => 6,
            DraftRefusal::Faulty { .. } => 7,
        }
    }
}

// In words, for whoever stands before the cabinet. Written out, and not derived, so that a contract has every byte.

impl fmt::Display for JoinRefusal {
    ghost output = { λ refusal. Some (join_text refusal) };

    fn fmt<W: fmt::Write>(&self, f: &mut fmt::Formatter<W>) -> fmt::Result {
        f.write_str(match *self {
            JoinRefusal::NoSuchType => "there is no such type",
            JoinRefusal::Full => "there are 24 homes already",
        })
    }
}

impl fmt::Display for LeaveRefusal {
    ghost output = { λ refusal. Some (leave_text refusal) };

    fn fmt<W: fmt::Write>(&self, f: &mut fmt::Formatter<W>) -> fmt::Result {
        f.write_str(match *self {
            LeaveRefusal::NoSuchType => "there is no such type",
            LeaveRefusal::NoneThere => "there is no home of that type",
        })
    }
}

// Refusals that are made of others by `?`: written out, and not derived, since a contract has to say which case each becomes.

impl From<NoSuchType> for JoinRefusal {
    ghost from_gives = { λ _ refusal. refusal ≡ NoTypeToJoin };

    fn from(_refusal: NoSuchType) -> JoinRefusal {
        JoinRefusal::NoSuchType
    }
}

impl From<TooManyHomes> for JoinRefusal {
    ghost from_gives = { λ _ refusal. refusal ≡ Full };

    fn from(_refusal: TooManyHomes) -> JoinRefusal {
        JoinRefusal::Full
    }
}

impl From<NoSuchType> for LeaveRefusal {
    ghost from_gives = { λ _ refusal. refusal ≡ NoTypeToLeave };

    fn from(_refusal: NoSuchType) -> LeaveRefusal {
        LeaveRefusal::NoSuchType
    }
}
