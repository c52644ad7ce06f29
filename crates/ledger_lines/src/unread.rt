// Why a text gives no line.
ghost use Rattle.std.specs.Prelude.{◌≡◌};
ghost use Rattle.ledger_lines.specs.declared.unread.Unread.TheVariants.{NoMemory};

use std::alloc::{AllocError, AllocFailed};

#[derive(Clone, Copy, Debug, PartialEq, Eq)]
pub enum Unread {
    // it is not the text of any line
    NoLine,
    // there is no memory left for its words or numbers
    NoMemory,
}

impl From<AllocError> for Unread {
    ghost from_gives = { λ _ unread. unread ≡ NoMemory };

    fn from(_error: AllocError) -> Unread {
        Unread::NoMemory
    }
}

impl<T: Drop> From<AllocFailed<T>> for Unread {
    ghost from_gives = { λ _ unread. unread ≡ NoMemory };

    fn from(failed: AllocFailed<T>) -> Unread {
        Unread::from(AllocError::from(failed))
    }
}
