// Why a definition is not added to a book.
ghost use Rattle.rule_book.specs.declared.refusals.AddRefusal.TheVariants.{NoMemory};
ghost use Rattle.std.specs.Prelude.{◌≡◌};

use std::alloc::AllocFailed;

#[derive(Clone, Copy, Debug, PartialEq, Eq)]
pub enum AddRefusal {
    // a sum names a rule that is not an earlier one
    LaterRule,
    // there are as many rules as a book can have
    Full,
    // there is no memory for one more
    NoMemory,
}

// Written out, and not derived, since a contract has to say which case this becomes.
impl<T: Drop> From<AllocFailed<T>> for AddRefusal {
    ghost from_gives = { λ _ refusal. refusal ≡ NoMemory };

    fn from(_failed: AllocFailed<T>) -> AddRefusal {
        AddRefusal::NoMemory
    }
}
