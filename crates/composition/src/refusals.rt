// Why a call of this crate is refused, and under which number.
ghost use Rattle.composition.specs.Refusals.{no_such_type, too_many_homes};

use refusal::Refusal;

// A number that names no demand type.
#[derive(Clone, Copy, Debug, PartialEq, Eq)]
pub struct NoSuchType;

// More than 24 homes in all.
#[derive(Clone, Copy, Debug, PartialEq, Eq)]
pub struct TooManyHomes;

impl Refusal for NoSuchType {
    ghost known_by = { λ _. no_such_type };

    fn number(self) -> u8 {
        1
    }
}

impl Refusal for TooManyHomes {
    ghost known_by = { λ _. too_many_homes };

    fn number(self) -> u8 {
        8
    }
}
