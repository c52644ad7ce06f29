// One of the four demand types that a supply contract gives a home, each with the number that people know it by.
ghost use Rattle.std.specs.Prelude.{◌≡◌};
ghost use Rattle.composition.specs.Types.{Numbered, number_of, position};

use crate::refusals::NoSuchType;

#[derive(Clone, Copy, Debug, PartialEq, Eq)]
pub enum DemandType {
    One = 1,
    Two = 2,
    Three = 3,
    Four = 4,
}

impl DemandType {
    // All types, in the order of their numbers. What there is of each type stands in arrays of four in this order, everywhere: the memory is fixed.
    pub const ALL: [DemandType; 4] = [
        DemandType::One,
        DemandType::Two,
        DemandType::Three,
        DemandType::Four,
    ];

    // Where the type's count stands among four.
    pub fn position(self) -> usize
        ensures { result ≡ position self }
    {
        self as usize - 1
    }
}

// The type with a number from 1 to 4.
impl TryFrom<u8> for DemandType {
    type Error = NoSuchType;

    ghost try_from_gives = { Numbered };

    fn try_from(number: u8) -> Result<DemandType, NoSuchType> {
        match number {
            1 => Ok(DemandType::One),
            2 => Ok(DemandType::Two),
            3 => Ok(DemandType::Three),
            4 => Ok(DemandType::Four),
            _ => Err(NoSuchType),
        }
    }
}

// The number of a type.
impl From<DemandType> for u8 {
    ghost from_gives = { λ of number. number ≡ number_of of };

    fn from(of: DemandType) -> u8 {
        of as u8
    }
}
