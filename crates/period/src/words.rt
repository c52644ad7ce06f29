// The parts of a word.
ghost use Rattle.std.specs.Prelude.{◌≡◌, ◌↔◌, IsTrue};
ghost use Rattle.period.specs.Labels.{kind_number};
ghost use Rattle.period.specs.Words.{kind_of, value_of, field_of, field_value_of};

use crate::kinds::Kind;

// The top 4 bits, the kind.
pub fn kind(word: u32) -> u32
    ensures { result ≡ kind_of word }
{
    word >> 28
}

// Whether a word is of this kind.
pub(crate) fn is_of(word: u32, wanted: Kind) -> bool
    ensures { IsTrue result ↔ (kind_of word ≡ kind_number wanted) }
{
    kind(word) == wanted as u32
}

// The low 28 bits. This and `field_value` are two masks, written out: as one function of a width, a shift less one, neither would show its bits.
pub(crate) fn value(word: u32) -> u32
    ensures { result ≡ value_of word }
{
    word & 0x0FFF_FFFF
}

// Bits 27 to 24: the field of a battery word, the type of a word that says how many homes there are.
pub fn field(word: u32) -> u32
    ensures { result ≡ field_of word }
{
    (word >> 24) & 0xF
}

// The low 24 bits: the value beside it.
pub fn field_value(word: u32) -> u32
    ensures { result ≡ field_value_of word }
{
    word & 0x00FF_FFFF
}
