// Filling a period.
ghost use Rattle.std.specs.Prelude.{◌≡◌};
ghost use Rattle.period.specs.Filled.{Filled, first_words, first_page};
ghost use Rattle.period.specs.Pages.{Writes};

use super::Period;
use crate::cursor::check;
use crate::refusals::PeriodRefusal;

static FIRST: [u32; 12] = [
    0x10000001, 0x20000001, 0x30000000, 0x31000000, 0x32000000, 0x33000001, 0x34000001, 0x40000000,
    0x50000000, 0x60000000, 0x70000000, 0xF000000B,
];

impl<'a> Period<'a> {
    // The period to begin with: one half-hour in which nothing costs or earns anything.
    pub fn built_in() -> Period<'a>
        ensures words { result.words.now ≡ first_words }
        ensures law { Writes first_page result.words.now }
    {
        Period { words: &FIRST }
    }

    // Points this at other words, if they write a period down, or names the first that offends and leaves it as it was.
    pub fn fill(&mut self, words: &'a [u32]) -> Result<(), PeriodRefusal>
        ensures { Filled words.now self.old result self.new }
    {
        check(words)?;
        *self = Period { words };
        Ok(())
    }
}
