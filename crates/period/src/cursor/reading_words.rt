// Reading one word.
ghost use Rattle.period.specs.Along.{At, Hands, Answers, ReadInSlot, TakenInSlot, maybe_in, wanted};

use super::Cursor;
use crate::refusals::PeriodRefusal;
use crate::slot::Slot;

impl<'a> Cursor<'a> {
    // Before the first word.
    pub(crate) fn over(words: &'a [u32]) -> Cursor<'a>
        ensures { At result words.now 0 }
    {
        Cursor {
            rest: words,
            place: 0,
        }
    }

    // The value of the next word, which is read if it is the one that is wanted.
    pub(crate) fn take(&mut self, slot: Slot) -> Option<u32>
        ensures within { TakenInSlot slot result }
        ensures reads { Hands (maybe_in slot) self.old result self.new }
    {
        let [head, rest @ ..] = self.rest else {
            return None;
        };
        let value = slot.value_in(*head)?;
        self.rest = rest;
        self.place += 1;
        Some(value)
    }

    // The value of the next word, which must be the one that is wanted.
    pub(crate) fn word(&mut self, slot: Slot) -> Result<u32, PeriodRefusal>
        ensures within { ReadInSlot slot result }
        ensures reads { Answers (wanted slot) self.old result self.new }
    {
        self.take(slot).ok_or(PeriodRefusal {
            part: slot.part,
            place: self.place,
        })
    }
}
