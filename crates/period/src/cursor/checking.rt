// The period check: every word where it belongs, and within its limits.
ghost use Rattle.std.specs.Prelude.{◌≡◌, true, false};
ghost use Rattle.period.specs.Along.{Passes, Checked, Closes, amounts};
ghost use Rattle.period.specs.Reader.{rating, demands, entry, later};
ghost use Rattle.period.specs.declared.refusals.Part.TheVariants.{Closing};

use super::Cursor;
use crate::kinds::{Field, Kind};
use crate::label::Label;
use crate::refusals::{Part, PeriodRefusal};
use crate::slot::*;
use crate::words::{is_of, value};

impl Cursor<'_> {
    // The battery's words. The highest charge must be no lower than the lowest.
    fn rating(&mut self) -> Result<(), PeriodRefusal>
        ensures { Passes rating self.old result self.new }
    {
        let lowest = self.word(LOWEST)?;
        self.word(Slot {
            part: Part::Battery,
            label: Label::Field(Field::Highest),
            least: lowest,
            most: MOST_CHARGE,
        })?;
        self.word(MOST)?;
        self.word(CHARGING)?;
        self.word(DISCHARGING)?;
        Ok(())
    }

    // The first half-hour, which must have both tariffs.
    fn first_half_hour(&mut self, types: u32) -> Result<(), PeriodRefusal>
        ensures { Passes (entry true types) self.old result self.new }
    {
        self.word(IMPORT)?;
        self.word(EXPORT)?;
        self.amounts(types)
    }

    // A later half-hour, which may leave its tariffs out.
    fn later_half_hour(&mut self, types: u32) -> Result<(), PeriodRefusal>
        ensures { Passes (entry false types) self.old result self.new }
    {
        self.take(IMPORT);
        self.take(EXPORT);
        self.amounts(types)
    }

    // The amounts that every half-hour has: a demand for each type, and its generation.
    fn amounts(&mut self, types: u32) -> Result<(), PeriodRefusal>
        ensures { Passes (amounts types) self.old result self.new }
    {
        self.demands(types)?;
        self.word(GENERATION)?;
        Ok(())
    }

    // A demand for each type.
    fn demands(&mut self, types: u32) -> Result<(), PeriodRefusal>
        ensures { Passes (demands types) self.old result self.new }
    {
        for _ in 0..types {
            self.word(DEMAND)?;
        }
        Ok(())
    }

    // So many half-hours after the first.
    fn later(&mut self, count: u32, types: u32) -> Result<(), PeriodRefusal>
        ensures { Passes (later count types) self.old result self.new }
    {
        for _ in 0..count {
            self.later_half_hour(types)?;
        }
        Ok(())
    }

    // The closing word, whose value is its own place, and nothing behind it.
    fn close(&self) -> Result<(), PeriodRefusal>
        ensures { Closes self.now result }
    {
        let [last, rest @ ..] = self.rest else {
            return Err(closing(self.place));
        };
        if !is_of(*last, Kind::Closing) || value(*last) as usize != self.place {
            return Err(closing(self.place));
        }
        if !rest.is_empty() {
            return Err(closing(self.place + 1));
        }
        Ok(())
    }
}

// Whether words write a period down, or the first that offends.
pub(crate) fn check(words: &[u32]) -> Result<(), PeriodRefusal>
    ensures { Checked words.now result }
{
    let mut cursor = Cursor::over(words);
    let half_hours = cursor.word(LENGTH)?;
    let types = cursor.word(TYPES)?;
    cursor.rating()?;
    cursor.first_half_hour(types)?;
    cursor.later(half_hours - 1, types)?;
    cursor.close()
}

fn closing(place: usize) -> PeriodRefusal
    ensures { result ≡ record { part = Closing; place = place } }
{
    PeriodRefusal {
        part: Part::Closing,
        place,
    }
}
