// What a period tells: what the page says that its words write down.
ghost use Rattle.std.specs.Prelude.{◌≡◌};
ghost use Rattle.period.specs.Filled.{page};
ghost use Rattle.period.specs.InForce.{readings};
ghost use Rattle.period.specs.Labels.{field_in};
ghost use Rattle.period.specs.Pages.{Says};
ghost use Rattle.period.specs.Told.{left_in};

use super::Period;
use crate::kinds::Field;
use crate::reading::Tariffs;
use crate::readings::Readings;
use crate::words::{field_value, value};
use battery::{Battery, Rating};

// Where words stand before the first half-hour.
const LENGTH_AT: usize = 0;

const TYPES_AT: usize = 1;

const BATTERY_AT: usize = 2;

const HALF_HOURS_AT: usize = BATTERY_AT + BATTERY_WORDS;

// One for each field.
const BATTERY_WORDS: usize = 5;

impl<'a> Period<'a> {
    // For how many types it has readings: types 1 to that number.
    pub fn types(&self) -> u8
        ensures value { result ≡ (page self.now).types }
        ensures law { Says self.now.words.now (λ p. result ≡ p.types) }
    {
        value(self.words[TYPES_AT]) as u8
    }

    // What its battery's rating has for a field.
    fn field(&self, field: Field) -> u32
        ensures { result ≡ field_in field (page self.now).rating }
    {
        field_value(self.words[BATTERY_AT + field as usize])
    }

    // Its battery, as it is for one home.
    pub fn battery(&self) -> Battery
        ensures value { result.rating ≡ (page self.now).rating }
        ensures law { Says self.now.words.now (λ p. result.rating ≡ p.rating) }
    {
        Battery {
            rating: Rating {
                lowest: self.field(Field::Lowest),
                highest: self.field(Field::Highest),
                most: self.field(Field::Most),
                charging: self.field(Field::Charging),
                discharging: self.field(Field::Discharging),
            },
        }
    }

    // Its half-hours, from the first on.
    pub fn readings(&self) -> Readings<'a>
        ensures value { left_in result ≡ readings (page self.now) }
        ensures law { Says self.now.words.now (λ p. left_in result ≡ readings p) }
    {
        Readings {
            rest: &self.words[HALF_HOURS_AT..],
            left: value(self.words[LENGTH_AT]),
            types: self.types(),
            tariffs: Tariffs {
                import: 0,
                export: 0,
            },
        }
    }
}
