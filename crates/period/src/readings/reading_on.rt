// Reading one half-hour after another.
ghost use Rattle.std.specs.Prelude.{◌≡◌, ◌≤◌, drop};
ghost use Rattle.period.specs.Labels.{kind_number};
ghost use Rattle.period.specs.Limits.{most_types};
ghost use Rattle.period.specs.Unread.{tariff_in, past, first_value, demands_in};

use super::Readings;
use crate::kinds::Kind;
use crate::reading::{Reading, Tariffs};
use crate::words::{is_of, value};

impl Iterator for Readings<'_> {
    ghost use Rattle.std.specs.Iterator.{at_most};
    ghost use Rattle.period.specs.Told.{ReadOn};

    type Item = Reading;

    ghost next_gives = { ReadOn };

    // the half-hours that are left
    ghost remaining = { λ readings. at_most readings.left };

    // Into the walk, so that a half-hour's demands never go through memory.
    #[inline]
    fn next(&mut self) -> Option<Reading> {
        self.left = self.left.checked_sub(1)?;
        self.tariffs = Tariffs {
            import: tariff(&mut self.rest, Kind::Import, self.tariffs.import),
            export: tariff(&mut self.rest, Kind::Export, self.tariffs.export),
        };
        Some(Reading {
            tariffs: self.tariffs,
            demands: demands(&mut self.rest, self.types),
            generation: first(&mut self.rest),
        })
    }
}

// The tariff that the first word gives if it is of its kind, else the one before.
fn tariff(words: &mut &[u32], wanted: Kind, before: u32) -> u32
    ensures tariff { result ≡ tariff_in (kind_number wanted) before words.old.now }
    ensures left { words.new.now ≡ past (kind_number wanted) words.old.now }
{
    match *words {
        [head, rest @ ..] if is_of(*head, wanted) => {
            *words = rest;
            value(*head)
        }
        _ => before,
    }
}

// The demand of each type, 0 for those without readings.
fn demands(words: &mut &[u32], types: u8) -> [u32; 4]
    requires { types ≤ most_types }
    ensures demands { result ≡ demands_in most_types types words.old.now }
    ensures left { words.new.now ≡ drop types words.old.now }
{
    let mut demands = [0; 4];
    for (place, demand) in demands.iter_mut().enumerate() {
        if place < usize::from(types) {
            *demand = first(words);
        }
    }
    demands
}

// The first word's value.
fn first(words: &mut &[u32]) -> u32
    ensures value { result ≡ first_value words.old.now }
    ensures left { words.new.now ≡ drop 1 words.old.now }
{
    match *words {
        [head, rest @ ..] => {
            *words = rest;
            value(*head)
        }
        [] => 0,
    }
}
