// What a word may be at its place in a period.
ghost use Rattle.std.specs.Prelude.{◌<◌};
ghost use Rattle.period.specs.Labels.{span};

use crate::kinds::{Field, Kind};
use crate::label::Label;
use crate::refusals::Part;

#[derive(Clone, Copy)]
pub(crate) struct Slot {
    pub part: Part,
    pub label: Label,
    pub least: u32,
    pub most: u32,
    ghost fits: { most < span label },
}

impl Slot {
    ghost use Rattle.period.specs.Along.{SlotRead};

    // The value of a word, if it may stand there.
    pub(crate) fn value_in(self, word: u32) -> Option<u32>
        ensures { SlotRead self word result }
    {
        self.label
            .value_in(word)
            .filter(|value| (self.least..=self.most).contains(value))
    }
}

// The most that one home demands or has generated for it in a half-hour, and the highest tariff.
const MOST_VALUE: u32 = 20_000;

// The most that the battery holds for one home.
pub(crate) const MOST_CHARGE: u32 = 100_000;

// All of it, in percent.
const WHOLE: u32 = 100;

// A table, each entry written out: `..` does not go with a ghost field, a constant's value calls no function of ours, and a function of the kind, called where
// the slot is wanted, would take its limits out of the table.
pub(crate) const LENGTH: Slot = Slot {
    part: Part::Length,
    label: Label::Kind(Kind::HalfHours),
    least: 1,
    most: 17_568,
};

pub(crate) const TYPES: Slot = Slot {
    part: Part::Types,
    label: Label::Kind(Kind::Types),
    least: 1,
    most: 4,
};

pub(crate) const LOWEST: Slot = Slot {
    part: Part::Battery,
    label: Label::Field(Field::Lowest),
    least: 0,
    most: MOST_CHARGE,
};

pub(crate) const MOST: Slot = Slot {
    part: Part::Battery,
    label: Label::Field(Field::Most),
    least: 0,
    most: 50_000,
};

pub(crate) const CHARGING: Slot = Slot {
    part: Part::Battery,
    label: Label::Field(Field::Charging),
    least: 1,
    most: WHOLE,
};

pub(crate) const DISCHARGING: Slot = Slot {
    part: Part::Battery,
    label: Label::Field(Field::Discharging),
    least: 1,
    most: WHOLE,
};

pub(crate) const IMPORT: Slot = Slot {
    part: Part::HalfHour,
    label: Label::Kind(Kind::Import),
    least: 0,
    most: MOST_VALUE,
};

pub(crate) const EXPORT: Slot = Slot {
    part: Part::HalfHour,
    label: Label::Kind(Kind::Export),
    least: 0,
    most: MOST_VALUE,
};

pub(crate) const DEMAND: Slot = Slot {
    part: Part::HalfHour,
    label: Label::Kind(Kind::Demand),
    least: 0,
    most: MOST_VALUE,
};

pub(crate) const GENERATION: Slot = Slot {
    part: Part::HalfHour,
    label: Label::Kind(Kind::Generation),
    least: 0,
    most: MOST_VALUE,
};
