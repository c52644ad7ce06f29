// How a word is known: by its kind, or as the battery word of a field.
ghost use Rattle.period.specs.Labels.{LabelRead};

use crate::kinds::{Field, Kind};
use crate::words::{field, field_value, is_of, value};

#[derive(Clone, Copy)]
pub(crate) enum Label {
    // a word of a kind, whose value has 28 bits
    Kind(Kind),
    // the battery word of a field, whose value has 24 bits
    Field(Field),
}

impl Label {
    // The value of a word, if it has this label.
    pub(crate) fn value_in(self, word: u32) -> Option<u32>
        ensures { LabelRead self word result }
    {
        match self {
            Label::Kind(kind) if is_of(word, kind) => Some(value(word)),
            Label::Field(wanted) if is_of(word, Kind::Battery) && field(word) == wanted as u32 => {
                Some(field_value(word))
            }
            _ => None,
        }
    }
}
