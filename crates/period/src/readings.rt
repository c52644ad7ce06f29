// The half-hours of a period that are still to be read.
ghost use Rattle.std.specs.Prelude.{◌≤◌};
ghost use Rattle.period.specs.Limits.{most_types};

use crate::reading::Tariffs;

mod reading_on;

#[derive(Clone, Copy)]
pub struct Readings<'a> {
    pub(crate) rest: &'a [u32],
    // how many half-hours are left
    pub(crate) left: u32,
    pub(crate) types: u8,
    // the tariffs of the half-hour before
    pub(crate) tariffs: Tariffs,
    ghost few: { types ≤ most_types },
}
