// A rule by which a group pays for its half-hours of a period, as a tally adds them up.
use period::Period;

mod costing;
mod walking;

// Any two of these rules differ in the tally alone.
#[derive(Clone, Copy, Drop)]
pub struct MeteredRule<'a, T> {
    pub(crate) period: Period<'a>,
    pub(crate) tally: T,
}
