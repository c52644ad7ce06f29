// One half-hour of a group of homes, as a tally sees it. Energy is in watt-hours.
use period::Tariffs;

#[derive(Clone, Copy)]
pub struct HalfHour {
    pub demand: u32,
    pub generation: u32,
    // what the grid gives and takes, after the battery
    pub import: u32,
    pub export: u32,
    pub tariffs: Tariffs,
}
