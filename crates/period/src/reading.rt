// One half-hour of a period.

// In hundredths of a penny for 1,000 watt-hours.
#[derive(Clone, Copy, Debug, PartialEq, Eq)]
pub struct Tariffs {
    pub import: u32,
    pub export: u32,
}

#[derive(Clone, Copy, Debug, PartialEq, Eq)]
pub struct Reading {
    // the tariffs in force
    pub tariffs: Tariffs,
    // watt-hours for one home of each type, 0 for a type without readings
    pub demands: [u32; 4],
    // watt-hours for one home
    pub generation: u32,
}
