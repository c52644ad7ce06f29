// The kinds of a period's words and the fields of its battery words, each with the number that it has in a word.
#[derive(Clone, Copy)]
pub(crate) enum Kind {
    HalfHours = 1,
    Types = 2,
    Battery = 3,
    Import = 4,
    Export = 5,
    Demand = 6,
    Generation = 7,
    Closing = 15,
}

#[derive(Clone, Copy)]
pub(crate) enum Field {
    Lowest = 0,
    Highest = 1,
    Most = 2,
    Charging = 3,
    Discharging = 4,
}
