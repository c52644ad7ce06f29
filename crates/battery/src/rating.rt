// What the battery can do, for one home. Energy is in watt-hours.
#[derive(Clone, Copy, Debug, PartialEq, Eq)]
pub struct Rating {
    // the charge that it is never drawn below, and never filled above
    pub lowest: u32,
    pub highest: u32,
    // the most that goes in or out in a half-hour
    pub most: u32,
    // of what is put in, the part that is stored, and of what is drawn, the part that comes out: in percent
    pub charging: u32,
    pub discharging: u32,
}
