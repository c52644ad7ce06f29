// Two half-hours of one home's battery.
ghost use Rattle.std.specs.Prelude.{◌≡◌, [], ◌∷◌};

use battery::{Battery, Rating};

const BATTERY: Battery = Battery {
    rating: Rating {
        lowest: 0,
        highest: 1000,
        most: 500,
        charging: 90,
        discharging: 90,
    },
};

// Charge, import and export: first with an empty battery, 200 demanded and 1,000 generated; then 900 demanded and nothing generated.
pub(crate) fn half_hours() -> [(u32, u32, u32); 2]
    ensures { result ≡ (450, 0, 300) ∷ (0, 495, 0) ∷ [] }
{
    let first = BATTERY.step(1, 0, 200, 1000);
    [first, BATTERY.step(1, first.0, 900, 0)]
}
