// Half-hours of a battery. A step takes the homes, the charge, the demand and the generation, and gives the charge at the
// end, the import and the export; all energy is in watt-hours.
ghost use Rattle.std.specs.Prelude.{◌≤◌};

use battery::{Battery, Rating};

// For one home it holds up to 1,000 and moves up to 500 in a half-hour. A tenth is lost on the way in, and a tenth on
// the way out.
fn battery_from(lowest: u32) -> Battery
    requires { lowest ≤ 1000 }
{
    Battery {
        rating: Rating {
            lowest,
            highest: 1000,
            most: 500,
            charging: 90,
            discharging: 90,
        },
    }
}

// Of 800 left over 500 are put in, of which 450 are stored, and 300 are exported. Then 900 are lacking, and the 450 give
// 405 of them.
#[test]
fn what_is_left_over_is_given_back(rt: HostRuntime) {
    let battery = battery_from(0);
    assert_eq!(rt; battery.step(1, 0, 200, 1000), (450, 0, 300));
    assert_eq!(rt; battery.step(1, 450, 900, 0), (0, 495, 0));
    assert_eq!(rt; battery.step(1, 450, 300, 300), (450, 0, 0));
}

// 30 and 70 out of the battery draw 33.3 and 77.8, rounded up, and the most that comes out, 500, draws 555.6. Of 5 put in
// 4.5 are stored, rounded down. A charge of 800 leaves room for 200, so 222.2 can be put in: of 222 are stored 199.8. A
// full battery takes nothing.
#[test]
fn the_charge_is_rounded_down(rt: HostRuntime) {
    let battery = battery_from(0);
    assert_eq!(rt; battery.step(1, 100, 30, 0), (66, 0, 0));
    assert_eq!(rt; battery.step(1, 100, 70, 0), (22, 0, 0));
    assert_eq!(rt; battery.step(1, 1000, 900, 0), (444, 400, 0));
    assert_eq!(rt; battery.step(1, 100, 0, 5), (104, 0, 0));
    assert_eq!(rt; battery.step(1, 800, 0, 1000), (999, 0, 778));
    assert_eq!(rt; battery.step(1, 1000, 0, 900), (1000, 0, 900));
}

// 79 above the lowest give 71.1: 71 draw 78.9, so all 79. 78 give 70.2: 70 draw 77.8, so all 78. 1 gives 0.9, so nothing.
#[test]
fn the_charge_stays_above_the_lowest(rt: HostRuntime) {
    let battery = battery_from(20);
    assert_eq!(rt; battery.step(1, 99, 500, 0), (20, 429, 0));
    assert_eq!(rt; battery.step(1, 98, 500, 0), (20, 430, 0));
    assert_eq!(rt; battery.step(1, 21, 500, 0), (21, 500, 0));
}

// Two homes hold from 40 to 2,000 and move up to 1,000. Of 1,200 left over 1,000 are put in, and 900 stored; these give
// 810 of 2,000 lacking. 1,000 of 1,200 lacking draw 1,111.1. 100 below the highest 111 are put in, and 99.9 stored.
#[test]
fn two_homes_have_twice_the_limits(rt: HostRuntime) {
    let battery = battery_from(20);
    assert_eq!(rt; battery.step(2, 40, 200, 1400), (940, 0, 200));
    assert_eq!(rt; battery.step(2, 940, 2000, 0), (40, 1190, 0));
    assert_eq!(rt; battery.step(2, 2000, 1200, 0), (888, 200, 0));
    assert_eq!(rt; battery.step(2, 1900, 0, 200), (1999, 0, 89));
}
