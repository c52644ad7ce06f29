// The two half-hours as a period, and what they cost.
ghost use Rattle.std.specs.Prelude.{◌≡◌, ℤ, pos, Ok, is_ok, true};
ghost use Rattle.figures.specs.WorkedCases.{one_home, words};

use composition::Composition;
use cost_rules::CostRule;
use metering::{GridRule, PeakRule};
use period::Period;

static WORDS: [u32; 14] = [
    0x10000002, // two half-hours
    0x20000001, // one type
    0x30000000, // the battery: from 0
    0x310003E8, // to 1,000
    0x320001F4, // up to 500 in a half-hour
    0x3300005A, // 90% of what is put in is stored
    0x3400005A, // 90% of what is drawn comes out
    0x40000BB8, // import tariff 3,000
    0x500001F4, // export tariff 500
    0x600000C8, // demand 200
    0x700003E8, // generation 1,000
    0x60000384, // demand 900
    0x70000000, // generation 0
    0xF000000D, // closed at place 13
];

fn period() -> Period<'static>
    ensures { result.words.now ≡ words }
{
    let mut period = Period::built_in();
    period.fill(&WORDS).unwrap();
    period
}

// By the grid.
pub(crate) fn grid_charges() -> i64
    ensures { result ≡ pos 1335 }
{
    let rule = GridRule::on(period());
    for_one_home(&rule)
}

// By their peak, at the price 100.
pub(crate) fn peak_costs() -> i64
    ensures { result ≡ pos 180 }
{
    let mut rule = PeakRule::built_in();
    rule.fill(period(), 100).unwrap();
    for_one_home(&rule)
}

// What a home of type 1 costs by a rule that has a cost for it.
fn for_one_home<R: CostRule>(rule: &R) -> i64
    requires { is_ok (R.CostRule.meaning rule.now one_home) ≡ true }
    ensures { R.CostRule.meaning rule.now one_home ≡ Ok result }
{
    let home = Composition::new([1, 0, 0, 0]).unwrap();
    rule.cost(&home).unwrap()
}
