// The account goes on by the meter: readings are checked, and bills drafted by what the grid charges and by the highest half-hour.
ghost use Rattle.std.specs.Prelude.{IfOk, Result, ◌≡◌};
ghost use Rattle.period.specs.Filled.{Filled};
ghost use Rattle.period.specs.declared.refusals.PeriodRefusal.{PeriodRefusal as Refused};
ghost use Rattle.metering.specs.Promise.{PeakPromise};
ghost use Rattle.account.specs.Runs.{GoesOn};
ghost use Rattle.narration.specs.Story.{PostedByMeter, peak_price};

use crate::drafts::draft_and_post;
use crate::refused::unless_refused;
use account::Account;
use cost_rules::{CostRule, SumRule};
use metering::{GridRule, PeakRule};
use period::Period;
use refusal::Refusal;
use std::io;

// Readings for homes of types 1 and 2, in watt-hours. docs/METERING.md says how words are read, and works these out by hand.
static READINGS: [u32; 16] = [
    0x10000002, // two half-hours
    0x20000002, // two types
    0x30000000, // the battery: from 0
    0x310003E8, // to 1,000
    0x320001F4, // up to 500 in a half-hour
    0x3300005A, // 90% of what is put in is stored
    0x3400005A, // 90% of what is drawn comes out
    0x40000BB8, // import tariff 3,000
    0x500001F4, // export tariff 500
    0x600000C8, // demand of type 1: 200
    0x60000320, // of type 2: 800
    0x700003E8, // generation 1,000
    0x60000384, // demand of type 1: 900
    0x600002BC, // of type 2: 700
    0x70000000, // generation 0
    0xF000000F, // closed at place 15
];

// What each 1,000 watts of the highest half-hour cost, in hundredths of a penny.
const PRICE: i64 = 100;

// The account as it stands afterwards.
pub fn by_the_meter(rt: &impl Print, account: Account) -> anyhow::Result<Account>
    ensures posted { IfOk result (PostedByMeter account) }
    ensures goes_on { IfOk result (GoesOn account) }
{
    let mut period = Period::built_in();
    check(rt, &mut period, &READINGS[..15])?;
    check(rt, &mut period, &READINGS)?;
    show_readings(rt, &period)?;
    let rule = SumRule {
        left: GridRule::on(period),
        right: peak_rule(rt, period)?,
    };
    draft_and_post(rt, account, &rule, &mut [0; 6])
}

// Takes readings into the period, or says which word offends and keeps what it had.
fn check<'a>(rt: &impl Print, period: &mut Period<'a>, words: &'a [u32]) -> io::Result<()>
    ensures { (answer : Result (Unit {0}) Refused) × Filled words.now period.old answer period.new }
{
    let count = words.len();
    match period.fill(words) {
        Ok(()) => println!(rt; "Readings in {count} words are checked and taken."),
        Err(refusal) => println!(rt;
            "Readings in {count} words are checked. Refused, number {}, at place {}.",
            refusal.number(),
            refusal.place
        ),
    }
}

// Printed here, and not by `Display`: a reading is another crate's type, and the words are the story's.
fn show_readings(rt: &impl Print, period: &Period) -> io::Result<()> {
    for reading in period.readings() {
        let [one, two, _, _] = reading.demands;
        let generation = reading.generation;
        println!(rt;
            "  In a half-hour a home of type 1 demands {one} Wh and one of type 2 {two} Wh, and {generation} Wh are generated for each."
        )?;
        let import = reading.tariffs.import;
        let export = reading.tariffs.export;
        println!(rt; "    1,000 Wh cost {import} from the grid, and bring in {export}.")?;
    }
    Ok(())
}

fn peak_rule<'a>(rt: &impl Print, period: Period<'a>) -> anyhow::Result<PeakRule<'a>>
    ensures { IfOk result (λ rule. PeakPromise period.entry.words.now peak_price (⟦<PeakRule<'a> as CostRule>⟧.meaning rule)) }
{
    let mut rule = PeakRule::built_in();
    let answer = rule.fill(period, PRICE);
    unless_refused(rt, answer, "A price would be set.", "the price is no rule")?;
    println!(rt;
        "Bills are now by the meter: what the grid charges, and {PRICE} for each 1,000 W of the highest half-hour."
    )?;
    Ok(rule)
}
