// The rules and the period that a list of calls makes one after another: one of each kind is held, and a refusal leaves it as it was.
ghost use Rattle.call_list.specs.Holding.{Asked, BuiltIn, HeadHeld, ListedHeld, Makes, PeakHeld, held_meaning};

use crate::asking::ask;
use answers::{Answer, done, refused};
use cost_rules::{HeadRule, ListedRule};
use ledger_lines::{Kind, Listed, Making};
use metering::{GridRule, PeakRule};
use period::Period;

#[derive(Clone, Copy)]
pub(crate) struct Held<'a> {
    listed: ListedRule<'a>,
    head: HeadRule,
    peak: PeakRule<'a>,
    period: Period<'a>,
}

impl<'a> Held<'a> {
    // What is held at first: what each kind has built in, and no fees.
    pub(crate) fn built_in() -> Held<'a>
        ensures { BuiltIn result }
    {
        Held {
            listed: ListedRule::built_in(),
            head: HeadRule::new([0; 4]).unwrap(),
            peak: PeakRule::built_in(),
            period: Period::built_in(),
        }
    }

    // Makes one of a kind, which takes the place of the one held, or is refused.
    pub(crate) fn make(&mut self, making: &'a Making) -> Answer
        ensures { Makes making.now self.old result self.new }
    {
        match making {
            Making::Listed(listed) => make_listed(&mut self.listed, listed),
            Making::Head(fees) => make_head(&mut self.head, *fees),
            Making::Peak { words, price } => make_peak(&mut self.peak, words.as_slice(), *price),
            Making::Check { words } => done(self.period.fill(words.as_slice())),
        }
    }

    // What a group costs by the rule of a kind, or by the grid on the period.
    pub(crate) fn ask(&self, kind: Kind, of: [u8; 4]) -> Answer
        ensures { Asked (held_meaning self.now kind) of result }
    {
        match kind {
            Kind::Listed => ask(&self.listed, of),
            Kind::Head => ask(&self.head, of),
            Kind::Peak => ask(&self.peak, of),
            Kind::Check => ask(&GridRule::on(self.period), of),
        }
    }
}

fn make_listed<'a>(held: &mut ListedRule<'a>, listed: &'a Listed) -> Answer
    ensures { ListedHeld listed.now held.old result held.new }
{
    done(held.fill(listed.largest, listed.table.as_slice()))
}

fn make_head(held: &mut HeadRule, fees: [i32; 4]) -> Answer
    ensures { HeadHeld fees held.old result held.new }
{
    match HeadRule::new(fees) {
        Ok(rule) => {
            *held = rule;
            Answer::Done
        }
        Err(refusal) => refused(refusal),
    }
}

// The period is the rule's own: the one that a check holds stays.
fn make_peak<'a>(held: &mut PeakRule<'a>, words: &'a [u32], price: i64) -> Answer
    ensures { PeakHeld words.now price held.old result held.new }
{
    let mut period = Period::built_in();
    match period.fill(words) {
        Ok(()) => done(held.fill(period, price)),
        Err(refusal) => refused(refusal),
    }
}
