// The periods and rules that a list of calls notes, by number.
ghost use Rattle.std.specs.Prelude.{◌≡◌, [], IfOk, slice_get};
ghost use Rattle.call_list.specs.Noting.{Defines, ListedMade, PeakMade, PeriodNoted, RuleNoted};

use answers::Outcome;
use cost_rules::{HeadRule, ListedRule};
use ledger_lines::{Listed, WrittenRule};
use metering::{GridRule, PeakRule};
use period::Period;
use rule_book::{AddRefusal, Definition, RuleBook};
use std::alloc::{AllocError, Global};

#[derive(Drop)]
pub(crate) struct Notes<'a> {
    periods: Vec<Period<'a>>,
    pub(crate) book: RuleBook<'a>,
}

impl<'a> Notes<'a> {
    pub(crate) fn new(alloc: Global) -> Notes<'a>
        ensures periods { result.periods.items ≡ [] }
        ensures rules { result.book.definitions.items ≡ [] }
    {
        Notes {
            periods: Vec::new(alloc),
            book: RuleBook::new(alloc),
        }
    }

    // Notes a period under the next number, if this is it and the words are a period.
    pub(crate) fn note_period(
        &mut self,
        number: usize,
        words: &'a [u32],
    ) -> Result<Outcome, AllocError>
        ensures { IfOk result (λ o. PeriodNoted self.old number words.now o self.new) }
    {
        let mut period = Period::built_in();
        if number != self.periods.len() || period.fill(words).is_err() {
            return Ok(Outcome::Unreadable);
        }
        self.periods.push(period)?;
        Ok(Outcome::Taken)
    }

    // Notes a rule under the next number, if this is it and it can be made.
    pub(crate) fn note_rule(
        &mut self,
        number: usize,
        rule: &'a WrittenRule,
    ) -> Result<Outcome, AllocError>
        ensures { IfOk result (λ o. RuleNoted self.old number rule.now o self.new) }
    {
        if number != self.book.len() {
            return Ok(Outcome::Unreadable);
        }
        let Some(definition) = self.definition(rule) else {
            return Ok(Outcome::Unreadable);
        };
        match self.book.add(definition) {
            Ok(()) => Ok(Outcome::Taken),
            Err(AddRefusal::LaterRule | AddRefusal::Full) => Ok(Outcome::Unreadable),
            Err(AddRefusal::NoMemory) => Err(AllocError),
        }
    }

    // The period with this number, if there is one.
    fn period_at(&self, number: usize) -> Option<Period<'a>>
        ensures { result ≡ slice_get self.now.periods.items number }
    {
        self.periods.get(number).copied()
    }

    // The definition that is written down, if the rule can be made.
    fn definition(&self, rule: &'a WrittenRule) -> Option<Definition<'a>>
        ensures { Defines self.now.periods.items rule.now result }
    {
        match rule {
            WrittenRule::Listed(listed) => Some(Definition::Listed(listed_rule(listed)?)),
            WrittenRule::Head(fees) => Some(Definition::Head(HeadRule::new(*fees).ok()?)),
            WrittenRule::Sum { left, right } => Some(Definition::Sum {
                left: *left,
                right: *right,
            }),
            WrittenRule::Grid { period } => {
                Some(Definition::Grid(GridRule::on(self.period_at(*period)?)))
            }
            WrittenRule::Peak { period, price } => {
                let period = self.period_at(*period)?;
                Some(Definition::Peak(peak_rule(period, *price)?))
            }
        }
    }
}

fn listed_rule(listed: &Listed) -> Option<ListedRule<'_>>
    ensures { ListedMade listed.now result }
{
    let mut rule = ListedRule::built_in();
    rule.fill(listed.largest, listed.table.as_slice()).ok()?;
    Some(rule)
}

fn peak_rule<'a>(period: Period<'a>, price: i64) -> Option<PeakRule<'a>>
    ensures { PeakMade period.entry price result }
{
    let mut rule = PeakRule::built_in();
    rule.fill(period, price).ok()?;
    Some(rule)
}
