// What stands under a number of a book.
ghost use Rattle.std.specs.Prelude.{◌↔◌, ◌≡◌, IsTrue};
ghost use Rattle.rule_book.specs.Meanings.{costless, meaning_of};
ghost use Rattle.rule_book.specs.Ordered.{NamesLater};

use composition::Composition;
use cost_rules::{CostRule, Fault, HeadRule, ListedRule};
use metering::{GridRule, PeakRule};

#[derive(Clone, Copy)]
pub enum Definition<'a> {
    Listed(ListedRule<'a>),
    Head(HeadRule),
    Grid(GridRule<'a>),
    Peak(PeakRule<'a>),
    // the sum of two earlier rules, by their numbers
    Sum { left: usize, right: usize },
}

impl Definition<'_> {
    // Whether it is a sum of a rule that is not among the first so many.
    pub(crate) fn names_later(&self, rules: usize) -> bool
        ensures { IsTrue result ↔ NamesLater rules self.now }
    {
        match *self {
            Definition::Sum { left, right } => left >= rules || right >= rules,
            _ => false,
        }
    }

    // What it costs by itself. What a sum costs, it costs by the rules that it names.
    pub(crate) fn own_cost(&self, of: &Composition) -> Result<i64, Fault>
        ensures { result ≡ meaning_of (λ _. costless) self.now of.now.counts }
    {
        match *self {
            Definition::Listed(rule) => rule.cost(of),
            Definition::Head(rule) => rule.cost(of),
            Definition::Grid(rule) => rule.cost(of),
            Definition::Peak(rule) => rule.cost(of),
            Definition::Sum { .. } => Ok(0),
        }
    }
}
