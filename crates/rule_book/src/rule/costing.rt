// What a rule of a book answers.
ghost use Rattle.std.specs.Prelude.{◌≡◌};
ghost use Rattle.rule_book.specs.Meanings.{means};
ghost use Rattle.rule_book.specs.Owed.{means_free, means_limited};

use super::BookRule;
use crate::book::MOST_RULES;
use crate::definition::Definition;
use composition::Composition;
use cost_rules::{CostRule, Fault};

impl CostRule for BookRule<'_, '_> {
    ghost meaning = { λ s. means s.book.now.definitions.items s.number };

    ghost free = { λ s. means_free s.book.now.definitions.items s.number };

    ghost limited = { λ s. means_limited s.book.now.definitions.items s.number };

    fn cost(&self, of: &Composition) -> Result<i64, Fault> {
        match self.book.definitions[self.number] {
            Definition::Sum { .. } => self.kept_cost(of),
            alone => alone.own_cost(of),
        }
    }
}

impl BookRule<'_, '_> {
    // Sums may share their parts, so that there can be more ways to a rule than could ever be gone. So there is room to keep the answer of each. A function clears its room as it is entered, so this one is by itself, and only sums enter it.
    fn kept_cost(&self, of: &Composition) -> Result<i64, Fault>
        ensures { result ≡ means self.now.book.now.definitions.items self.now.number of.now.counts }
    {
        let mut known = [None; MOST_RULES];
        self.book.answer(self.number, of, &mut known)
    }
}
