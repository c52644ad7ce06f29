// Filling a book.
ghost use Rattle.std.specs.Prelude.{◌≡◌, [], length};
ghost use Rattle.rule_book.specs.Added.{Added};

use super::{MOST_RULES, RuleBook};
use crate::definition::Definition;
use crate::refusals::AddRefusal;
use std::alloc::Global;

impl<'a> RuleBook<'a> {
    // The book without rules.
    pub fn new(alloc: Global) -> RuleBook<'a>
        ensures { result.definitions.items ≡ [] }
    {
        RuleBook {
            definitions: Vec::new(alloc),
        }
    }

    // How many rules there are. The next one gets this number.
    pub fn len(&self) -> usize
        ensures { result ≡ length self.now.definitions.items }
    {
        self.definitions.len()
    }

    // Adds a rule under the next number, or refuses and leaves the book as it was.
    #[tactic(auto, using(crate::proofs::Following::follows))]
    pub fn add(&mut self, definition: Definition<'a>) -> Result<(), AddRefusal>
        ensures { Added self.old.definitions.items definition.entry result self.new.definitions.items }
    {
        if definition.names_later(self.len()) {
            return Err(AddRefusal::LaterRule);
        }
        if self.len() == MOST_RULES {
            return Err(AddRefusal::Full);
        }
        self.definitions.push(definition)?;
        Ok(())
    }
}
