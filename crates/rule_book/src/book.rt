// Definitions of rules, each with its number.
ghost use Rattle.std.specs.Prelude.{◌≤◌, length};
ghost use Rattle.rule_book.specs.Ordered.{Ordered};
ghost use Rattle.rule_book.specs.Limits.{most_rules};

use crate::definition::Definition;

mod adding;
mod asking;

// The most rules that a book can have.
pub const MOST_RULES: usize = 4_096;

#[derive(Drop)]
pub struct RuleBook<'a> {
    pub(crate) definitions: Vec<Definition<'a>>,
    ghost ordered: { Ordered definitions.items },
    ghost few: { length definitions.items ≤ most_rules },
}
