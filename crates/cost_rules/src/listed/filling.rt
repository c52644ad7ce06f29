// Filling a listed rule.
ghost use Rattle.cost_rules.specs.Filled.{Filled, BuiltIn, FirstOutside};

use super::ListedRule;
use crate::pricing::price;
use crate::refusals::ListedRefusal;
use composition::Composition;

static FREE: [i32; 1] = [0];

impl<'a> ListedRule<'a> {
    // The rule to begin with: nobody costs nothing, and nobody else has a cost.
    pub fn built_in() -> ListedRule<'a>
        ensures { BuiltIn result }
    {
        ListedRule {
            largest: Composition::empty(),
            table: &FREE,
        }
    }

    // Makes this the rule with a box and a table, or refuses and leaves it as it was.
    pub fn fill(&mut self, largest: [u8; 4], table: &'a [i32]) -> Result<(), ListedRefusal>
        ensures { Filled largest table.now self.old result self.new }
    {
        let largest = Composition::new(largest)?;
        if table.len() != largest.size() {
            return Err(ListedRefusal::WrongLength);
        }
        if table[0] != 0 {
            return Err(ListedRefusal::FirstNotZero);
        }
        if let Some(place) = first_outside(table) {
            return Err(ListedRefusal::OutsideLimits(place));
        }
        *self = ListedRule { largest, table };
        Ok(())
    }
}

// The place of the first entry outside the limits.
fn first_outside(table: &[i32]) -> Option<usize>
    ensures { FirstOutside table.now result }
{
    table
        .iter()
        .position(|&cost| price(i64::from(cost)).is_err())
}
