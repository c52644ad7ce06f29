// Finding a rule of a book, and asking it.
ghost use Rattle.std.specs.Prelude.{◌≡◌, ◌≤◌, ◌<◌, length, slice_index_or, MatchOption, None, Some};
ghost use Rattle.rule_book.specs.Asked.{Keeps, Known};
ghost use Rattle.rule_book.specs.Limits.{most_rules};
ghost use Rattle.rule_book.specs.Meanings.{AsDefined, means};

use super::RuleBook;
use crate::definition::Definition;
use crate::rule::BookRule;
use composition::Composition;
use cost_rules::{Fault, price};

impl<'a> RuleBook<'a> {
    // The rule with a number, if there is one. Every rule means what its definition says, out of the rules that this names.
    #[tactic(auto, using(crate::proofs::Following::as_defined))]
    pub fn rule(&self, number: usize) -> Option<BookRule<'_, 'a>>
        ensures found { MatchOption result (length self.now.definitions.items ≤ number) (λ r. (r.book.now ≡ self.now) × (r.number ≡ number)) }
        ensures law { AsDefined self.now.definitions.items }
    {
        if number < self.len() {
            Some(BookRule { book: self, number })
        } else {
            None
        }
    }

    // The answer of a rule. What is known already is not asked again, and what is not is kept once it is worked out. So each rule is worked out at most once for a question, and the work grows with the rules that are reached, however many ways lead to them.
    #[cycle(answer)]
    pub(crate) fn answer(
        &self,
        number: usize,
        of: &Composition,
        known: &mut [Option<Result<i64, Fault>>],
    ) -> Result<i64, Fault>
        requires there { number < length self.now.definitions.items }
        requires room { length known.old ≡ most_rules }
        requires known { Known self.now.definitions.items of.now.counts known.old }
        ensures answered { result ≡ means self.now.definitions.items number of.now.counts }
        ensures known { Known self.now.definitions.items of.now.counts known.new }
        ensures keeps { Keeps known.old known.new }
        ensures kept { slice_index_or known.new number None ≡ Some result }
    {
        if let Some(answer) = known[number] {
            return answer;
        }
        let answer = self.worked_out(number, of, known);
        known[number] = Some(answer);
        answer
    }

    // The answer, not known yet, of a rule by its definition.
    #[cycle(answer)]
    fn worked_out(
        &self,
        number: usize,
        of: &Composition,
        known: &mut [Option<Result<i64, Fault>>],
    ) -> Result<i64, Fault>
        requires there { number < length self.now.definitions.items }
        requires room { length known.old ≡ most_rules }
        requires known { Known self.now.definitions.items of.now.counts known.old }
        requires unknown { slice_index_or known.old number None ≡ None }
        ensures answered { result ≡ means self.now.definitions.items number of.now.counts }
        ensures known { Known self.now.definitions.items of.now.counts known.new }
        ensures keeps { Keeps known.old known.new }
    {
        match self.definitions[number] {
            Definition::Sum { left, right } => {
                let left = self.answer(left, of, known).map_err(Fault::lifted)?;
                let right = self.answer(right, of, known).map_err(Fault::lifted)?;
                price(left + right)
            }
            alone => alone.own_cost(of),
        }
    }
}
