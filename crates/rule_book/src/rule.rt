// A rule of a book.
ghost use Rattle.std.specs.Prelude.{◌<◌, length};

use crate::book::RuleBook;

mod costing;

#[derive(Clone, Copy)]
pub struct BookRule<'b, 'a> {
    pub(crate) book: &'b RuleBook<'a>,
    pub(crate) number: usize,
    ghost there: { number < length book.now.definitions.items },
}
