// What is listed of one type: how many homes it has, the share of each, and its bill in pence. Nothing is printed if it has none.
ghost use Rattle.std.specs.Prelude.{◌≡◌, Some};
ghost use Rattle.listing.specs.Texts.{row_of, row_text};

use account::Draft;
use composition::DemandType;
use std::fmt;

#[derive(Clone, Copy)]
pub(crate) struct Row {
    of: DemandType,
    homes: u8,
    line: Option<(i64, i64)>,
}

impl Row {
    // The row of a type in a draft.
    pub(crate) fn of(draft: &Draft, of: DemandType) -> Row
        ensures { result ≡ row_of draft.now of }
    {
        Row {
            of,
            homes: draft.homes().count(of),
            line: draft.line_of(of),
        }
    }
}

impl fmt::Display for Row {
    ghost output = { λ row. Some (row_text row) };

    fn fmt<W: fmt::Write>(&self, f: &mut fmt::Formatter<W>) -> fmt::Result {
        let Some((share, bill)) = self.line else {
            return Ok(());
        };
        let number = u8::from(self.of);
        let homes = self.homes;
        writeln!(f, "type {number} count {homes} share {share} bill {bill}")
    }
}
