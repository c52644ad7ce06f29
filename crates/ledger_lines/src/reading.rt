// Reading a line.
ghost use Rattle.ledger_lines.specs.Lines.{TextRead, seen};
ghost use Rattle.ledger_lines.specs.Forms.{LineWith};

use crate::fields::{four, none, one};
use crate::forms::{ask, cost, draft, list, making, period, rule};
use crate::keyword::Keyword;
use crate::line::Line;
use crate::parts::parts_between;
use crate::unread::Unread;
use std::alloc::Global;

// The line that a text is, if it is one.
pub fn read<'t>(alloc: Global, text: &'t [u8]) -> Result<Line<'t>, Unread>
    ensures { TextRead text.now result }
{
    let words = parts_between(alloc, text, b' ')?;
    let [keyword, fields @ ..] = words.as_slice() else {
        return Err(Unread::NoLine);
    };
    line_with(alloc, Keyword::read(keyword)?, fields)
}

// The line with a keyword and these words behind it.
fn line_with<'t>(alloc: Global, keyword: Keyword, fields: &[&'t [u8]]) -> Result<Line<'t>, Unread>
    ensures { LineWith keyword (seen fields.now) result }
{
    match keyword {
        Keyword::List => list(fields),
        Keyword::Period => period(alloc, fields),
        Keyword::Rule => rule(alloc, fields),
        Keyword::Join => Ok(Line::Join(one(fields)?)),
        Keyword::Leave => Ok(Line::Leave(one(fields)?)),
        Keyword::Draft => draft(alloc, fields),
        Keyword::Line => Ok(Line::Line(one(fields)?)),
        Keyword::Post => {
            none(fields)?;
            Ok(Line::Post)
        }
        Keyword::Withdraw => {
            none(fields)?;
            Ok(Line::Withdraw)
        }
        Keyword::Compose => Ok(Line::Compose(four(fields)?)),
        Keyword::Make => Ok(Line::Make(making(alloc, fields)?)),
        Keyword::Ask => ask(fields),
        Keyword::Cost => cost(fields),
        Keyword::End => {
            none(fields)?;
            Ok(Line::End)
        }
    }
}
