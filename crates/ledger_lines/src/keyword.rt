// The first word of a line, which says what form the line has.
ghost use Rattle.ledger_lines.specs.Reading.{Anything, Read};
ghost use Rattle.ledger_lines.specs.Forms.{keyword_word};

use crate::unread::Unread;

#[derive(Clone, Copy)]
pub(crate) enum Keyword {
    List,
    Period,
    Rule,
    Join,
    Leave,
    Draft,
    Line,
    Post,
    Withdraw,
    Compose,
    Make,
    Ask,
    Cost,
    End,
}

impl Keyword {
    pub(crate) fn read(word: &[u8]) -> Result<Keyword, Unread>
        ensures { Read Anything keyword_word word.now result }
    {
        match word {
            b"list" => Ok(Keyword::List),
            b"period" => Ok(Keyword::Period),
            b"rule" => Ok(Keyword::Rule),
            b"join" => Ok(Keyword::Join),
            b"leave" => Ok(Keyword::Leave),
            b"draft" => Ok(Keyword::Draft),
            b"line" => Ok(Keyword::Line),
            b"post" => Ok(Keyword::Post),
            b"withdraw" => Ok(Keyword::Withdraw),
            b"compose" => Ok(Keyword::Compose),
            b"make" => Ok(Keyword::Make),
            b"ask" => Ok(Keyword::Ask),
            b"cost" => Ok(Keyword::Cost),
            b"end" => Ok(Keyword::End),
            _ => Err(Unread::NoLine),
        }
    }
}
