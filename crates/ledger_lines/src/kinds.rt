// The words for what a rule is, and for what is made and held.
ghost use Rattle.ledger_lines.specs.Reading.{Anything, Read};
ghost use Rattle.ledger_lines.specs.Words.{kind_word};
ghost use Rattle.ledger_lines.specs.Forms.{rule_kind_word};

use crate::line::Kind;
use crate::unread::Unread;

#[derive(Clone, Copy)]
pub(crate) enum RuleKind {
    Listed,
    Head,
    Sum,
    Grid,
    Peak,
}

impl RuleKind {
    pub(crate) fn read(word: &[u8]) -> Result<RuleKind, Unread>
        ensures { Read Anything rule_kind_word word.now result }
    {
        match word {
            b"listed" => Ok(RuleKind::Listed),
            b"head" => Ok(RuleKind::Head),
            b"sum" => Ok(RuleKind::Sum),
            b"grid" => Ok(RuleKind::Grid),
            b"peak" => Ok(RuleKind::Peak),
            _ => Err(Unread::NoLine),
        }
    }
}

impl Kind {
    pub(crate) fn read(word: &[u8]) -> Result<Kind, Unread>
        ensures { Read Anything kind_word word.now result }
    {
        match word {
            b"listed" => Ok(Kind::Listed),
            b"head" => Ok(Kind::Head),
            b"peak" => Ok(Kind::Peak),
            b"check" => Ok(Kind::Check),
            _ => Err(Unread::NoLine),
        }
    }
}
