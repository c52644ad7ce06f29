// The forms that a line has behind its first word.
ghost use Rattle.ledger_lines.specs.Lines.{seen};
ghost use Rattle.ledger_lines.specs.Reading.{Read};
ghost use Rattle.ledger_lines.specs.Forms.{LineWith};
ghost use Rattle.ledger_lines.specs.Types.{ListedInTypes, RuleInTypes, MakingInTypes};
ghost use Rattle.ledger_lines.specs.Words.{listed_words, rule_words, making_words};
ghost use Rattle.ledger_lines.specs.declared.keyword.Keyword.TheVariants as keywords;

use crate::fields::{counted, first, four, last, one};
use crate::kinds::RuleKind;
use crate::line::{Kind, Line, Listed, Making, WrittenRule};
use crate::numbers::read_number;
use crate::unread::Unread;
use std::alloc::Global;

pub(crate) fn list<'t>(words: &[&'t [u8]]) -> Result<Line<'t>, Unread>
    ensures { LineWith keywords.List (seen words.now) result }
{
    let [name, last] = words else {
        return Err(Unread::NoLine);
    };
    if name.is_empty() {
        return Err(Unread::NoLine);
    }
    let last = read_number(last)?;
    Ok(Line::List { name, last })
}

pub(crate) fn period<'t>(alloc: Global, words: &[&'t [u8]]) -> Result<Line<'t>, Unread>
    ensures { LineWith keywords.Period (seen words.now) result }
{
    let (number, words) = first(words)?;
    let words = counted(alloc, words)?;
    Ok(Line::Period { number, words })
}

pub(crate) fn rule<'t>(alloc: Global, words: &[&'t [u8]]) -> Result<Line<'t>, Unread>
    ensures { LineWith keywords.Rule (seen words.now) result }
{
    let (number, words) = first(words)?;
    let rule = written_rule(alloc, words)?;
    Ok(Line::Rule { number, rule })
}

pub(crate) fn draft<'t>(alloc: Global, words: &[&'t [u8]]) -> Result<Line<'t>, Unread>
    ensures { LineWith keywords.Draft (seen words.now) result }
{
    let (rule, words) = first(words)?;
    let table = counted(alloc, words)?;
    Ok(Line::Draft { rule, table })
}

pub(crate) fn ask<'t>(words: &[&'t [u8]]) -> Result<Line<'t>, Unread>
    ensures { LineWith keywords.Ask (seen words.now) result }
{
    let [kind, counts @ ..] = words else {
        return Err(Unread::NoLine);
    };
    let kind = Kind::read(kind)?;
    let of = four(counts)?;
    Ok(Line::Ask { kind, of })
}

pub(crate) fn cost<'t>(words: &[&'t [u8]]) -> Result<Line<'t>, Unread>
    ensures { LineWith keywords.Cost (seen words.now) result }
{
    let (rule, words) = first(words)?;
    let of = four(words)?;
    Ok(Line::Cost { rule, of })
}

pub(crate) fn making(alloc: Global, words: &[&[u8]]) -> Result<Making, Unread>
    ensures { Read MakingInTypes making_words (seen words.now) result }
{
    let [kind, words @ ..] = words else {
        return Err(Unread::NoLine);
    };
    match Kind::read(kind)? {
        Kind::Listed => Ok(Making::Listed(listed(alloc, words)?)),
        Kind::Head => Ok(Making::Head(four(words)?)),
        Kind::Peak => {
            let (front, price) = last(words)?;
            let words = counted(alloc, front)?;
            Ok(Making::Peak { words, price })
        }
        Kind::Check => {
            let words = counted(alloc, words)?;
            Ok(Making::Check { words })
        }
    }
}

fn written_rule(alloc: Global, words: &[&[u8]]) -> Result<WrittenRule, Unread>
    ensures { Read RuleInTypes rule_words (seen words.now) result }
{
    let [kind, words @ ..] = words else {
        return Err(Unread::NoLine);
    };
    match RuleKind::read(kind)? {
        RuleKind::Listed => Ok(WrittenRule::Listed(listed(alloc, words)?)),
        RuleKind::Head => Ok(WrittenRule::Head(four(words)?)),
        RuleKind::Sum => {
            let (left, words) = first(words)?;
            let right = one(words)?;
            Ok(WrittenRule::Sum { left, right })
        }
        RuleKind::Grid => {
            let period = one(words)?;
            Ok(WrittenRule::Grid { period })
        }
        RuleKind::Peak => {
            let (period, words) = first(words)?;
            let price = one(words)?;
            Ok(WrittenRule::Peak { period, price })
        }
    }
}

fn listed(alloc: Global, words: &[&[u8]]) -> Result<Listed, Unread>
    ensures { Read ListedInTypes listed_words (seen words.now) result }
{
    let Some((largest, table)) = words.split_at_checked(4) else {
        return Err(Unread::NoLine);
    };
    let largest = four(largest)?;
    let table = counted(alloc, table)?;
    Ok(Listed { largest, table })
}
