// Words that hold numbers of one type.
ghost use Rattle.std.specs.Prelude.{All};
ghost use Rattle.ledger_lines.specs.Lines.{seen};
ghost use Rattle.ledger_lines.specs.Reading.{Read, NoneRead, FirstRead, LastRead, single};
ghost use Rattle.ledger_lines.specs.Types.{FourOf};
ghost use Rattle.ledger_lines.specs.Words.{counted as counted_words, each};

use crate::numbers::{Number, read_number};
use crate::unread::Unread;
use std::alloc::Global;

// Nothing, where there are no words.
pub(crate) fn none(words: &[&[u8]]) -> Result<(), Unread>
    ensures { NoneRead (seen words.now) result }
{
    match words {
        [] => Ok(()),
        _ => Err(Unread::NoLine),
    }
}

pub(crate) fn one<N: Number>(words: &[&[u8]]) -> Result<N, Unread>
    ensures { Read N.of_type (single N.printed) (seen words.now) result }
{
    match words {
        [word] => read_number(word),
        _ => Err(Unread::NoLine),
    }
}

pub(crate) fn four<N: Number>(words: &[&[u8]]) -> Result<[N; 4], Unread>
    ensures { Read (FourOf N.of_type) (each N.printed) (seen words.now) result }
{
    let [one, two, three, four] = words else {
        return Err(Unread::NoLine);
    };
    Ok([
        read_number(one)?,
        read_number(two)?,
        read_number(three)?,
        read_number(four)?,
    ])
}

// How many numbers follow, and those numbers. Room is taken for what follows alone: so many may be any number.
pub(crate) fn counted<N: Number>(alloc: Global, words: &[&[u8]]) -> Result<Vec<N>, Unread>
    ensures { Read (λ numbers. All N.of_type numbers.items) (λ numbers. counted_words N.printed numbers.items) (seen words.now) result }
{
    let (count, words) = first::<usize>(words)?;
    if count != words.len() {
        return Err(Unread::NoLine);
    }
    all(alloc, words)
}

fn all<N: Number>(alloc: Global, words: &[&[u8]]) -> Result<Vec<N>, Unread>
    ensures { Read (λ numbers. All N.of_type numbers.items) (λ numbers. each N.printed numbers.items) (seen words.now) result }
{
    let mut numbers = Vec::new(alloc);
    for word in words {
        numbers.push(read_number(word)?)?;
    }
    Ok(numbers)
}

// A number, and the words behind it.
pub(crate) fn first<'w, 't, N: Number>(words: &'w [&'t [u8]]) -> Result<(N, &'w [&'t [u8]]), Unread>
    ensures { FirstRead N.of_type N.printed (seen words.now) result }
{
    let [word, rest @ ..] = words else {
        return Err(Unread::NoLine);
    };
    Ok((read_number(word)?, rest))
}

// A number, and the words before it.
pub(crate) fn last<'w, 't, N: Number>(words: &'w [&'t [u8]]) -> Result<(&'w [&'t [u8]], N), Unread>
    ensures { LastRead N.of_type N.printed (seen words.now) result }
{
    let [rest @ .., word] = words else {
        return Err(Unread::NoLine);
    };
    Ok((rest, read_number(word)?))
}
