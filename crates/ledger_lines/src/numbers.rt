// Numbers as they are printed.
ghost use Rattle.std.proofs.Common.{lit≤};
ghost use Rattle.std.specs.Fmt.{decimal, signed_decimal};
ghost use Rattle.std.specs.Int.{w32, w64};
ghost use Rattle.std.specs.Prelude.{ℕ, ◌<◌, ◌^◌, List, ◌↔◌, FitsSigned, IsTrue, Result};
ghost use Rattle.std.specs.declared.num.ParseIntError.{ParseIntError};
ghost use Rattle.ledger_lines.specs.Plain.{Plain, Parsed, Printed};
ghost use Rattle.ledger_lines.specs.Printing.{parsed_unsigned, printed_unsigned, parsed_signed, printed_signed};
ghost use Rattle.ledger_lines.specs.Reading.{Read};

use crate::unread::Unread;
use std::num::ParseIntError;
use std::str::{self, FromStr};

// A type of numbers, with the text that each is printed as.
pub(crate) trait Number: FromStr<Err = ParseIntError> + Drop {
    ghost of_type: { Self → Type 0 };

    ghost printed: { Self → List ℕ };

    // a plain word is parsed if a number of the type is printed as it
    ghost parsed: { (word : List ℕ) (outcome : Result Self ParseIntError) → Plain word → Self.from_str_gives word outcome → Parsed of_type printed word outcome };

    // and the text of a number is plain
    ghost plain: { (n : Self) → of_type n → Printed (printed n) };
}

// The number that is printed as a word.
pub(crate) fn read_number<N: Number>(word: &[u8]) -> Result<N, Unread>
    ensures { Read N.of_type N.printed word.now result }
{
    if !is_plain(word) {
        return Err(Unread::NoLine);
    }
    let Ok(text) = str::from_utf8(word) else {
        return Err(Unread::NoLine);
    };
    text.parse().map_err(|_| Unread::NoLine)
}

// Parsing would take more: a plus sign, and zeros that lead.
fn is_plain(word: &[u8]) -> bool
    ensures { IsTrue result ↔ Plain word.now }
{
    matches!(word, [b'0'] | [b'1'..=b'9', ..] | [b'-', b'1'..=b'9', ..])
}

impl Number for u8 {
    ghost of_type = { λ n. n < 2 ^ 8 };

    ghost printed = { decimal };

    ghost parsed = { λ word outcome plain given. parsed_unsigned ParseIntError 8 (lit≤ tt) word outcome plain given.0 };

    ghost plain = { λ n small. printed_unsigned 8 (lit≤ tt) n small };
}

impl Number for u16 {
    ghost of_type = { λ n. n < 2 ^ 16 };

    ghost printed = { decimal };

    ghost parsed = { λ word outcome plain given. parsed_unsigned ParseIntError 16 (lit≤ tt) word outcome plain given.0 };

    ghost plain = { λ n small. printed_unsigned 16 (lit≤ tt) n small };
}

impl Number for u32 {
    ghost of_type = { λ n. n < 2 ^ 32 };

    ghost printed = { decimal };

    ghost parsed = { λ word outcome plain given. parsed_unsigned ParseIntError 32 (lit≤ tt) word outcome plain given.0 };

    ghost plain = { λ n small. printed_unsigned 32 (lit≤ tt) n small };
}

impl Number for usize {
    ghost of_type = { λ n. n < 2 ^ 64 };

    ghost printed = { decimal };

    ghost parsed = { λ word outcome plain given. parsed_unsigned ParseIntError 64 (lit≤ tt) word outcome plain given.0 };

    ghost plain = { λ n small. printed_unsigned 64 (lit≤ tt) n small };
}

impl Number for i32 {
    ghost of_type = { FitsSigned w32 };

    ghost printed = { signed_decimal };

    ghost parsed = { λ word outcome plain given. parsed_signed ParseIntError w32 (lit≤ tt) word outcome plain given.0 };

    ghost plain = { λ n fits. printed_signed w32 (lit≤ tt) n fits };
}

impl Number for i64 {
    ghost of_type = { FitsSigned w64 };

    ghost printed = { signed_decimal };

    ghost parsed = { λ word outcome plain given. parsed_signed ParseIntError w64 (lit≤ tt) word outcome plain given.0 };

    ghost plain = { λ n fits. printed_signed w64 (lit≤ tt) n fits };
}
