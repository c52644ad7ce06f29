// What comes of a line is told behind it.
ghost use Rattle.std.specs.Prelude.{◌≡◌, ◌++◌, Some, OnOk, OnErr, IfErr};
ghost use Rattle.std.specs.IoError.{error_kind};
ghost use Rattle.answers.specs.Texts.{outcome_text, table_text};

use crate::outcome::Outcome;
use std::io::ErrorKind;
use std::{fmt, io};

// Writes what came of the line with this number behind that line: all of it, or nothing if there is no memory for it.
pub fn tell(out: &mut Vec<u8>, number: usize, outcome: &Outcome) -> io::Result<()>
    ensures told { OnOk result (out.new.items ≡ out.old.items ++ outcome_text number outcome.now) }
    ensures unchanged { OnErr result (out.new.items ≡ out.old.items) }
    ensures memory { IfErr result (λ e. error_kind e ≡ ErrorKind.OutOfMemory) }
{
    let told = Told { number, outcome };
    let text = format!(in *out.allocator(); "{told}")?;
    out.extend_from_slice(text.as_bytes())?;
    Ok(())
}

#[derive(Clone, Copy)]
struct Told<'a> {
    number: usize,
    outcome: &'a Outcome,
}

impl fmt::Display for Told<'_> {
    ghost output = { λ told. Some (outcome_text told.number told.outcome.now) };

    fn fmt<W: fmt::Write>(&self, f: &mut fmt::Formatter<W>) -> fmt::Result {
        let number = self.number;
        match self.outcome {
            Outcome::Taken => writeln!(f),
            Outcome::Unreadable => writeln!(f, " = unreadable {number}"),
            Outcome::Answered {
                answer,
                table,
                account,
            } => {
                writeln!(f, " = {answer}")?;
                if let Some(table) = table {
                    let table = Table {
                        entries: table.as_slice(),
                    };
                    write!(f, "{table}")?;
                }
                if let Some(account) = account {
                    write!(f, "{account}")?;
                }
                Ok(())
            }
        }
    }
}

#[derive(Clone, Copy)]
struct Table<'a> {
    entries: &'a [i64],
}

impl fmt::Display for Table<'_> {
    ghost output = { λ table. Some (table_text table.entries.now) };

    fn fmt<W: fmt::Write>(&self, f: &mut fmt::Formatter<W>) -> fmt::Result {
        let count = self.entries.len();
        write!(f, "table {count}")?;
        for entry in self.entries {
            write!(f, " {entry}")?;
        }
        writeln!(f)
    }
}
