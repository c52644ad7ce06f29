// Calls that should not be refused.
ghost use Rattle.std.specs.Prelude.{◌≡◌, IfOk, IfErr, IsErr, Ok};

use anyhow::anyhow;
use refusal::Refusal;

// What a call answered. If it was refused, this tells what would have been done and under which number it was refused, and ends with an error.
pub(crate) fn unless_refused<T: Drop, R: Refusal>(
    rt: &impl Print,
    answer: Result<T, R>,
    attempt: &str,
    error: &'static str,
) -> anyhow::Result<T>
    ensures taken { IfOk answer (λ value. result ≡ Ok value) }
    ensures refused { IfErr answer (λ _. IsErr result) }
{
    answer.or_else(|refusal| {
        println!(rt; "{attempt} Refused, number {}.", refusal.number())?;
        Err(anyhow!("{error}"))
    })
}
