// Asks what a ledger is answered with.
use replaying::replay;
use std::process::Abort;
use std::str;
use std::test::Fail;

// The twelve words of a period that is taken.
pub(crate) static PERIOD: &str =
    "268435457 536870913 805306368 822083584 838860800 855638017 872415233 1073741824 1342177280 1610612736 1879048192 4026531851";

// A transcript has the lines of a ledger, each with its answer. Replaying those lines must print the transcript, and nothing else.
pub(crate) fn check(rt: &(impl Abort + AllocGlobal), transcript: &str) -> Result<(), Fail> {
    let mut input = String::new(rt.alloc());
    for line in transcript.lines() {
        if let Some(asked) = asked(line) {
            input.push_str(asked)?;
            input.push_str("\n")?;
        }
    }
    let told = replay(rt.alloc(), input.as_bytes())?;
    assert_eq!(rt; str::from_utf8(told.as_slice()), Ok(transcript));
    Ok(())
}

// The line of a ledger that a line of a transcript answers. A table or an account is printed behind an answer, and was no line.
fn asked(line: &str) -> Option<&str> {
    match line.rsplit_once(" = ") {
        Some((asked, _)) => Some(asked),
        None if line.starts_with("table ") || line.starts_with("account ") => None,
        None => Some(line),
    }
}

// An input must be answered with these bytes, and no others. For inputs that no transcript tells: without a line feed at the end, with bytes that are no text,
// or with ` = ` in a line that has no answer.
pub(crate) fn check_printed(
    rt: &(impl Abort + AllocGlobal),
    input: &[u8],
    expected: &[u8],
) -> Result<(), Fail> {
    let told = replay(rt.alloc(), input)?;
    assert_eq!(rt; told.as_slice(), expected);
    Ok(())
}

// A line must be unreadable inside a list, with rule 0 and period 0 noted, and an account of one home of type 1.
pub(crate) fn check_unreadable(rt: &(impl Abort + AllocGlobal), line: &str) -> Result<(), Fail> {
    let transcript = format!(in rt.alloc();
        "list one 7\n\
         rule 0 head 1 2 3 4\n\
         period 0 12 {PERIOD}\n\
         join 1 = ok\n\
         account 1 0 0 0 0 7\n\
         {line} = unreadable 5\n\
         end\n"
    )?;
    check(rt, transcript.as_str())
}
