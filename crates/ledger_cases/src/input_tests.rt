// Inputs as they come.
use crate::asking::{check, check_printed};
use replaying::{read_all, replay};
use std::test::Fail;

#[test]
fn nothing_at_all(rt: HostRuntime) -> Result<(), Fail> {
    check(&rt, "")
}

#[test]
fn empty_lines(rt: HostRuntime) -> Result<(), Fail> {
    check(&rt, " = unreadable 1\n = unreadable 2\n")
}

// The last line need not end in a line feed; what is printed of it does.
#[test]
fn a_last_line_without_a_line_feed(rt: HostRuntime) -> Result<(), Fail> {
    check_printed(&rt, b"list a 0\nend", b"list a 0\nend\n")
}

#[test]
fn carriage_returns(rt: HostRuntime) -> Result<(), Fail> {
    check(
        &rt,
        "list a 0\r = unreadable 1\n\
         end\r = unreadable 2\n",
    )
}

// Bytes that are no text are printed as they came.
#[test]
fn bytes_that_are_no_text(rt: HostRuntime) -> Result<(), Fail> {
    check_printed(
        &rt,
        b"list \xff\xfe 0\n\
          join \xff\n\
          join 1\xff\n\
          \x80\n\
          end\n",
        b"list \xff\xfe 0\n\
          join \xff = unreadable 2\n\
          join 1\xff = unreadable 3\n\
          \x80 = unreadable 4\n\
          end\n",
    )
}

#[test]
fn a_name_may_be_any_word(rt: HostRuntime) -> Result<(), Fail> {
    check(
        &rt,
        "list list 0\n\
         end\n\
         list 12 2\n\
         end\n",
    )?;
    check_printed(&rt, b"list = 1\nend\n", b"list = 1\nend\n")
}

// Between two spaces stands a word without letters.
#[test]
fn a_list_without_a_name(rt: HostRuntime) -> Result<(), Fail> {
    check(
        &rt,
        "list  0 = unreadable 1\n\
         join 1 = unreadable 2\n",
    )
}

// A list has room for 4,096 rules, each of which a sum can name twice; one more is unreadable.
#[test]
fn as_many_rules_as_a_list_can_have(rt: HostRuntime) -> Result<(), Fail> {
    let alloc = rt.alloc();
    let mut transcript = String::from_str(alloc, "list a 0\nrule 0 listed 0 0 0 0 1 0\n")?;
    for number in 1..4096u64 {
        let part = number - 1;
        let line = format!(in alloc; "rule {number} sum {part} {part}\n")?;
        transcript.push_str(line.as_str())?;
    }
    transcript.push_str(
        "rule 4096 sum 4095 4095 = unreadable 4098\n\
         cost 4095 0 0 0 0 = ok 0\n\
         cost 4095 1 0 0 0 = fault 11 255\n",
    )?;
    check(&rt, transcript.as_str())
}

#[test]
fn all_that_a_reader_gives_is_read(rt: HostRuntime) -> Result<(), Fail> {
    let bytes: &[u8] = b"list a 0\nend\n";
    let input = read_all(rt.alloc(), bytes)?;
    let told = replay(rt.alloc(), input.as_slice())?;
    assert_eq!(rt; told.as_slice(), bytes);
    Ok(())
}
