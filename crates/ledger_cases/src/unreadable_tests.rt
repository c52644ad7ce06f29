// Lines that are of no known form, or have a number that is outside its type or not written as numbers are.
use crate::asking::{PERIOD, check, check_unreadable};
use std::test::Fail;

// No known form.

#[test]
fn another_word(rt: HostRuntime) -> Result<(), Fail> {
    for line in [
        "hello",
        "JOIN 1",
        "Join 1",
        "joins 1",
        "join1",
        "draw 0 0",
        "ask fees 1 2 3 4",
        "ask grid 1 2 3 4",
        "rule 1 tail 1 2 3 4",
        "rule 1 check 1 2",
        "make grid 0",
        "make sum 0 0",
        "",
    ] {
        check_unreadable(&rt, line)?;
    }
    Ok(())
}

#[test]
fn a_word_too_many_or_too_few(rt: HostRuntime) -> Result<(), Fail> {
    for line in [
        "join",
        "join 1 2",
        "post 1",
        "withdraw 0",
        "compose 1 2 3",
        "compose 1 2 3 4 5",
        "cost 0 1 2 3",
        "ask",
        "ask listed 1 2 3",
        "rule 1",
        "rule 1 head 1 2 3",
        "rule 1 listed 1 2 3",
        "rule 1 sum 0",
        "make",
        "make peak",
        "period",
        "end 1",
        "draft 0",
        "line",
    ] {
        check_unreadable(&rt, line)?;
    }
    Ok(())
}

#[test]
fn spaces_where_none_belong(rt: HostRuntime) -> Result<(), Fail> {
    for line in [
        " join 1", "join 1 ", "join  1", "join ", "join\t1", " ", "post ",
    ] {
        check_unreadable(&rt, line)?;
    }
    Ok(())
}

// What a ledger prints is no input: neither answers, nor tables and accounts.
#[test]
fn what_a_ledger_prints(rt: HostRuntime) -> Result<(), Fail> {
    for line in ["join 1 = ok", "account 1 0 0 0 0 7", "table 2 0 1"] {
        check_unreadable(&rt, line)?;
    }
    Ok(())
}

#[test]
fn not_as_many_numbers_as_it_says(rt: HostRuntime) -> Result<(), Fail> {
    for line in [
        "draft 0 2 0",
        "draft 0 2 0 0 0",
        "draft 0 0 0",
        "rule 1 listed 0 0 0 0 2 0",
        "make listed 0 0 0 0 1",
        "make check 1",
        "make check 1 1 1",
        "make peak 1 5",
        "make peak 2 8 9",
        "draft 0 18446744073709551615 0",
    ] {
        check_unreadable(&rt, line)?;
    }
    Ok(())
}

// Period 1 would be taken if it said twelve.
#[test]
fn not_as_many_words_of_a_period_as_it_says(rt: HostRuntime) -> Result<(), Fail> {
    for count in [0, 11, 13, u64::MAX] {
        let line = format!(in rt.alloc(); "period 1 {count} {PERIOD}")?;
        check_unreadable(&rt, line.as_str())?;
    }
    Ok(())
}

// Numbers.

#[test]
fn numbers_that_are_not_written_so(rt: HostRuntime) -> Result<(), Fail> {
    for line in [
        "join +1",
        "join 01",
        "join -1",
        "join -0",
        "join 1.0",
        "join 0x1",
        "join one",
        "join 1_0",
        "rule 1 head 0 0 0 -0",
        "rule 1 head 0 0 0 +5",
        "rule 1 head 0 0 0 -",
        "rule 1 head 0 0 0 --1",
    ] {
        check_unreadable(&rt, line)?;
    }
    Ok(())
}

#[test]
fn numbers_outside_their_types(rt: HostRuntime) -> Result<(), Fail> {
    for line in [
        "join 256",
        "leave 256",
        "compose 256 0 0 0",
        "make listed 256 0 0 0 1 0",
        "make listed 0 0 0 0 1 2147483648",
        "make listed 0 0 0 0 1 -2147483649",
        "make head 2147483648 0 0 0",
        "make head 0 0 0 -2147483649",
        "make check 1 -1",
        "make check 1 4294967296",
        "make peak 1 0 9223372036854775808",
        "draft 0 1 9223372036854775808",
        "draft 0 1 -9223372036854775809",
    ] {
        check_unreadable(&rt, line)?;
    }
    Ok(())
}

// The last numbers inside their types are read, and get their answers.
#[test]
fn the_last_numbers_of_their_types(rt: HostRuntime) -> Result<(), Fail> {
    check(
        &rt,
        "list a 65535\n\
         join 255 = refused 1\n\
         account 0 0 0 0 0 65535\n\
         make listed 255 255 255 255 0 = refused 31\n\
         make listed 0 0 0 0 1 2147483647 = refused 33\n\
         make listed 0 0 0 0 1 -2147483648 = refused 33\n\
         make head 0 0 0 -2147483648 = refused 41 4\n\
         make peak 1 4294967295 9223372036854775807 = refused 21 0\n\
         end\n",
    )
}

#[test]
fn a_list_after_no_number_that_a_bill_can_have(rt: HostRuntime) -> Result<(), Fail> {
    check(
        &rt,
        "list a 65536 = unreadable 1\n\
         list = unreadable 2\n\
         list a = unreadable 3\n\
         end = unreadable 4\n",
    )
}
