// Periods and rules that a list notes.
use crate::asking::{PERIOD, check, check_unreadable};
use std::test::Fail;

#[test]
fn a_number_that_is_not_the_next(rt: HostRuntime) -> Result<(), Fail> {
    for line in [
        "rule 0 head 0 0 0 0",
        "rule 2 head 0 0 0 0",
        "rule 18446744073709551615 sum 0 0",
    ] {
        check_unreadable(&rt, line)?;
    }
    Ok(())
}

// Words that are a period, under a number that is taken, and under one too high.
#[test]
fn a_period_under_another_number(rt: HostRuntime) -> Result<(), Fail> {
    for number in [0u8, 2] {
        let line = format!(in rt.alloc(); "period {number} 12 {PERIOD}")?;
        check_unreadable(&rt, line.as_str())?;
    }
    Ok(())
}

#[test]
fn a_rule_or_a_period_that_there_is_not(rt: HostRuntime) -> Result<(), Fail> {
    for line in [
        "rule 1 sum 0 1",
        "rule 1 sum 1 0",
        "rule 1 sum 0 2",
        "rule 1 grid 1",
        "rule 1 peak 1 0",
        "draft 1 2 0 0",
        "cost 1 0 0 0 0",
        "cost 4096 0 0 0 0",
    ] {
        check_unreadable(&rt, line)?;
    }
    Ok(())
}

#[test]
fn what_its_own_making_refuses(rt: HostRuntime) -> Result<(), Fail> {
    for line in [
        "period 1 0",
        "period 1 1 268435457",
        "rule 1 listed 25 0 0 0 1 0",
        "rule 1 listed 1 0 0 0 1 0",
        "rule 1 listed 0 0 0 0 1 1",
        "rule 1 listed 1 0 0 0 2 0 500000001",
        "rule 1 head 0 0 0 1000001",
        "rule 1 peak 0 1000001",
        "rule 1 peak 0 -1",
    ] {
        check_unreadable(&rt, line)?;
    }
    Ok(())
}

// Nothing changes: the next rule has the number still.
#[test]
fn a_rule_behind_an_unreadable_one(rt: HostRuntime) -> Result<(), Fail> {
    check(
        &rt,
        "list a 0\n\
         rule 0 head 0 0 0 1000001 = unreadable 2\n\
         rule 0 head 0 0 0 1000000\n\
         rule 1 sum 0 0\n\
         cost 1 0 0 0 3 = ok 6000000\n\
         end\n",
    )
}

// Periods and rules are those of their list.
#[test]
fn a_second_list_has_noted_nothing(rt: HostRuntime) -> Result<(), Fail> {
    check(
        &rt,
        "list a 0\n\
         rule 0 head 1 1 1 1\n\
         end\n\
         list b 0\n\
         cost 0 1 0 0 0 = unreadable 5\n\
         rule 0 head 2 2 2 2\n\
         cost 0 1 0 0 0 = ok 2\n\
         end\n",
    )
}
