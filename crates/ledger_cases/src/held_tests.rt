// What is made and held, one of each kind.
use crate::asking::check;
use std::test::Fail;

// Before anything is made: no costs but of nobody, no fees, and a half-hour in which nothing costs anything.
#[test]
fn what_is_held_at_first(rt: HostRuntime) -> Result<(), Fail> {
    check(
        &rt,
        "list a 0\n\
         ask listed 0 0 0 0 = ok 0\n\
         ask listed 1 0 0 0 = fault 11 0\n\
         ask head 6 6 6 6 = ok 0\n\
         ask peak 3 0 0 0 = ok 0\n\
         ask peak 0 1 0 0 = fault 12 0\n\
         ask check 24 0 0 0 = ok 0\n\
         ask check 0 0 0 1 = fault 12 0\n\
         end\n",
    )
}

#[test]
fn made_and_refused(rt: HostRuntime) -> Result<(), Fail> {
    check(
        &rt,
        "list a 0\n\
         make head 10 20 30 40 = ok\n\
         make head 0 1000001 0 1000001 = refused 41 2\n\
         ask head 1 1 1 1 = ok 100\n\
         make listed 1 0 0 0 2 0 -7 = ok\n\
         make listed 1 0 0 0 2 0 500000001 = refused 34 1\n\
         make listed 1 0 0 0 1 0 = refused 32\n\
         make check 2 268435457 4026531842 = refused 22 1\n\
         ask listed 1 0 0 0 = ok -7\n\
         ask listed 25 0 0 0 = refused 8\n\
         end\n",
    )
}

// The worked period: one home costs 1335 by the grid, and 180 by the peak at a price of 100. A peak rule's words are looked at before its price, and its period is not the one that `check` holds.
#[test]
fn periods_made_and_refused(rt: HostRuntime) -> Result<(), Fail> {
    let period =
        "14 268435458 536870913 805306368 822084584 838861300 855638106 872415322 1073744824 1342177780 1610612936 1879049192 1610613636 1879048192";
    let transcript = format!(in rt.alloc();
        "list a 0\n\
         make peak {period} 4026531853 100 = ok\n\
         ask peak 1 0 0 0 = ok 180\n\
         ask check 1 0 0 0 = ok 0\n\
         make check {period} 4026531853 = ok\n\
         ask check 1 0 0 0 = ok 1335\n\
         make peak {period} 4026531852 -1 = refused 25 13\n\
         make peak {period} 4026531853 -1 = refused 42\n\
         make check {period} 4026531852 = refused 25 13\n\
         ask peak 1 0 0 0 = ok 180\n\
         ask check 1 0 0 0 = ok 1335\n\
         end\n"
    )?;
    check(&rt, transcript.as_str())
}
