// What can be asked of an account, and what of a draft.
use crate::asking::{check, check_unreadable};
use std::test::Fail;

#[test]
fn no_draft_stands(rt: HostRuntime) -> Result<(), Fail> {
    for line in ["post", "withdraw", "line 1", "line 9"] {
        check_unreadable(&rt, line)?;
    }
    Ok(())
}

#[test]
fn a_draft_stands(rt: HostRuntime) -> Result<(), Fail> {
    check(
        &rt,
        "list a 7\n\
         rule 0 head 150 0 0 0\n\
         join 1 = ok\n\
         account 1 0 0 0 0 7\n\
         draft 0 3 9 9 9 = ok 1 1 150 0 50\n\
         table 3 0 150 9\n\
         join 1 = unreadable 5\n\
         leave 1 = unreadable 6\n\
         draft 0 2 0 0 = unreadable 7\n\
         draft 5 0 = unreadable 8\n\
         line 1 = ok 150 2\n\
         line 2 = absent\n\
         line 5 = refused 1\n\
         cost 0 1 0 0 0 = ok 150\n\
         post = ok\n\
         account 1 0 0 0 50 8\n\
         end\n",
    )
}

// A list may end while a draft stands, and the next one begins with an account of its own.
#[test]
fn a_list_ends_on_a_draft(rt: HostRuntime) -> Result<(), Fail> {
    check(
        &rt,
        "list a 7\n\
         rule 0 head 150 0 0 0\n\
         join 1 = ok\n\
         account 1 0 0 0 0 7\n\
         draft 0 2 0 0 = ok 1 1 150 0 50\n\
         table 2 0 150\n\
         end\n\
         post = unreadable 6\n\
         list b 3\n\
         line 1 = unreadable 8\n\
         join 2 = ok\n\
         account 0 1 0 0 0 3\n\
         end\n",
    )
}

// Refused drafts, in their order, with what each leaves in the table.
#[test]
fn drafts_refused(rt: HostRuntime) -> Result<(), Fail> {
    check(
        &rt,
        "list a 65535\n\
         rule 0 listed 0 1 0 0 2 0 5\n\
         draft 0 0 = refused 4\n\
         table 0\n\
         account 0 0 0 0 0 65535\n\
         join 1 = ok\n\
         account 1 0 0 0 0 65535\n\
         draft 0 1 8 = refused 5\n\
         table 1 8\n\
         account 1 0 0 0 0 65535\n\
         draft 0 2 8 8 = refused 6\n\
         table 2 8 8\n\
         account 1 0 0 0 0 65535\n\
         end\n\
         list b 0\n\
         rule 0 listed 0 1 0 0 2 0 5\n\
         join 2 = ok\n\
         account 0 1 0 0 0 0\n\
         join 1 = ok\n\
         account 1 1 0 0 0 0\n\
         draft 0 5 8 8 8 8 8 = refused 7 1 11 0\n\
         table 5 0 8 8 8 8\n\
         account 1 1 0 0 0 0\n\
         end\n",
    )
}
