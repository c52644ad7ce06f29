// A request, for programs that want the table of costs too: what is drafted or refused, by number, and what then stands in the table.
use crate::inputs::*;
use listing::{MOST_COSTS, MOST_WORDS, Request};
use refusal::Refusal;
use std::process::Abort;
use std::test::Fail;

// Drafting for an input must answer with this cost, or the number of this refusal, and fill the front of a table of 77s with these costs alone.
fn check_draft(
    rt: &impl Abort,
    input: &[u8],
    expected: Result<i64, u8>,
    costs: &[i64],
) -> Result<(), Fail> {
    // not zeros: what stood in the room before must not matter
    let mut room = [0xFFFFFFFF; MOST_WORDS];
    let mut table = [77; MOST_COSTS];
    let request = Request::read(input, &mut room).map_err(|refusal| refusal.number())?;
    let answer = request.draft(&mut table);
    let answer = answer.map(|draft| draft.cost());
    assert_eq!(rt; answer.map_err(|refusal| refusal.number()), expected);
    for (place, cost) in table.iter().enumerate() {
        assert_eq!(rt; *cost, costs.get(place).copied().unwrap_or(77));
    }
    Ok(())
}

// Nobody costs nothing, and the home 1335.
#[test]
fn a_draft_leaves_the_costs_of_all_groups(rt: HostRuntime) -> Result<(), Fail> {
    check_draft(&rt, &WORKED, Ok(1335), &[0, 1335])
}

// None to six homes of type 1 import 497 each, at 3,661 for 1,000, before the home of type 2 at place 7, for which there are no readings.
#[test]
fn a_draft_refused_with_7_leaves_the_costs_before_the_place(rt: HostRuntime) -> Result<(), Fail> {
    let costs = [0, 1819, 3639, 5458, 7278, 9097, 10917];
    check_draft(&rt, &A_TYPE_WITHOUT_READINGS, Err(7), &costs)
}

#[test]
fn a_draft_refused_with_4_leaves_the_table(rt: HostRuntime) -> Result<(), Fail> {
    let mut input = WORKED;
    input[0] = 0;
    check_draft(&rt, &input, Err(4), &[])
}
