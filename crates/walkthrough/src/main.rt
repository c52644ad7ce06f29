// A walk through one account: by listed costs, by a sum of rules, and by the meter. Then the worked figures.
#![tactic(auto)]

use figures::tell_figures;
use narration::{by_lists_and_fees, by_the_meter};

fn main(rt: HostRuntime) -> anyhow::Result<()> {
    let account = by_lists_and_fees(&rt)?;
    let _account = by_the_meter(&rt, account)?;
    let _figures = tell_figures(&rt)?;
    Ok(())
}
