// The program that the cabinet runs: reads an input, and prints its listing or why there is none.
#![tactic(auto)]

use listing::{list, read_input};

fn main(rt: HostRuntime) -> anyhow::Result<()> {
    let input = read_input(rt.alloc(), rt.stdin())?;
    match list(input.as_slice()) {
        Ok(listing) => print!(rt; "{listing}")?,
        Err(refusal) => print!(rt; "{refusal}")?,
    }
    Ok(())
}
