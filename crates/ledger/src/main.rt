// The program that replays a ledger: reads lists of calls, and prints every line with its answer.
#![tactic(auto)]

use replaying::{read_all, replay};
use std::io;
use std::io::Write;

fn main(rt: HostRuntime) -> anyhow::Result<()> {
    let input = read_all(rt.alloc(), rt.stdin())?;
    let told = replay(rt.alloc(), input.as_slice())?;
    io::writer(&rt).write_all(told.as_slice())?;
    Ok(())
}
