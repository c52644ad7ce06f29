// The program that counts again what the annexe lists: reads an input, and prints each share by counts and by all groups, or why there are none.
#![tactic(auto)]

use listing::read_input;
use recounting::count_again;

fn main(rt: HostRuntime) -> anyhow::Result<()> {
    let input = read_input(rt.alloc(), rt.stdin())?;
    match count_again(input.as_slice()) {
        Ok(recount) => print!(rt; "{recount}")?,
        Err(refusal) => print!(rt; "{refusal}")?,
    }
    Ok(())
}
