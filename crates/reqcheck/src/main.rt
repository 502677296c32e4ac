//! Checks a request file from standard input, and prints the answer table for it.
#![tactic(auto)]

use text::check::check_text;
use text::input::read_input;

fn main(rt: HostRuntime) -> anyhow::Result<()> {
    let input = read_input(rt.alloc(), &mut rt.stdin())?;
    let table = check_text(rt.alloc(), input.as_slice())?;
    print!(rt; "{table}")?;
    Ok(())
}
