//! Serves a request file from standard input on a star of four sites, and prints the answers and the list of the sessions that then stand.
#![tactic(auto)]

use text::input::read_input;
use text::star::star_text;

fn main(rt: HostRuntime) -> anyhow::Result<()> {
    let input = read_input(rt.alloc(), &mut rt.stdin())?;
    let answers = star_text(rt.alloc(), input.as_slice())?;
    print!(rt; "{answers}")?;
    Ok(())
}
