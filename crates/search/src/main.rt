//! An independent check by running: every short list of admissions and releases on small stars and splitters, against a
//! plain search for a wavelength table and against what both makes of plant hear.
#![tactic(auto)]

mod explore;
mod play;
mod shape;
mod table;

use crate::explore::explore_all;

fn main(rt: HostRuntime) -> anyhow::Result<()> {
    let tally = explore_all(rt.alloc())?;
    println!(rt; "{tally}")?;
    Ok(())
}
