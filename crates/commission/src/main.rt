//! Commissions a splitter with both makes of plant: checks, makes, lights, moves, and compares what is heard.
#![tactic(auto)]

mod compare;
mod job;
mod report;

fn main(rt: HostRuntime) -> anyhow::Result<()> {
    report::run(&rt)
}
