//! Examples and edges of both makes of plant, of slips and of the change-over.
#![tactic(auto)]

#[cfg(test)]
mod tests;
