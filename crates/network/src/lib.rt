//! Layouts of an optical network: sites in groups, the ports of each, and the fibres that each session lights.
#![tactic(auto)]

pub mod check;
pub mod layout;
mod path;
pub mod refusal;
pub mod splitter;
pub mod star;
#[cfg(test)]
mod tests;
