//! Controllers of stars and splitters, on hubs and on fabrics: each is a sound start, and each serves the worked cases.
#![tactic(auto)]

mod lent;
mod made;
#[cfg(test)]
mod tests;
