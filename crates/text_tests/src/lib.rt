//! Tests of the reader, of the answer table and of texts that are served, in a crate of their own, since a crate with tests is proved twice.
#![tactic(auto)]

#[cfg(test)]
mod served;
#[cfg(test)]
mod tests;
