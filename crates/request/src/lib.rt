//! Requests, read from the text that tenants hand in.
#![tactic(auto)]

pub mod act;
mod bytes;
pub mod fault;
pub mod layer;
mod lines;
mod number;
pub mod reader;
mod words;
