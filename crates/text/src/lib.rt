//! The text that goes in and out: what is read, the answer table, the check of a request file, and its service.
#![tactic(auto)]

pub mod answers;
mod calls;
pub mod check;
pub mod input;
mod list;
mod replies;
pub mod serve;
pub mod star;
