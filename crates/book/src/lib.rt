//! The book of a controller: the standing sessions, and what each call comes to on paper, with no plant at hand.
#![tactic(auto)]

pub mod admit;
pub mod book;
mod chain;
pub mod change;
mod choice;
mod course;
mod enter;
mod key;
pub mod list;
mod look;
mod masks;
mod moving;
mod orders;
mod questions;
pub mod refusal;
pub mod release;
mod setting;
mod told;
mod walk;
