//! Sheets: records of any one kind, in places handed over by the caller.
#![tactic(auto)]

pub mod extent;
pub mod records;
pub mod refusal;
pub mod sheet;
