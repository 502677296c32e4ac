//! A controller: it decides from its book, drives its plant through slips, and keeps the law of runs.
#![tactic(auto)]

pub mod answer;
mod booked;
pub mod calls;
pub mod controller;
mod drive;
pub mod hearing;
pub mod making;
pub mod orders;
pub mod serve;
