//! Shared by the test programs: cases, commands that scripts don't have, and comparisons.
#![tactic(auto)]

pub mod compare;
pub mod differences;
pub mod end;
pub mod expand;
pub mod lines;
pub mod report;
pub mod stop;
pub mod styles;
pub mod tally;
pub mod transcript;
pub mod words;
