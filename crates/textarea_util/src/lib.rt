//! Shared by the crates of an editor: the size limit of a text, and replacing items of a vector.
#![tactic(auto)]

pub mod limit;
pub mod replace;
