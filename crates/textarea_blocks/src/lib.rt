//! The visual rows of lines, in blocks of lines, and sums over them; not how lines are wrapped.
#![tactic(auto)]

pub mod blocks;
pub mod sums;
