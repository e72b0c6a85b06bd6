//! Draws into the cells of a screen: lines of styled text, row by row, and blocks.
#![tactic(auto)]

pub mod laws;
pub mod paint;
