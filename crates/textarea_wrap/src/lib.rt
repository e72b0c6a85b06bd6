//! Wrapping of one line: columns, the visual rows at a width, laws of these, and layout widths.
#![tactic(auto)]

pub mod count;
mod ghost_count;
pub mod laws;
pub mod layout;
pub mod rows;
pub mod wrap;
