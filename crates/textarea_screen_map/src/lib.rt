//! The visual rows of all lines, replaced line by line, and look-ups both ways.
#![tactic(auto)]

mod columns;
pub mod laws;
pub mod layout;
pub mod line_marks;
mod offsets;
pub mod screen_map;
pub mod view;
pub mod wrapped_blocks;
