//! Plain data of a terminal's screen: colours, styles, styled text, rectangles, blocks, cells.
#![tactic(auto)]

pub mod laws;
pub mod screen;
