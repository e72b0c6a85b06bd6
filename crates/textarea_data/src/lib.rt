//! Plain data, mostly with serde's traits: keys, cursor moves, positions, scrolling, atomic ranges,
//! and measured heights.
#![tactic(auto)]

pub mod cursor;
pub mod input;
pub mod laws;
pub mod measure;
pub mod range;
pub mod scroll;
