// Written by tools/calls from crates/textarea_calls/calls.txt.
//! The exports that only pass their arguments and return their result.

pub mod appearance;
pub mod edits;
pub mod history;
pub mod ranges;
pub mod removals;
pub mod selection;
pub mod settings;
pub mod styles;
