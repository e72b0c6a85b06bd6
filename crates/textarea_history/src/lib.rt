//! The edits of a text, and their history with runs of typing, undo and redo.
#![tactic(auto)]

pub mod edit;
pub mod history;
pub mod laws;
mod texts;
