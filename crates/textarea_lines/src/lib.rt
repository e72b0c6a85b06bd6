//! The lines of a text with their visual rows, changed together.
#![tactic(auto)]

pub mod laws;
mod origins;
mod rewrap;
mod rows_at_once;
pub mod settings;
pub mod text_layout;
