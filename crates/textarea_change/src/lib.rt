//! What changed in a text, as plain data.
#![tactic(auto)]

pub mod change;

pub use change::{ChangeUnit, TextChange};
