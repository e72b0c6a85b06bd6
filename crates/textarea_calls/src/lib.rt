//! The calls of a text area as data: their keys, topics, and results.
#![tactic(auto)]

pub mod action;
pub mod answer;
pub mod call;
mod edits;
pub mod keys;
pub mod laws;
mod possible;
pub mod printing;
pub mod topic;

pub use action::Action;
pub use answer::Answer;
pub use call::Call;
