//! A terminal: the bytes that it sends as events, and cells as the bytes that it is sent.
#![tactic(auto)]

pub mod input;
pub mod output;
