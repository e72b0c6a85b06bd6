//! The calls of a text area and of a terminal, for C.
#![tactic(auto)]

pub mod calls;
pub mod editor;
pub mod handle;
pub mod incoming;
mod loose;
pub mod outgoing;
mod stored;
pub mod terminal;
