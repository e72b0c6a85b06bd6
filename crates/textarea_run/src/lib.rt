//! Runs of calls on a text area: one call, or a list of calls, and the buffer that they draw into.
#![tactic(auto)]

pub mod inputs;
pub mod perform;
pub mod printing;
pub mod run;
mod special;
mod topics;

pub use run::RunEnd;
