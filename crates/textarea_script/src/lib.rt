//! Runs scripts and modal editor sessions: reads their bytes, and prints the end of the run.
#![tactic(auto)]

pub mod modal;
pub mod program_arguments;
pub mod script;
pub mod streams;
