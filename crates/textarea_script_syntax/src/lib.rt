//! The lines of scripts as commands: their table, arguments and escapes, and the calls that they mean.

#![tactic(auto)]

mod arguments;
mod call_commands;
pub mod commands;
