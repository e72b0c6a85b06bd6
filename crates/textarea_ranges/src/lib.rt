//! The rules of atomic ranges, which are characters of a line that are edited as a whole.
#![tactic(auto)]

pub mod laws;
pub mod lookup;
pub mod moved;
mod order;
pub mod validate;
