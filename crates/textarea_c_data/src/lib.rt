//! What C passes and gets: structs, slices, numbers and statuses, and the values that they stand for.
#![tactic(auto)]

pub mod area;
pub mod cell;
pub mod color;
pub mod event;
pub mod input;
pub mod lines;
pub mod measure;
pub mod modes;
pub mod numbers;
pub mod range;
pub mod read_styled;
pub mod slices;
pub mod spans;
pub mod status;
pub mod style;
pub mod write_styled;
