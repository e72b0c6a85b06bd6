//! What each call does to a text area, as definitions, and laws of these.

pub mod laws;
