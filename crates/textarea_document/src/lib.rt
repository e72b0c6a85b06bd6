//! A document: lines with a cursor, an anchor, atomic ranges and a history; the targets of cursor
//! moves; and the one function that makes every edit.
#![tactic(auto)]

pub mod document;
pub mod ends;
pub mod laws;
mod paragraphs;
mod words;

pub use document::Document;
