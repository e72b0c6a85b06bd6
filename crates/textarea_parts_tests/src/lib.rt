//! Worked cases of the crates below the text area. Of texts and rows: words, fragments, ranges,
//! searches, visual rows, and lines with these. Of plain data: defaults and conversions, the forms
//! that serde writes, inputs as keys of maps, the actions of keys, and calls that can't be made. Of
//! the screen: rectangles, styles and texts, block and placeholder, the spans of a row, drawn rows
//! and blocks, and the viewport with caret and hit test.
#![tactic(auto)]

#[cfg(test)]
mod actions;
#[cfg(test)]
mod blocks;
#[cfg(test)]
mod calls;
#[cfg(test)]
mod cases;
#[cfg(test)]
mod fragments;
#[cfg(test)]
mod hashed;
#[cfg(test)]
mod highlight;
#[cfg(test)]
mod keys;
#[cfg(test)]
mod lines;
#[cfg(test)]
mod map;
#[cfg(test)]
mod moves;
#[cfg(test)]
mod paint;
#[cfg(test)]
mod plain;
#[cfg(test)]
mod range_forms;
#[cfg(test)]
mod ranges;
#[cfg(test)]
mod screen;
#[cfg(test)]
mod search;
#[cfg(test)]
mod surround;
#[cfg(test)]
mod texts;
#[cfg(test)]
mod viewport;
#[cfg(test)]
mod words;
#[cfg(test)]
mod wrap;
#[cfg(test)]
mod written;
