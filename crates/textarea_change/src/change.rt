//! A change of a text.

/// What the columns of changes count.
#[derive(Clone, Copy, Debug, PartialEq, Eq)]
pub enum ChangeUnit {
    /// Characters.
    Characters,
    /// The bytes of the text in UTF-8.
    Bytes,
    /// The units of the text in UTF-16: two for a character past U+FFFF, and else one.
    Utf16,
}

/// A change of a text. Its positions are in the text just before it, as (row, column), and count
/// from 0; what the columns count is the unit of the log.
#[derive(Debug, Drop, PartialEq, Eq)]
pub struct TextChange {
    /// Where the change begins.
    pub start: (usize, usize),
    /// Where the text ends that the change removes; at its start if it removes none.
    pub end: (usize, usize),
    /// The inserted text, one string for each line, at least one. A line feed in a string is a
    /// character of its line.
    pub lines: Vec<String>,
}
