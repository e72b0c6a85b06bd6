//! Atomic ranges: characters of a line that are edited as a whole.

ghost use Rattle.std.specs.Prelude.{◌≡◌, IfOk};

use serde::{Deserialize, Serialize};
use std::alloc::AllocError;
use std::error::Error;
use std::fmt;

/// Characters of a line that are edited as a whole: from `start_col` up to, but not including,
/// `end_col`. Row and columns count from 0, columns in characters.
#[derive(Clone, Copy, Debug, PartialEq, Eq, Serialize, Deserialize)]
pub struct AtomicRange {
    /// The line's row.
    pub row: usize,
    /// The column of the first character.
    pub start_col: usize,
    /// The column after the last character.
    pub end_col: usize,
}

/// The end to which a cursor strictly inside an atomic range moves.
#[derive(Clone, Copy, Debug, PartialEq, Eq, Serialize, Deserialize)]
pub enum AtomicCursorBias {
    /// To the range's start.
    Backward,
    /// To the range's end.
    Forward,
}

/// The side of the cursor on which an atomic range is looked for.
#[derive(Clone, Copy, Debug, PartialEq, Eq, Serialize, Deserialize)]
pub enum AtomicDeleteDirection {
    /// A range that starts before the cursor and ends at or after it.
    Backward,
    /// A range that starts at or before the cursor and ends after it.
    Forward,
}

/// Why an atomic range is rejected.
#[derive(Clone, Copy, Debug, PartialEq, Eq, Serialize, Deserialize)]
pub enum AtomicRangeRejectReason {
    /// It ends where it starts.
    Empty,
    /// The text has no such row.
    RowOutOfBounds,
    /// It starts after its end, or ends past its line's end.
    ColumnOutOfBounds,
    /// It starts before the end of the last valid range of its row.
    OverlapsPrevious,
}

/// A rejected atomic range, and why it is rejected.
#[derive(Clone, Copy, Debug, PartialEq, Eq, Serialize, Deserialize)]
pub struct RejectedAtomicRange {
    /// The range as it was passed in.
    pub range: AtomicRange,
    /// Why it is rejected.
    pub reason: AtomicRangeRejectReason,
}

/// The rejected ranges of a list. With at least one of them, the whole list is rejected.
#[derive(Debug, Drop, PartialEq, Eq, Serialize, Deserialize)]
pub struct AtomicRangeError {
    /// The rejected ranges, ordered by row and start.
    pub rejected: Vec<RejectedAtomicRange>,
}

impl AtomicRangeError {
    /// Returns a copy with the same ranges in the same order. Fails only when out of memory.
    pub fn clone(&self) -> Result<AtomicRangeError, AllocError>
        ensures { IfOk result (λ copy. copy.rejected.items ≡ self.now.rejected.items) }
    {
        Ok(AtomicRangeError {
            rejected: self.rejected.clone()?,
        })
    }
}

impl fmt::Display for AtomicRangeRejectReason {
    /// Writes the reason as a part of a sentence, such as `it is empty`.
    fn fmt<W: fmt::Write>(&self, f: &mut fmt::Formatter<W>) -> fmt::Result {
        f.write_str(match self {
            AtomicRangeRejectReason::Empty => "it is empty",
            AtomicRangeRejectReason::RowOutOfBounds => "the text has no such row",
            AtomicRangeRejectReason::ColumnOutOfBounds => "the row has no such columns",
            AtomicRangeRejectReason::OverlapsPrevious => "it overlaps the range before it",
        })
    }
}

impl fmt::Display for AtomicRangeError {
    /// Writes each rejected range and why it is rejected, in one line.
    fn fmt<W: fmt::Write>(&self, f: &mut fmt::Formatter<W>) -> fmt::Result {
        f.write_str("rejected atomic ranges")?;
        for (index, rejected) in self.rejected.iter().enumerate() {
            let RejectedAtomicRange { range, reason } = rejected;
            let separator = if index == 0 { ":" } else { ";" };
            write!(f, "{separator} row {}, columns ", range.row)?;
            write!(f, "{}..{} ({reason})", range.start_col, range.end_col)?;
        }
        Ok(())
    }
}

impl Error for AtomicRangeError {}
