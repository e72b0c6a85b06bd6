//! A summary of the results of a case with enough memory.
use crate::end::{Difference, EndReason};
use std::fmt;
use textarea_calls::Answer;

/// The counted and summed results of calls, and the state after them.
#[derive(Default, Clone, Copy)]
pub struct Tally {
    pub calls: usize,
    yanked: usize,
    rows: usize,
    /// The number of lines of the text area.
    pub lines: usize,
    /// The cursor's position (row, column).
    pub cursor: (usize, usize),
}

impl Tally {
    /// Adds a result. A rejected pattern is a failure.
    pub fn take(&mut self, answer: &Answer) -> Result<(), EndReason> {
        match answer {
            Answer::Text(text) => self.yanked = self.yanked.saturating_add(text.len()),
            Answer::Measured(measure) => {
                self.rows = self.rows.saturating_add(usize::from(measure.content_rows));
            }
            Answer::PatternRejected => return Err(EndReason::Wrong(Difference::Pattern)),
            _ => {}
        }
        self.calls = self.calls.saturating_add(1);
        Ok(())
    }
}

impl fmt::Display for Tally {
    fn fmt<W: fmt::Write>(&self, f: &mut fmt::Formatter<W>) -> fmt::Result {
        let (row, column) = self.cursor;
        write!(f, "{} bytes yanked, ", self.yanked)?;
        write!(f, "{} rows measured; ", self.rows)?;
        write!(f, "{} lines, cursor {row} {column}", self.lines)
    }
}
