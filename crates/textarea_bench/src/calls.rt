//! Makes one call of a text area many times, to compare its cost with that from another language.
//!
//! A job has two fields with a space between them: the call, `insert_char`, `cursor` or `none`, and
//! the number of calls. `insert_char` types at the start of a short text.
use std::alloc::{AllocError, Global};
use tui_textarea::TextArea;

const TEXT: &str = "one two three\nfour\nfive six";

/// The call that is made.
#[derive(Clone, Copy)]
enum CallKind {
    InsertChar,
    Cursor,
    None,
}

/// The call, and how often it is made.
#[derive(Clone, Copy)]
pub struct CallJob {
    kind: CallKind,
    count: usize,
}

impl CallJob {
    pub fn parse(line: &str) -> Option<CallJob> {
        let (kind, count) = line.split_once(' ')?;
        Some(CallJob {
            kind: match kind {
                "insert_char" => CallKind::InsertChar,
                "cursor" => CallKind::Cursor,
                "none" => CallKind::None,
                _ => return None,
            },
            count: count.parse().ok()?,
        })
    }

    /// Makes the calls, and returns the sum of the columns of the cursors that they return and of the
    /// last cursor.
    pub fn run(&self, alloc: Global) -> Result<usize, AllocError> {
        let mut area = TextArea::from_text(alloc, TEXT)?;
        let sum = self.call(&mut area);
        drop(area);
        sum
    }

    // Makes the calls on a text area, and returns the sum of the columns of the cursors that they
    // return and of the last cursor.
    fn call(&self, area: &mut TextArea<'_>) -> Result<usize, AllocError> {
        let mut sum: usize = 0;
        for _ in 0..self.count {
            match self.kind {
                CallKind::InsertChar => area.insert_char('a')?,
                CallKind::Cursor => sum = sum.wrapping_add(area.cursor().1),
                CallKind::None => {}
            }
        }
        Ok(sum.wrapping_add(area.cursor().1))
    }
}
