//! Prints the results of calls.
use crate::answer::Answer;
use std::fmt;
use textarea_change::TextChange;
use textarea_data::range::{AtomicRange, AtomicRangeRejectReason};

impl fmt::Display for Answer {
    fn fmt<W: fmt::Write>(&self, f: &mut fmt::Formatter<W>) -> fmt::Result {
        match self {
            Answer::Done => write!(f, "ok"),
            Answer::Flag(flag) => write!(f, "{flag}"),
            Answer::Text(text) => write!(f, "text {}", Escaped(text.as_str())),
            Answer::Range(None) => write!(f, "none"),
            Answer::Range(Some(range)) => write!(f, "{}", Printed(*range)),
            Answer::Rejected(rejected) => {
                write!(f, "rejected")?;
                for item in rejected {
                    write!(f, " {} {}", Printed(item.range), reason_name(item.reason))?;
                }
                Ok(())
            }
            Answer::Measured(measure) => write!(
                f,
                "{} {} {} {}",
                measure.content_rows, measure.preferred_rows, measure.min_rows, measure.max_rows
            ),
            Answer::PatternRejected => write!(f, "pattern"),
            Answer::Place(None) | Answer::Position(None) | Answer::NumberIfAny(None) => write!(
                f,
                "none"
            ),
            Answer::Place(Some((row, column))) => write!(f, "{row} {column}"),
            Answer::Position(Some(position)) => write!(f, "{} {}", position.x, position.y),
            Answer::Style(style) => write!(f, "{style:?}"),
            Answer::Character(character) => write!(f, "{character:?}"),
            Answer::CursorRenderMode(mode) => write!(f, "{mode:?}"),
            Answer::CursorUnit(unit) => write!(f, "{unit:?}"),
            Answer::Alignment(alignment) => write!(f, "{alignment:?}"),
            Answer::Number(number) | Answer::NumberIfAny(Some(number)) => write!(f, "{number}"),
            Answer::Cursor((row, column)) => write!(f, "{row} {column}"),
            Answer::Selection(ends) => write!(f, "{ends:?}"),
            Answer::StyleIfVisible(style) => write!(f, "{style:?}"),
            Answer::WrapMode(mode) => write!(f, "{mode:?}"),
            Answer::Changes(changes) => write_changes(f, changes.as_slice()),
        }
    }
}

// Writes each change as its start, its end, and the inserted lines, each after a bar.
fn write_changes<W: fmt::Write>(f: &mut fmt::Formatter<W>, changes: &[TextChange]) -> fmt::Result {
    write!(f, "changes")?;
    for change in changes {
        let ((row, column), end) = (change.start, change.end);
        write!(f, " {row}:{column}..{}:{}", end.0, end.1)?;
        for line in &change.lines {
            write!(f, "|{}", Escaped(line.as_str()))?;
        }
    }
    Ok(())
}

// A range, printed as its row, its first column and the column after its last one.
#[derive(Clone, Copy)]
struct Printed(AtomicRange);

impl fmt::Display for Printed {
    fn fmt<W: fmt::Write>(&self, f: &mut fmt::Formatter<W>) -> fmt::Result {
        let AtomicRange {
            row,
            start_col,
            end_col,
        } = self.0;
        write!(f, "{row}:{start_col}..{end_col}")
    }
}

fn reason_name(reason: AtomicRangeRejectReason) -> &'static str {
    match reason {
        AtomicRangeRejectReason::Empty => "Empty",
        AtomicRangeRejectReason::RowOutOfBounds => "RowOutOfBounds",
        AtomicRangeRejectReason::ColumnOutOfBounds => "ColumnOutOfBounds",
        AtomicRangeRejectReason::OverlapsPrevious => "OverlapsPrevious",
    }
}

/// A text, printed with the escapes `\\`, `\n`, `\r` and `\t`.
#[derive(Clone, Copy)]
pub struct Escaped<'a>(pub &'a str);

impl fmt::Display for Escaped<'_> {
    fn fmt<W: fmt::Write>(&self, f: &mut fmt::Formatter<W>) -> fmt::Result {
        for part in self.0.split_inclusive(['\\', '\n', '\r', '\t']) {
            write_part(f, part)?;
        }
        Ok(())
    }
}

// Writes a text of which at most the last character has an escape.
fn write_part<W: fmt::Write>(f: &mut fmt::Formatter<W>, part: &str) -> fmt::Result {
    let mut front = part.chars();
    let escape = match front.next_back() {
        Some('\\') => "\\\\",
        Some('\n') => "\\n",
        Some('\r') => "\\r",
        Some('\t') => "\\t",
        _ => return f.write_str(part),
    };
    f.write_str(front.as_str())?;
    f.write_str(escape)
}
