//! Validates a list of ranges against some lines.
ghost use Rattle.std.specs.Prelude.{◌≡◌, ◌++◌, length, None, IfOk, MatchResult, OnOk};
ghost use Rattle.textarea_ranges.specs.Prelude.{line_of, lines_of, AreAccepted, AreRejected, free_from, last_valid, reason, rejected_of, with_reason};

use crate::order::in_order;
use std::alloc::{AllocError, Global};
use textarea_data::range::{
    AtomicRange, AtomicRangeError, AtomicRangeRejectReason, RejectedAtomicRange,
};
use textarea_text::rows::column_count;

/// Returns the ranges by row and start if they are valid for the lines: each has a character and an
/// existing row, ends at or before its line's end, and shares no character with another. Else
/// returns the rejected ones by row and start, each with the first reason that applies. A range
/// overlaps if it starts before the end of the last valid range in its row.
pub fn validate(
    alloc: Global,
    ranges: Vec<AtomicRange>,
    lines: &[String],
) -> Result<Result<Vec<AtomicRange>, AtomicRangeError>, AllocError>
    ensures { IfOk result (λ outcome. MatchResult outcome
        (λ stored. AreAccepted (lines_of lines.now) ranges.items stored.items)
        (λ error. AreRejected (lines_of lines.now) ranges.items error.rejected.items)) }
{
    let ordered = in_order(ranges)?;
    let rejected = rejected_of(alloc, ordered.as_slice(), lines)?;
    if rejected.is_empty() {
        Ok(Ok(ordered))
    } else {
        Ok(Err(AtomicRangeError { rejected }))
    }
}

// A row, and the number of characters in its line: 0 if there is no such row.
#[derive(Clone, Copy)]
struct Counted {
    row: usize,
    columns: usize,
}

// The rejected ones of ordered ranges. The line of each row is counted only once.
fn rejected_of(
    alloc: Global,
    ranges: &[AtomicRange],
    lines: &[String],
) -> Result<Vec<RejectedAtomicRange>, AllocError>
    ensures { IfOk result (λ rejected.
        rejected.items ≡ rejected_of (lines_of lines.now) ranges.now) }
{
    let mut rejected = Vec::new(alloc);
    let mut last = None;
    // The row after the last one.
    let mut counted = Counted {
        row: lines.len(),
        columns: 0,
    };
    for range in ranges {
        counted = counted_row(lines, counted, range.row);
        last = judge(&mut rejected, last, *range, lines, counted.columns)?;
    }
    Ok(rejected)
}

// The row with its columns. Its line is counted if it is not the known one.
fn counted_row(lines: &[String], known: Counted, row: usize) -> Counted
    requires { known.columns ≡ length (line_of (lines_of lines.now) known.row) }
    ensures row { result.row ≡ row }
    ensures columns { result.columns ≡ length (line_of (lines_of lines.now) result.row) }
{
    if known.row == row {
        return known;
    }
    let columns = lines.get(row).map_or(0, |line| column_count(line.as_str()));
    Counted { row, columns }
}

// Lists the range if it is rejected. Its line has `columns` characters. Returns the last valid
// range after it: this one if it is not rejected.
fn judge(
    rejected: &mut Vec<RejectedAtomicRange>,
    last: Option<AtomicRange>,
    range: AtomicRange,
    lines: &[String],
    columns: usize,
) -> Result<Option<AtomicRange>, AllocError>
    requires { columns ≡ length (line_of (lines_of lines.now) range.row) }
    ensures last { IfOk result (λ after.
        after ≡ last_valid last range (reason (lines_of lines.now) last range)) }
    ensures listed { OnOk result (rejected.new.items
        ≡ rejected.old.items ++ with_reason range (reason (lines_of lines.now) last range)) }
{
    match reason(lines, columns, last, range) {
        Some(reason) => {
            rejected.push(RejectedAtomicRange { range, reason })?;
            Ok(last)
        }
        None => Ok(Some(range)),
    }
}

// Why the range, whose line has `columns` characters, is rejected after the last valid one.
fn reason(
    lines: &[String],
    columns: usize,
    last: Option<AtomicRange>,
    range: AtomicRange,
) -> Option<AtomicRangeRejectReason>
    requires { columns ≡ length (line_of (lines_of lines.now) range.row) }
    ensures { result ≡ reason (lines_of lines.now) last range }
{
    if range.start_col == range.end_col {
        return Some(AtomicRangeRejectReason::Empty);
    }
    if lines.len() <= range.row {
        return Some(AtomicRangeRejectReason::RowOutOfBounds);
    }
    if range.end_col < range.start_col || columns < range.end_col {
        return Some(AtomicRangeRejectReason::ColumnOutOfBounds);
    }
    if range.start_col < free_from(last, range.row) {
        return Some(AtomicRangeRejectReason::OverlapsPrevious);
    }
    None
}

// The row's first free column: the end of the last valid range, or 0 if that is in another row.
fn free_from(last: Option<AtomicRange>, row: usize) -> usize
    ensures { result ≡ free_from last row }
{
    match last {
        Some(range) if range.row == row => range.end_col,
        _ => 0,
    }
}
