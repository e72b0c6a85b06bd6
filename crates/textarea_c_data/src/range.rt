ghost use Rattle.std.specs.Prelude.{◌≡◌, ◌≢◌, map, IfOk, length};
ghost use Rattle.textarea_c_data.specs.Copied.{copied_over};
ghost use Rattle.textarea_c_data.specs.Ranges.{IsRangeOut, plain_range, plain_rejected, range_of};

use crate::slices::put;
use crate::status::{FALSE, OK};
use std::alloc::{AllocError, Global};
use textarea_data::range::{AtomicRange, AtomicRangeRejectReason, RejectedAtomicRange};

/// Characters of a line that are edited as a whole: from `start_col` up to, but not including,
/// `end_col`. Row and columns count from 0, columns in characters.
#[repr(C)]
#[derive(Clone, Copy, Debug, PartialEq, Eq)]
pub struct CRange {
    pub row: usize,
    pub start_col: usize,
    pub end_col: usize,
}

impl CRange {
    pub fn read(self) -> AtomicRange
        ensures { result ≡ range_of self }
    {
        AtomicRange {
            row: self.row,
            start_col: self.start_col,
            end_col: self.end_col,
        }
    }

    pub fn of(range: AtomicRange) -> CRange
        ensures { result ≡ plain_range range }
    {
        CRange {
            row: range.row,
            start_col: range.start_col,
            end_col: range.end_col,
        }
    }
}

/// Returns the ranges in a vector.
pub fn read_ranges(alloc: Global, ranges: &[CRange]) -> Result<Vec<AtomicRange>, AllocError>
    ensures { IfOk result (λ read. read.items ≡ map range_of ranges.now) }
{
    let mut read = Vec::new(alloc);
    for range in ranges {
        read.push(range.read())?;
    }
    Ok(read)
}

/// Writes the first ranges, as many as there is room for, and returns the number of all.
pub fn write_ranges(ranges: &[AtomicRange], out: &mut [CRange]) -> usize
    ensures needed { result ≡ length ranges.now }
    ensures out { out.new ≡ copied_over out.old (map plain_range ranges.now) }
{
    for (index, range) in ranges.iter().enumerate() {
        put(CRange::of(*range), index, out);
    }
    ranges.len()
}

/// Writes the range, if there is one, and returns the status.
pub fn write_range(found: Option<AtomicRange>, range: &mut CRange) -> u32
    ensures range { IsRangeOut found result range.new }
    ensures unwritten { result ≢ 0 → range.new ≡ range.old }
{
    match found {
        Some(found) => {
            *range = CRange::of(found);
            OK
        }
        None => FALSE,
    }
}

/// A rejected range, and why it is rejected: one of `TA_REASON_..`.
#[repr(C)]
#[derive(Clone, Copy, Debug, PartialEq, Eq)]
pub struct Rejected {
    pub range: CRange,
    pub reason: u32,
}

impl Rejected {
    pub fn of(rejected: RejectedAtomicRange) -> Rejected
        ensures { result ≡ plain_rejected rejected }
    {
        Rejected {
            range: CRange::of(rejected.range),
            reason: match rejected.reason {
                AtomicRangeRejectReason::Empty => 0,
                AtomicRangeRejectReason::RowOutOfBounds => 1,
                AtomicRangeRejectReason::ColumnOutOfBounds => 2,
                AtomicRangeRejectReason::OverlapsPrevious => 3,
            },
        }
    }
}

/// Writes the first rejected ranges, as many as there is room for, and returns the number of all.
pub fn write_rejected(rejected: &[RejectedAtomicRange], out: &mut [Rejected]) -> usize
    ensures needed { result ≡ length rejected.now }
    ensures out { out.new ≡ copied_over out.old (map plain_rejected rejected.now) }
{
    for (index, item) in rejected.iter().enumerate() {
        put(Rejected::of(*item), index, out);
    }
    rejected.len()
}
