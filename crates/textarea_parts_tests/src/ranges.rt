//! A list of ranges that is accepted, and one whose wrong ranges are rejected with their reasons.
use crate::texts::strings;
use std::alloc::{AllocError, Global};
use std::test::Fail;
use textarea_data::range::AtomicRangeRejectReason::*;
use textarea_data::range::{AtomicRange, AtomicRangeRejectReason, RejectedAtomicRange};
use textarea_ranges::validate::validate;

fn range_of(row: usize, start_col: usize, end_col: usize) -> AtomicRange {
    AtomicRange {
        row,
        start_col,
        end_col,
    }
}

fn rejected(range: AtomicRange, reason: AtomicRangeRejectReason) -> RejectedAtomicRange {
    RejectedAtomicRange { range, reason }
}

fn accepts(alloc: Global) -> Result<bool, AllocError> {
    let lines = strings(alloc, &["a犬c"])?;
    let input = vec![in alloc; range_of(0, 1, 3), range_of(0, 0, 1)]?;
    let expected = [range_of(0, 0, 1), range_of(0, 1, 3)];
    match validate(alloc, input, lines.as_slice())? {
        Ok(stored) => Ok(stored.as_slice() == expected.as_slice()),
        Err(_) => Ok(false),
    }
}

fn rejects(alloc: Global) -> Result<bool, AllocError> {
    let lines = strings(alloc, &["abc"])?;
    let input = vec![in alloc;
        range_of(0, 2, 4),
        range_of(1, 0, 1),
        range_of(0, 1, 1),
        range_of(0, 0, 2),
        range_of(0, 1, 3),
    ]?;
    let expected = [
        rejected(range_of(0, 1, 1), Empty),
        rejected(range_of(0, 1, 3), OverlapsPrevious),
        rejected(range_of(0, 2, 4), ColumnOutOfBounds),
        rejected(range_of(1, 0, 1), RowOutOfBounds),
    ];
    match validate(alloc, input, lines.as_slice())? {
        Ok(_) => Ok(false),
        Err(error) => Ok(error.rejected.as_slice() == expected.as_slice()),
    }
}

#[test]
fn accepted(rt: HostRuntime) -> Result<(), Fail> {
    assert!(rt; accepts(rt.alloc())?);
    Ok(())
}

#[test]
fn are_rejected(rt: HostRuntime) -> Result<(), Fail> {
    assert!(rt; rejects(rt.alloc())?);
    Ok(())
}
