// The written forms of atomic ranges and of their errors.
use crate::written::{check_forms, check_rejected, is_form};
use std::process::Abort;
use std::test::Fail;
use textarea_data::range::AtomicRangeRejectReason::*;
use textarea_data::range::{
    AtomicCursorBias, AtomicDeleteDirection, AtomicRange, AtomicRangeError,
    AtomicRangeRejectReason, RejectedAtomicRange,
};

const RANGE: AtomicRange = AtomicRange {
    row: 1,
    start_col: 2,
    end_col: 5,
};

const FAR_RANGE: AtomicRange = AtomicRange {
    row: 0,
    start_col: usize::MAX,
    end_col: 0,
};

static RANGES: [(AtomicRange, &str); 2] = [
    (RANGE, r#"{"row":1,"start_col":2,"end_col":5}"#),
    (
        FAR_RANGE,
        r#"{"row":0,"start_col":18446744073709551615,"end_col":0}"#,
    ),
];

static NO_RANGES: [&str; 4] = [
    "{}",
    r#"{"row":1,"start_col":2}"#,
    r#"{"row":-1,"start_col":2,"end_col":5}"#,
    r#"{"row":"1","start_col":2,"end_col":5}"#,
];

static BIASES: [(AtomicCursorBias, &str); 2] = [
    (AtomicCursorBias::Backward, r#""Backward""#),
    (AtomicCursorBias::Forward, r#""Forward""#),
];

static DIRECTIONS: [(AtomicDeleteDirection, &str); 2] = [
    (AtomicDeleteDirection::Backward, r#""Backward""#),
    (AtomicDeleteDirection::Forward, r#""Forward""#),
];

static NO_SIDES: [&str; 3] = [r#""Back""#, r#""forward""#, "0"];

static REASONS: [(AtomicRangeRejectReason, &str); 4] = [
    (Empty, r#""Empty""#),
    (RowOutOfBounds, r#""RowOutOfBounds""#),
    (ColumnOutOfBounds, r#""ColumnOutOfBounds""#),
    (OverlapsPrevious, r#""OverlapsPrevious""#),
];

static NO_REASONS: [&str; 3] = [r#""Overlaps""#, r#""empty""#, "null"];

const REJECTED: RejectedAtomicRange = RejectedAtomicRange {
    range: RANGE,
    reason: RowOutOfBounds,
};

const REJECTED_FORM: &str =
    r#"{"range":{"row":1,"start_col":2,"end_col":5},"reason":"RowOutOfBounds"}"#;

static REJECTED_RANGES: [(RejectedAtomicRange, &str); 1] = [(REJECTED, REJECTED_FORM)];

static NO_REJECTED: [&str; 2] = [
    r#"{"row":1,"start_col":2,"end_col":5}"#,
    r#"{"range":{"row":1,"start_col":2,"end_col":5},"reason":"Row"}"#,
];

static NO_ERRORS: [&str; 3] = ["{}", r#"{"rejected":{}}"#, r#"{"rejected":[1]}"#];

const REJECTED_TWICE_FORM: &str = "{\"rejected\":[\
    {\"range\":{\"row\":1,\"start_col\":2,\"end_col\":5},\"reason\":\"RowOutOfBounds\"},\
    {\"range\":{\"row\":1,\"start_col\":2,\"end_col\":5},\"reason\":\"RowOutOfBounds\"}]}";

const PRINTED: &str = "rejected atomic ranges: row 1, columns 2..5 (it is empty); \
    row 1, columns 2..5 (the text has no such row); \
    row 1, columns 2..5 (the row has no such columns); \
    row 1, columns 2..5 (it overlaps the range before it)";

/// Checks the forms of these tables, the texts of errors, and of errors with no range and with two.
pub fn check(rt: &(impl Abort + AllocGlobal)) -> Result<(), Fail> {
    check_forms(rt, &RANGES, &NO_RANGES);
    check_forms(rt, &BIASES, &NO_SIDES);
    check_forms(rt, &DIRECTIONS, &NO_SIDES);
    check_forms(rt, &REASONS, &NO_REASONS);
    check_forms(rt, &REJECTED_RANGES, &NO_REJECTED);
    check_rejected::<AtomicRangeError>(rt, &NO_ERRORS);
    check_error(rt, &[], r#"{"rejected":[]}"#)?;
    check_error(rt, &[REJECTED, REJECTED], REJECTED_TWICE_FORM)?;
    check_printed(rt)
}

// Checks the text of an error that has each reason.
fn check_printed(rt: &(impl Abort + AllocGlobal)) -> Result<(), Fail> {
    let mut rejected = Vec::new(rt.alloc());
    for (reason, _) in &REASONS {
        let range = RANGE;
        let reason = *reason;
        rejected.push(RejectedAtomicRange { range, reason })?;
    }
    let error = AtomicRangeError { rejected };
    assert!(rt; format!(in rt.alloc(); "{error}")?.as_str() == PRINTED);
    Ok(())
}

// Checks that the error has this form and that a copy is equal to it.
fn check_error(
    rt: &(impl Abort + AllocGlobal),
    rejected: &[RejectedAtomicRange],
    form: &'static str,
) -> Result<(), Fail> {
    let rejected = rejected.to_vec(rt.alloc())?;
    let error = AtomicRangeError { rejected };
    assert!(rt; is_form(rt.alloc(), &error, form));
    assert!(rt; error.clone()? == error);
    Ok(())
}
