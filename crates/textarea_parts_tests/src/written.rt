// The forms that serde writes and reads.
use crate::{keys, moves, range_forms};
use serde::{Deserialize, Serialize};
use std::alloc::Global;
use std::process::Abort;
use std::test::Fail;

/// Returns whether the value is written in this form, and the form is read as the value.
pub fn is_form<'a, T>(alloc: Global, value: &T, form: &'a str) -> bool
where
    T: Serialize + Deserialize<'a> + PartialEq + Drop,
{
    let is_written = match serde_json::to_string(alloc, value) {
        Ok(written) => written.as_str() == form,
        Err(_) => false,
    };
    let read: Result<T, _> = serde_json::from_str(alloc, form);
    match read {
        Ok(read) => is_written && read == *value,
        Err(_) => false,
    }
}

fn is_rejected<'a, T>(alloc: Global, form: &'a str) -> bool
where
    T: Deserialize<'a> + Drop,
{
    let read: Result<T, _> = serde_json::from_str(alloc, form);
    read.is_err()
}

/// Checks that none of these is read as a value.
pub fn check_rejected<'a, T>(rt: &(impl Abort + AllocGlobal), others: &[&'a str])
where
    T: Deserialize<'a> + Drop,
{
    for form in others {
        assert!(rt; is_rejected::<T>(rt.alloc(), form), "{form}");
    }
}

/// Checks that values are written in their forms, that these are read as the values, and that the
/// others are not read.
pub fn check_forms<'a, T>(
    rt: &(impl Abort + AllocGlobal),
    forms: &[(T, &'a str)],
    others: &[&'a str],
)
where
    T: Serialize + Deserialize<'a> + PartialEq + Drop,
{
    for (value, form) in forms {
        assert!(rt; is_form(rt.alloc(), value, form), "{form}");
    }
    check_rejected::<T>(rt, others);
}

#[test]
fn forms(rt: HostRuntime) -> Result<(), Fail> {
    keys::check(&rt)?;
    moves::check(&rt);
    range_forms::check(&rt)
}
