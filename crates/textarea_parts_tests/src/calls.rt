// The debug text of calls and of their results, and a call that can't be made.
use std::test::Fail;
use textarea_calls::{Answer, Call};

// The texts themselves are not specified.
#[test]
fn calls_and_results_are_printed(rt: HostRuntime) -> Result<(), Fail> {
    let call = format!(in rt.alloc(); "{:?}", Call::InsertStr("ab"))?;
    assert!(rt; !call.is_empty());
    let printed = format!(in rt.alloc(); "{:?}", Answer::Cursor((1, 2)))?;
    assert!(rt; !printed.is_empty());
    Ok(())
}

// A text can't be replaced by an empty list of lines.
#[test]
fn a_call_that_can_not_be_made(rt: HostRuntime) {
    let cursor = (0, 0);
    assert!(rt; !Call::SetLines { lines: &[], cursor }.can_be_made());
}
