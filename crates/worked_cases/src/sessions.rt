//! Sessions of the modal editor, and lines that are no script.
use std::alloc::Global;
use std::str::from_utf8;
use textarea_script::{modal, script, streams};
use textarea_test_support::lines::keys_and_rest;
use textarea_test_support::stop::{Stop, compare};

/// Runs a session, and compares its whole output.
pub fn check(alloc: Global, case: &str) -> Result<(), Stop> {
    let (keys, wanted) = keys_and_rest(alloc, case)?;
    check_keys(alloc, keys.as_str(), wanted)
}

fn check_keys(alloc: Global, keys: &str, wanted: &str) -> Result<(), Stop> {
    let mut output = Vec::new(alloc);
    let mut errors = Vec::new(alloc);
    let status = modal::serve(alloc, &mut keys.as_bytes(), &mut output, &mut errors);
    check_end(alloc, status, output.as_slice(), errors.as_slice(), wanted)
}

/// Runs a script, and compares its whole output.
pub fn check_script(alloc: Global, text: &str, wanted: &str) -> Result<(), Stop> {
    let mut output = Vec::new(alloc);
    let mut errors = Vec::new(alloc);
    let status = script::serve(alloc, &mut text.as_bytes(), &mut output, &mut errors);
    check_end(alloc, status, output.as_slice(), errors.as_slice(), wanted)
}

/// Runs each line as a script. Each must be unparsed.
pub fn check_unread(alloc: Global, case: &str) -> Result<(), Stop> {
    for line in case.lines() {
        check_unread_line(alloc, line)?;
    }
    Ok(())
}

fn check_unread_line(alloc: Global, line: &str) -> Result<(), Stop> {
    let mut output = Vec::new(alloc);
    let mut errors = Vec::new(alloc);
    let status = script::serve(alloc, &mut line.as_bytes(), &mut output, &mut errors);
    if status == streams::UNPARSED
        && output.is_empty()
        && errors.as_slice() == b"line 1: not read\n".as_slice()
    {
        return Ok(());
    }
    let found = String::from_str(alloc, line)?;
    compare(found, "a line that isn't read")
}

// Compares the output with the expected one. The status must be `DONE`, and `errors` empty.
fn check_end(
    alloc: Global,
    status: u8,
    output: &[u8],
    errors: &[u8],
    wanted: &str,
) -> Result<(), Stop> {
    let printed = from_utf8(output).unwrap_or("no UTF-8");
    if status == streams::DONE && errors.is_empty() {
        return compare(String::from_str(alloc, printed)?, wanted);
    }
    compare(format!(in alloc; "status {status}\n{printed}")?, wanted)
}
