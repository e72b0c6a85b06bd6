//! Runs worked cases, and compares their results with the expected ones; and judges frames of
//! hostile texts.
//!
//! Standard input has sections. A line `== KIND TITLE` begins one; cases follow, separated by empty
//! lines. Comments, lines with `# `, may begin a case. `\u{20}` is a blank at a line's end. Kinds:
//!
//! - `transcripts`: calls, their results, and states of the text area between them (`transcript`).
//! - `unread`: lines that scripts can't have.
//! - `sessions`: after `> `, keys of the modal editor with the escapes of scripts; then the output.
//! - `runs`: after `> `, keys of the modal editor with Ctrl and Alt; then the end state (`runs`).
//! - `frames`: calls, and texts after which they are made; each frame's caret is judged (`frames`).
//!
//! A line is printed for each section and for each case that fails, or for each text of `frames`.
//! The exit status is 0 if no case fails, 1 if a stream failed, 3 if memory ran out or a text can't
//! be read, and 4 if a case or a frame fails or a case can't be read.
#![tactic(auto)]

mod frames;
mod runs;
mod sessions;
mod transcript;

use std::alloc::Global;
use std::io::Read;
use std::process::ExitCode;
use textarea_test_support::lines;
use textarea_test_support::stop::Stop;

const STREAM_FAILED: u8 = 1;

const NOT_JUDGED: u8 = 3;

fn main(rt: HostRuntime) -> ExitCode {
    let mut input = String::new(rt.alloc());
    if rt.stdin().read_to_string(&mut input).is_err() {
        return ExitCode::from(STREAM_FAILED);
    }
    let mut status = 0;
    for section in input.split("\n== ") {
        let section = section.strip_prefix("== ").unwrap_or(section);
        status = status.max(tell_section(&rt, section));
    }
    ExitCode::from(status)
}

// Runs the cases of a section, and prints what is to be printed of its kind.
fn tell_section(rt: &(impl Print + AllocGlobal), section: &str) -> u8 {
    let (head, cases) = section.split_once("\n\n").unwrap_or((section, ""));
    let (kind, title) = head.split_once(' ').unwrap_or((head, ""));
    let cases = cases.trim_end_matches('\n');
    if kind == "frames" {
        return frames::tell(rt, cases);
    }
    tell_cases(rt, kind, title, cases)
}

// Runs the cases, and prints the number of those that pass.
fn tell_cases(rt: &(impl Print + AllocGlobal), kind: &str, title: &str, cases: &str) -> u8 {
    let (mut status, mut well) = (0, 0usize);
    for case in cases.split("\n\n") {
        match check(rt.alloc(), kind, case) {
            Ok(()) => well = well.saturating_add(1),
            Err(stop) => status = status.max(tell_stop(rt, case, &stop)),
        }
    }
    if println!(rt; "{title}: {well} as written").is_err() {
        return STREAM_FAILED;
    }
    status
}

fn tell_stop(rt: &impl Print, case: &str, stop: &Stop) -> u8 {
    if println!(rt; "not as written:\n{case}\n{stop}").is_err() {
        return STREAM_FAILED;
    }
    stop.status()
}

// Runs a case of this kind.
fn check(alloc: Global, kind: &str, case: &str) -> Result<(), Stop> {
    let case = lines::plain(alloc, case)?;
    let case = case.as_str();
    match kind {
        "transcripts" => transcript::check(alloc, case),
        "unread" => sessions::check_unread(alloc, case),
        "sessions" => sessions::check(alloc, case),
        "runs" => runs::check(alloc, case),
        _ => Err(Stop::Unparsed),
    }
}
