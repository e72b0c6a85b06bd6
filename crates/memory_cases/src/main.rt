//! Makes the calls of cases. If memory runs out, judges what the failed call left; with enough
//! memory, prints the results.
//!
//! Standard input has cases, separated by empty lines. The first line of a case is its name, and
//! each further line a call, as a script command or a command of `words`. The calls are judged
//! (`judge`). The caller of the program makes allocations fail (`tools/refused-memory`).
//!
//! `<N TEXT>` is N copies of the text, where `#` is the copy's number from 0 and `;` a line feed.
//!
//! A case with a name `ample ..` isn't judged, and is made on small and large texts (`ample`).
//! There `times N LINE` makes a line N times, in one run if it is a script command; `row NAME`
//! makes the lines of another case; `apart NAME` makes them on a new text area, and each line of
//! `list each_call` on a clone of it; `lent COLUMNS LINES`, as the first line, sets the sizes of
//! values that calls borrow; ` => ` before a result checks a line's last call. A case `list ..`
//! isn't made by itself.
//!
//! A case `history ..` or `ample history ..` has no text area. Its calls, those of
//! `history::calls`, are made on one empty line and a history of 50 edits. ` => ` before a result
//! checks a call. `times N` before calls that are separated by `; ` makes them N times.
//!
//! A line is printed for each case. A line that can't be read fails its case. With enough memory, a
//! call that runs out of memory or rejects its pattern fails its case too.
//!
//! The exit status is 0 if no case failed, 1 if a stream failed, 3 if nothing was judged, because
//! memory ran out outside of the calls or there is no case, and 4 if a case failed.
#![tactic(auto)]

mod borrowed;
mod components;
mod enough_memory;
mod history;
mod judge;
mod keys;
mod script;
mod step;
mod words;

use crate::enough_memory::{Results, make_row};
use crate::judge::judge_row;
use std::io::Read;
use std::process::ExitCode;
use textarea_test_support::end::End;

const STREAM_FAILED: u8 = 1;

const NOT_JUDGED: u8 = 3;

fn main(rt: HostRuntime) -> ExitCode {
    let mut input = String::new(rt.alloc());
    if rt.stdin().read_to_string(&mut input).is_err() {
        return ExitCode::from(STREAM_FAILED);
    }
    ExitCode::from(tell(&rt, input.as_str()))
}

// Makes the cases, and prints the end of each.
fn tell(rt: &(impl Print + AllocGlobal), rows: &str) -> u8 {
    if rows.is_empty() {
        return NOT_JUDGED;
    }
    let mut status = 0;
    for row in rows.split("\n\n") {
        status = status.max(set_row_at(rt, rows, row));
    }
    status
}

// Makes a case of its kind, and prints its end.
fn set_row_at(rt: &(impl Print + AllocGlobal), rows: &str, row: &str) -> u8 {
    let (name, lines) = row.split_once('\n').unwrap_or((row, ""));
    let is_enough = name.starts_with("ample ");
    if name.starts_with("list ") {
        0
    } else if name.starts_with("history ") || name.starts_with("ample history ") {
        tell_end(rt, name, history::make_row(rt.alloc(), lines, !is_enough))
    } else if is_enough {
        tell_made(rt, rows, name, lines)
    } else {
        tell_end(rt, name, judge_row(rt.alloc(), lines))
    }
}

fn tell_made(rt: &(impl Print + AllocGlobal), rows: &str, name: &str, lines: &str) -> u8 {
    let Ok(mut results) = Results::new(rt.alloc()) else {
        return NOT_JUDGED;
    };
    let end = make_row(rt.alloc(), rows, lines, &mut results);
    let tally = results.tally;
    drop(results);
    if println!(rt; "{name}: {end}, {tally}").is_err() {
        return STREAM_FAILED;
    }
    end.status()
}

fn tell_end(rt: &impl Print, name: &str, end: End) -> u8 {
    if println!(rt; "{name}: {end}").is_err() {
        return STREAM_FAILED;
    }
    end.status()
}
