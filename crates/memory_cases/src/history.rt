//! Calls on lines and a history of their edits, made one after another and judged.
mod calls;
mod kinds;
mod plans;
mod recorded;

use crate::history::calls::{Call, Place, call_of};
use crate::history::kinds::line_count_in;
use crate::history::recorded::{BothWays, Recorded};
use std::alloc::{AllocError, Global};
use textarea_test_support::end::{Difference, End, EndReason, same};
use textarea_test_support::expand::timed;

/// The number of remembered edits of a new history.
const MAXIMUM: usize = 50;

/// More undos than any judged case has edits.
const MOST: usize = 200;

/// The result of a call.
#[derive(Drop)]
enum HistoryResult {
    Lines,
    Cursor(Option<Place>),
    BothWays(BothWays),
}

/// Makes the calls of a case on one empty line. If they are judged, all is copied before each call.
pub fn make_row(alloc: Global, row: &str, is_judged: bool) -> End {
    let mut made = 0;
    let stop = make_lines(alloc, row, is_judged, &mut made).err();
    End { made, stop }
}

fn make_lines(
    alloc: Global,
    row: &str,
    is_judged: bool,
    made: &mut usize,
) -> Result<(), EndReason> {
    let mut recorded = Recorded::new(line_count_in(alloc, "")?, MAXIMUM);
    for line in row.lines() {
        make_line(alloc, &mut recorded, line, is_judged, made)?;
    }
    Ok(())
}

// Makes the calls of a line n times.
fn make_line(
    alloc: Global,
    recorded: &mut Recorded,
    line: &str,
    is_judged: bool,
    made: &mut usize,
) -> Result<(), EndReason> {
    let (times, calls) = timed(line);
    for _ in 0..times {
        for call in calls.split("; ") {
            make_written(alloc, recorded, call, is_judged)?;
            *made = made.saturating_add(1);
        }
    }
    Ok(())
}

// Makes a call, and compares its result if the line has one.
fn make_written(
    alloc: Global,
    recorded: &mut Recorded,
    line: &str,
    is_judged: bool,
) -> Result<(), EndReason> {
    let (words, wanted) = match line.split_once(" => ") {
        Some((words, wanted)) => (words, Some(wanted)),
        None => (line, None),
    };
    let Some(call) = call_of(words) else {
        return Err(EndReason::Wrong(Difference::Script));
    };
    let answer = if is_judged {
        judge_call(alloc, recorded, call)?
    } else {
        make_granted(alloc, recorded, call)?
    };
    match wanted {
        Some(wanted) => {
            let found = printed(alloc, recorded, &answer)?;
            same(found.as_str() == wanted, Difference::Answer)
        }
        None => Ok(()),
    }
}

// Makes a call that must not run out of memory.
fn make_granted(
    alloc: Global,
    recorded: &mut Recorded,
    call: Call<'_>,
) -> Result<HistoryResult, EndReason> {
    match make(alloc, recorded, call) {
        Ok(answer) => Ok(answer),
        Err(_) => Err(EndReason::Wrong(Difference::Memory)),
    }
}

// Makes a call. If it runs out of memory, all must be as in the copy.
fn judge_call(
    alloc: Global,
    recorded: &mut Recorded,
    call: Call<'_>,
) -> Result<HistoryResult, EndReason> {
    let mut copy = recorded.copy()?;
    match make(alloc, recorded, call) {
        Ok(answer) => Ok(answer),
        Err(_) => {
            compare(recorded, &mut copy)?;
            Err(EndReason::RanOut)
        }
    }
}

fn make(
    alloc: Global,
    recorded: &mut Recorded,
    call: Call<'_>,
) -> Result<HistoryResult, AllocError> {
    match call {
        Call::Lines(text) => {
            *recorded = Recorded::new(line_count_in(alloc, text)?, MAXIMUM);
            Ok(HistoryResult::Lines)
        }
        Call::Maximum(maximum) => {
            recorded.restart(maximum);
            Ok(HistoryResult::Lines)
        }
        Call::BreakRun => {
            recorded.break_run();
            Ok(HistoryResult::Lines)
        }
        Call::Edit(edit, typed) => {
            recorded.edit(edit, typed)?;
            Ok(HistoryResult::Lines)
        }
        Call::BothWays(place, text) => Ok(HistoryResult::BothWays(recorded.both_ways(
            place, text,
        )?)),
        Call::Undo => Ok(HistoryResult::Cursor(recorded.undo()?)),
        Call::Redo => Ok(HistoryResult::Cursor(recorded.redo()?)),
    }
}

fn printed(
    alloc: Global,
    recorded: &Recorded,
    answer: &HistoryResult,
) -> Result<String, AllocError> {
    match answer {
        HistoryResult::Lines => joined(alloc, recorded.lines()),
        HistoryResult::Cursor(None) => String::from_str(alloc, "none"),
        HistoryResult::Cursor(Some((row, column))) => {
            let lines = joined(alloc, recorded.lines())?;
            format!(in alloc; "{row} {column} {lines}")
        }
        HistoryResult::BothWays(ways) => {
            let there = joined(alloc, ways.there.as_slice())?;
            let back = joined(alloc, ways.back.as_slice())?;
            format!(in alloc; "{there}, {back}")
        }
    }
}

fn joined(alloc: Global, lines: &[String]) -> Result<String, AllocError> {
    let mut text = String::new(alloc);
    for (row, line) in lines.iter().enumerate() {
        if row != 0 {
            text.push('|')?;
        }
        text.push_str(line.as_str())?;
    }
    Ok(text)
}

// Compares the lines, also after each further undo and then after each redo.
fn compare(recorded: &mut Recorded, copy: &mut Recorded) -> Result<(), EndReason> {
    same(recorded.lines() == copy.lines(), Difference::Lines)?;
    compare_edits(recorded, copy, Difference::Undo)?;
    compare_edits(recorded, copy, Difference::Redo)
}

fn compare_edits(
    recorded: &mut Recorded,
    copy: &mut Recorded,
    way: Difference,
) -> Result<(), EndReason> {
    for _ in 0..MOST {
        let cursor = go(recorded, way)?;
        same(cursor == go(copy, way)?, way)?;
        same(recorded.lines() == copy.lines(), way)?;
    }
    Ok(())
}

fn go(recorded: &mut Recorded, way: Difference) -> Result<Option<Place>, AllocError> {
    match way {
        Difference::Undo => recorded.undo(),
        _ => recorded.redo(),
    }
}
