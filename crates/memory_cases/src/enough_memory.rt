//! The steps of a case with enough memory, made one after another on texts of all sizes.
use crate::borrowed::borrowed_and_rest;
use crate::script::run_script;
use crate::step::{Step, make};
use crate::words::{script_of, step_of};
use std::alloc::{AllocError, Global};
use textarea_calls::Answer;
use textarea_test_support::differences::result_text;
use textarea_test_support::end::{Difference, End, EndReason, same};
use textarea_test_support::expand::{expanded, repeated, timed};
use textarea_test_support::tally::Tally;
use textarea_test_support::words::Borrows;
use tui_textarea::{Buffer, Rect, TextArea};

/// The width of the buffer that the steps draw into, in columns.
const COLUMNS: u16 = 220;

/// The height of that buffer, in rows.
const ROWS: u16 = 50;

/// The case with the calls that are made on clones.
const CALLS: &str = "list each_call";

/// The buffer that the steps draw into, and their results.
#[derive(Drop)]
pub struct Results {
    buffer: Buffer,
    pub tally: Tally,
    /// The last result of the last line.
    last: String,
}

impl Results {
    /// Returns an empty buffer without results.
    pub fn new(alloc: Global) -> Result<Results, AllocError> {
        Ok(Results {
            buffer: Buffer::empty(alloc, Rect::new(0, 0, COLUMNS, ROWS))?,
            tally: Tally::default(),
            last: String::new(alloc),
        })
    }

    // Adds a result, which is now the last one.
    fn take_last(&mut self, alloc: Global, answer: &Answer) -> Result<(), EndReason> {
        self.last = result_text(alloc, answer)?;
        self.tally.take(answer)
    }
}

/// Makes the steps of a case's lines on an empty text area. Its lines may name the other cases.
pub fn make_row(alloc: Global, rows: &str, row: &str, results: &mut Results) -> End {
    let stop = make_lines(alloc, rows, row, results).err();
    End {
        made: results.tally.calls,
        stop,
    }
}

fn make_lines(
    alloc: Global,
    rows: &str,
    row: &str,
    results: &mut Results,
) -> Result<(), EndReason> {
    let (borrows, row) = borrowed_and_rest(alloc, row)?;
    let made = make_text(alloc, rows, row, &borrows, results);
    drop(borrows);
    made
}

fn make_text(
    alloc: Global,
    rows: &str,
    row: &str,
    borrows: &Borrows,
    results: &mut Results,
) -> Result<(), EndReason> {
    let mut area = TextArea::try_default(alloc)?;
    let made = make_all(&mut area, rows, row, borrows, results);
    drop(area);
    made
}

fn make_all(
    area: &mut TextArea<'_>,
    rows: &str,
    row: &str,
    borrows: &Borrows,
    results: &mut Results,
) -> Result<(), EndReason> {
    for line in row.lines() {
        make_line_or_row(area, rows, line, borrows, results)?;
    }
    results.tally.lines = area.lines().len();
    results.tally.cursor = area.cursor();
    Ok(())
}

fn make_line_or_row(
    area: &mut TextArea<'_>,
    rows: &str,
    line: &str,
    borrows: &Borrows,
    results: &mut Results,
) -> Result<(), EndReason> {
    match line.split_once(' ') {
        Some(("row", name)) => make_each(area, row_of(rows, name)?, borrows, results),
        Some(("apart", name)) => {
            let alloc = area.allocator();
            make_apart(
                alloc,
                row_of(rows, name)?,
                row_of(rows, CALLS)?,
                borrows,
                results,
            )
        }
        _ => make_line(area, line, borrows, results),
    }
}

// Makes the lines on a new text area, and each of the calls on a clone of it.
fn make_apart(
    alloc: Global,
    lines: &str,
    calls: &str,
    borrows: &Borrows,
    results: &mut Results,
) -> Result<(), EndReason> {
    let mut area = TextArea::try_default(alloc)?;
    let made = make_on_clones(&mut area, lines, calls, borrows, results);
    drop(area);
    made
}

fn make_on_clones(
    area: &mut TextArea<'_>,
    lines: &str,
    calls: &str,
    borrows: &Borrows,
    results: &mut Results,
) -> Result<(), EndReason> {
    make_each(area, lines, borrows, results)?;
    for call in calls.lines() {
        make_on_clone(area, call, borrows, results)?;
    }
    Ok(())
}

fn make_on_clone(
    area: &TextArea<'_>,
    call: &str,
    borrows: &Borrows,
    results: &mut Results,
) -> Result<(), EndReason> {
    let Ok(mut clone) = area.clone() else {
        return Err(EndReason::Wrong(Difference::Memory));
    };
    let made = make_line(&mut clone, call, borrows, results);
    drop(clone);
    made
}

// The lines of the case of this name.
fn row_of<'a>(rows: &'a str, name: &str) -> Result<&'a str, EndReason> {
    for row in rows.split("\n\n") {
        if let Some((first, lines)) = row.split_once('\n')
            && first == name
        {
            return Ok(lines);
        }
    }
    Err(EndReason::Wrong(Difference::Script))
}

fn make_each(
    area: &mut TextArea<'_>,
    lines: &str,
    borrows: &Borrows,
    results: &mut Results,
) -> Result<(), EndReason> {
    for line in lines.lines() {
        make_line(area, line, borrows, results)?;
    }
    Ok(())
}

// Makes the calls of a line. If the line has a result, the last call must return it.
fn make_line(
    area: &mut TextArea<'_>,
    line: &str,
    borrows: &Borrows,
    results: &mut Results,
) -> Result<(), EndReason> {
    match line.split_once(" => ") {
        Some((words, wanted)) => {
            make_words(area, words, borrows, results)?;
            same(results.last.as_str() == wanted, Difference::Answer)
        }
        None => make_words(area, line, borrows, results),
    }
}

fn make_words(
    area: &mut TextArea<'_>,
    line: &str,
    borrows: &Borrows,
    results: &mut Results,
) -> Result<(), EndReason> {
    if let Some(script) = script_of(line) {
        return make_script(area, script, results);
    }
    let (times, line) = timed(line);
    let alloc = area.allocator();
    let text = expanded(alloc, line)?;
    match step_of(text.as_str(), borrows) {
        Some(step) => make_step(area, step, times, results),
        None => make_repeated(area, text.as_str(), times, results),
    }
}

// Makes the calls of a line n times.
fn make_repeated(
    area: &mut TextArea<'_>,
    line: &str,
    times: usize,
    results: &mut Results,
) -> Result<(), EndReason> {
    let alloc = area.allocator();
    let script = repeated(alloc, times, line)?;
    make_script(area, script.as_str(), results)
}

fn make_step(
    area: &mut TextArea<'_>,
    step: Step<'_>,
    times: usize,
    results: &mut Results,
) -> Result<(), EndReason> {
    let alloc = area.allocator();
    for _ in 0..times {
        match make(area, step, &mut results.buffer) {
            Ok(answer) => results.take_last(alloc, &answer)?,
            Err(_) => return Err(EndReason::Wrong(Difference::Memory)),
        }
    }
    Ok(())
}

// Makes the calls of a script in one run.
fn make_script(
    area: &mut TextArea<'_>,
    script: &str,
    results: &mut Results,
) -> Result<(), EndReason> {
    let end = run_script(area, script, &mut results.buffer)?;
    for answer in end.answers.as_slice() {
        results.tally.take(answer)?;
    }
    if let Some(answer) = end.answers.last() {
        results.last = result_text(area.allocator(), answer)?;
    }
    match end.refused {
        Some(_) => Err(EndReason::Wrong(Difference::Memory)),
        None => Ok(()),
    }
}
