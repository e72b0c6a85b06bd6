//! Makes the calls of a case one after another, and judges them.
ghost use Rattle.std.specs.Prelude.{All};
ghost use Rattle.textarea_calls.specs.Possible.{CanBeMade};

use crate::keys::{CallCounts, judge_keys};
use crate::script::run_silently;
use crate::step::{Step, make};
use crate::words::{script_of, step_of};
use std::alloc::{AllocError, Global};
use textarea_calls::{Answer, Call};
use textarea_run::RunEnd;
use textarea_run::run::run;
use textarea_script_syntax::commands::{Command, calls, read};
use textarea_test_support::compare::{are_alike_outside, compare, compare_display};
use textarea_test_support::end::{Difference, End, EndReason, same};
use textarea_test_support::expand::expanded;
use textarea_test_support::words::Borrows;
use tui_textarea::{Buffer, Rect, TextArea};

/// The area of the buffer that the calls of a case draw into.
const WHOLE: Rect = Rect {
    x: 0,
    y: 0,
    width: 40,
    height: 12,
};

// The buffers that the calls and the same calls on clones draw into, and the number of calls made.
#[derive(Drop)]
struct MemoryJudge {
    buffer: Buffer,
    other: Buffer,
    made: usize,
}

impl MemoryJudge {
    fn new(alloc: Global) -> Result<MemoryJudge, AllocError> {
        Ok(MemoryJudge {
            buffer: Buffer::empty(alloc, WHOLE)?,
            other: Buffer::empty(alloc, WHOLE)?,
            made: 0,
        })
    }

    fn count(&mut self, calls: usize) {
        self.made = self.made.saturating_add(calls);
    }

    // Compares the cells of the two buffers outside an area.
    fn compare_cells(&self, area: Rect) -> Result<(), EndReason> {
        let are_alike = are_alike_outside(&self.buffer, &self.other, area);
        same(are_alike, Difference::Cells)
    }
}

/// Makes the calls of a case, until one runs out of memory.
pub fn judge_row(alloc: Global, row: &str) -> End {
    match MemoryJudge::new(alloc) {
        Ok(mut judge) => {
            let stop = judge_lines(alloc, row, &mut judge).err();
            let made = judge.made;
            drop(judge);
            End { made, stop }
        }
        Err(_) => End {
            made: 0,
            stop: Some(EndReason::Memory),
        },
    }
}

fn judge_lines(alloc: Global, row: &str, judge: &mut MemoryJudge) -> Result<(), EndReason> {
    let borrows = Borrows::new(alloc)?;
    let judged = judge_expanded(alloc, row, &borrows, judge);
    drop(borrows);
    judged
}

fn judge_expanded(
    alloc: Global,
    row: &str,
    borrows: &Borrows,
    judge: &mut MemoryJudge,
) -> Result<(), EndReason> {
    let row = expanded(alloc, row)?;
    judge_text(alloc, row.as_str(), borrows, judge)
}

fn judge_text(
    alloc: Global,
    row: &str,
    borrows: &Borrows,
    judge: &mut MemoryJudge,
) -> Result<(), EndReason> {
    let mut area = TextArea::try_default(alloc)?;
    let judged = judge_all(&mut area, row, borrows, judge);
    drop(area);
    judged
}

fn judge_all(
    area: &mut TextArea<'_>,
    row: &str,
    borrows: &Borrows,
    judge: &mut MemoryJudge,
) -> Result<(), EndReason> {
    // The calls of a run are after the line `run`, up to the end of the case.
    let (lines, run) = row.split_once("run\n").unwrap_or((row, ""));
    for line in lines.lines() {
        judge_line(area, line, borrows, judge)?;
    }
    if run.is_empty() {
        return Ok(());
    }
    judge_run(area, run, judge)
}

fn judge_line(
    area: &mut TextArea<'_>,
    line: &str,
    borrows: &Borrows,
    judge: &mut MemoryJudge,
) -> Result<(), EndReason> {
    if let Some(script) = script_of(line) {
        return make_script(area, script, judge);
    }
    if let Some(words) = line.strip_prefix("keys ") {
        return judge_all_keys(area.allocator(), words, judge);
    }
    match step_of(line, borrows) {
        Some(step) => judge_step(area, step, judge),
        None => judge_script(area, line, judge),
    }
}

fn judge_all_keys(alloc: Global, words: &str, judge: &mut MemoryJudge) -> Result<(), EndReason> {
    let mut made = CallCounts::default();
    let judged = judge_keys(alloc, words, &mut made);
    judge.count(made.calls);
    judged
}

// Makes the calls of a script, and draws nowhere.
fn make_script(
    area: &mut TextArea<'_>,
    script: &str,
    judge: &mut MemoryJudge,
) -> Result<(), EndReason> {
    let end = run_silently(area, script)?;
    judge.count(end.answers.len());
    match end.refused {
        Some(_) => Err(EndReason::Memory),
        None => Ok(()),
    }
}

fn judge_script(
    area: &mut TextArea<'_>,
    script: &str,
    judge: &mut MemoryJudge,
) -> Result<(), EndReason> {
    let alloc = area.allocator();
    let commands = read(alloc, script.as_bytes())?;
    judge_commands(area, commands.as_slice(), judge)
}

// Makes the calls, which borrow from the commands. The text area is cloned before each.
fn judge_commands(
    area: &mut TextArea<'_>,
    commands: &[Command],
    judge: &mut MemoryJudge,
) -> Result<(), EndReason> {
    for command in commands {
        judge_step(area, Step::Call(command.call()), judge)?;
    }
    Ok(())
}

// Clones the text area, and makes a step.
fn judge_step(
    area: &mut TextArea<'_>,
    step: Step<'_>,
    judge: &mut MemoryJudge,
) -> Result<(), EndReason> {
    let mut other = area.clone()?;
    let judged = judge_beside(area, &mut other, step, judge);
    drop(other);
    judged
}

// Makes a step. Unless it runs out of memory, the clone must have the same result and state.
fn judge_beside(
    area: &mut TextArea<'_>,
    other: &mut TextArea<'_>,
    step: Step<'_>,
    judge: &mut MemoryJudge,
) -> Result<(), EndReason> {
    match make(area, step, &mut judge.buffer) {
        Err(_) => judge_out_of_memory(area, other, step, judge),
        Ok(Answer::PatternRejected) => judge_pattern(area, other, step, judge),
        Ok(answer) => {
            let judged = judge_result(&answer, other, step, judge);
            drop(answer);
            judged?;
            judge.compare_cells(Rect::default())?;
            compare_display(area, other)
        }
    }
}

// A pattern was rejected, for lack of memory if a clone takes it. Nothing may have changed.
fn judge_pattern(
    area: &mut TextArea<'_>,
    other: &mut TextArea<'_>,
    step: Step<'_>,
    judge: &mut MemoryJudge,
) -> Result<(), EndReason> {
    if is_rejected(other, step, judge)? {
        judge.count(1);
        return compare_display(area, other);
    }
    judge_out_of_memory(area, other, step, judge)
}

// Whether a clone rejects the pattern too.
fn is_rejected(
    other: &TextArea<'_>,
    step: Step<'_>,
    judge: &mut MemoryJudge,
) -> Result<bool, AllocError> {
    let mut clone = other.clone()?;
    let answer = make(&mut clone, step, &mut judge.other);
    drop(clone);
    Ok(answer? == Answer::PatternRejected)
}

// Makes a step. A rejected pattern counts as out of memory: `regex` may lack memory itself.
fn make_or_run_out(
    area: &mut TextArea<'_>,
    step: Step<'_>,
    buffer: &mut Buffer,
) -> Result<Answer, AllocError> {
    match make(area, step, buffer)? {
        Answer::PatternRejected => Err(AllocError),
        answer => Ok(answer),
    }
}

// The clone must have the same result. If it runs out of memory, that says nothing about the step.
fn judge_result(
    answer: &Answer,
    other: &mut TextArea<'_>,
    step: Step<'_>,
    judge: &mut MemoryJudge,
) -> Result<(), EndReason> {
    let wanted = make_or_run_out(other, step, &mut judge.other)?;
    let is_answered_so = *answer == wanted;
    drop(wanted);
    same(is_answered_so, Difference::Answer)?;
    judge.count(1);
    Ok(())
}

// A step ran out of memory. The text area must be like the clone, or for an insertion like the
// clone without the selected text. The cells outside of the step's area must be unchanged.
fn judge_out_of_memory(
    area: &mut TextArea<'_>,
    other: &mut TextArea<'_>,
    step: Step<'_>,
    judge: &MemoryJudge,
) -> Result<(), EndReason> {
    if step.inserts() && holds_selected(other) && !area.is_selecting() {
        other.delete_char()?;
    }
    compare(area, other)?;
    judge.compare_cells(drawn_area(step))?;
    Err(EndReason::RanOut)
}

fn holds_selected(area: &TextArea<'_>) -> bool {
    match area.selection_range() {
        Some((start, end)) => start != end,
        None => false,
    }
}

fn drawn_area(step: Step<'_>) -> Rect {
    match step {
        Step::Call(Call::Render(area)) => area,
        _ => Rect::default(),
    }
}

// Makes the calls of a script in one run. If one fails, the results must be those of the calls
// before it, and the text area as the failed call leaves a clone that made these. A failed
// reservation for results counts for the first call. A pattern that `regex` rejects for lack of
// memory changes nothing.
fn judge_run(
    area: &mut TextArea<'_>,
    script: &str,
    judge: &mut MemoryJudge,
) -> Result<(), EndReason> {
    let alloc = area.allocator();
    let commands = read(alloc, script.as_bytes())?;
    judge_run_commands(area, commands.as_slice(), judge)
}

// Makes the calls, which borrow from the commands, in one run.
fn judge_run_commands(
    area: &mut TextArea<'_>,
    commands: &[Command],
    judge: &mut MemoryJudge,
) -> Result<(), EndReason> {
    let alloc = area.allocator();
    let calls = calls(alloc, commands)?;
    judge_calls(area, calls.as_slice(), judge)
}

fn judge_calls(
    area: &mut TextArea<'_>,
    calls: &[Call<'_>],
    judge: &mut MemoryJudge,
) -> Result<(), EndReason>
    requires { All CanBeMade calls.now }
{
    let mut other = area.clone()?;
    let judged = judge_run_beside(area, &mut other, calls, judge);
    drop(other);
    judged
}

fn judge_run_beside(
    area: &mut TextArea<'_>,
    other: &mut TextArea<'_>,
    calls: &[Call<'_>],
    judge: &mut MemoryJudge,
) -> Result<(), EndReason>
    requires { All CanBeMade calls.now }
{
    let end = run(area, calls, &mut judge.buffer);
    let judged = judge_end(area, other, calls, &end, judge);
    drop(end);
    judged
}

fn judge_end(
    area: &mut TextArea<'_>,
    other: &mut TextArea<'_>,
    calls: &[Call<'_>],
    end: &RunEnd,
    judge: &mut MemoryJudge,
) -> Result<(), EndReason> {
    let answered = end.answers.as_slice();
    let is_counted = answered.len() == end.refused.unwrap_or(calls.len());
    same(is_counted, Difference::Index)?;
    for (call, answer) in calls.iter().zip(answered) {
        if *answer == Answer::PatternRejected {
            judge.count(1);
        } else {
            judge_result(answer, other, Step::Call(*call), judge)?;
        }
    }
    match calls.get(answered.len()) {
        Some(call) => judge_out_of_memory(area, other, Step::Call(*call), judge),
        None => compare_display(area, other),
    }
}
