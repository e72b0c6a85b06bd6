//! Scripts: calls on a text area, one command per line.
ghost use Rattle.std.specs.Prelude.{◌≡◌, ◌≢◌, IfErr};
ghost use Rattle.textarea_script.specs.Failures.{IsExit};

use crate::streams::{Failure, read_whole, status, write_whole};
use std::alloc::{AllocError, Global};
use std::io::{Read, Write};
use std::string::ToString;
pub use textarea_calls::{Answer, Call};
use textarea_run::printing::{PrintedCells, Report};
pub use textarea_run::run::{RunEnd, run};
use textarea_screen::screen::{Buffer, Rect};
use textarea_script_syntax::commands;
use textarea_script_syntax::commands::Command;
use tui_textarea::TextArea;

/// The width of the screen buffer, in columns.
pub const COLUMNS: u16 = 80;

/// The height of the screen buffer, in rows.
pub const ROWS: u16 = 24;

/// Reads a script, runs its calls on an empty text area and a buffer of `COLUMNS` by `ROWS` cells,
/// and prints to `output` the results, the text area and, if anything was drawn, the cells of the
/// area that was drawn last. The result is the exit status: `DONE`, `STREAM_FAILED`, `UNPARSED` or
/// `OUT_OF_MEMORY`.
///
/// If a line is unparsed or memory runs out, `output` gets nothing, and `errors` gets one line with
/// the reason; otherwise `errors` gets nothing. A failure of `errors` is ignored. If `output`
/// fails, a prefix of the text is written. Out of memory inside a read or a write is a failure of
/// that stream.
pub fn serve<R: Read, W: Write, E: Write>(
    alloc: Global,
    reader: &mut R,
    output: &mut W,
    errors: &mut E,
) -> u8
    ensures { IsExit result (output.new ≡ output.old) (errors.new ≡ errors.old) }
{
    status(run_script(alloc, reader, output), errors)
}

// Allocates all memory before it writes anything.
fn run_script<R: Read, W: Write>(
    alloc: Global,
    reader: &mut R,
    output: &mut W,
) -> Result<(), Failure>
    ensures { IfErr result (λ failure. failure ≢ Failure.Stream → output.new ≡ output.old) }
{
    let commands = read_script(alloc, reader)?;
    let text = printed_of(alloc, commands)?;
    write_whole(output, text.as_str())
}

// The commands of a script. The script itself is dropped.
fn read_script<R: Read>(alloc: Global, reader: &mut R) -> Result<Vec<Command>, Failure> {
    let script = read_whole(alloc, reader)?;
    Ok(commands::read(alloc, script.as_slice())?)
}

// Returns what is printed after a run of the commands on an empty text area.
fn printed_of(alloc: Global, commands: Vec<Command>) -> Result<String, Failure> {
    let mut area = TextArea::try_default(alloc)?;
    let printed = printed_run(alloc, &mut area, commands);
    drop(area);
    printed
}

// Returns what is printed after a run of the commands on a text area.
fn printed_run(
    alloc: Global,
    area: &mut TextArea<'_>,
    commands: Vec<Command>,
) -> Result<String, Failure> {
    let mut buffer = Buffer::empty(alloc, Rect::new(0, 0, COLUMNS, ROWS))?;
    let run = run_commands(alloc, area, commands, &mut buffer)?;
    Ok(printed_end(alloc, area, &run, &buffer)?)
}

// Prints the end of a run: the answers, the text area, and the cells that were drawn last.
fn printed_end(
    alloc: Global,
    area: &TextArea<'_>,
    run: &RunOutput,
    buffer: &Buffer,
) -> Result<String, AllocError> {
    let report = Report {
        answers: run.answers.as_slice(),
        area,
        screen: run.drawn.map(|area| PrintedCells { buffer, area }),
    };
    report.to_string(alloc)
}

// What a run leaves beside the text area: the answers of the calls, and the area that was drawn
// last, if any.
#[derive(Drop)]
struct RunOutput {
    answers: Vec<Answer>,
    drawn: Option<Rect>,
}

// Makes the calls of the commands, and drops the commands.
fn run_commands(
    alloc: Global,
    area: &mut TextArea<'_>,
    commands: Vec<Command>,
    buffer: &mut Buffer,
) -> Result<RunOutput, Failure> {
    let calls = commands::calls(alloc, commands.as_slice())?;
    let end = run(area, calls.as_slice(), buffer);
    match end.refused {
        Some(_) => Err(Failure::Memory),
        None => Ok(RunOutput {
            answers: end.answers,
            drawn: last_drawn(calls.as_slice()),
        }),
    }
}

// The area of the last call that draws, if there is one.
fn last_drawn(calls: &[Call<'_>]) -> Option<Rect> {
    for call in calls.iter().rev() {
        if let Call::Render(area) = *call {
            return Some(area);
        }
    }
    None
}
