//! Transcripts: calls with their results, and states of the text area between them.
//!
//! A line `CALL => ANSWER` has a script command, a test command (`textarea_test_support::words`) or a
//! question (`textarea_test_support::report`), and its result, or `*` for any. `input_without_shortcuts`
//! has the arguments of `input`. The inputs of a line `input HELD KEY | HELD KEY .. => ANSWER` are
//! tried each in its own text area.
//!
//! Any other line is from the text area's state at that point, as `tascript` prints it: lines,
//! cursor, selection, screen. What isn't written is unchanged, also at the end; at first there is
//! no screen. If all calls are script commands, `tascript` must print the same for them.
ghost use Rattle.std.specs.Prelude.{IfSome};
ghost use Rattle.textarea_calls.specs.Possible.{CanBeMade};

use crate::sessions::check_script;
use std::alloc::{AllocError, Global};
use std::mem::replace;
use textarea_calls::Call;
use textarea_run::perform::perform;
use textarea_run::printing::{PrintedCells, Report};
use textarea_script::script::{COLUMNS, ROWS};
use textarea_script_syntax::commands::{Command, read};
use textarea_test_support::differences::result_text;
use textarea_test_support::lines::unescaped;
use textarea_test_support::report::report_text;
use textarea_test_support::stop::{Stop, compare};
use textarea_test_support::transcript::{PrintedState, Script};
use textarea_test_support::words::{Borrows, call_of, character, lines_in, titled};
use tui_textarea::{Borders, Buffer, Color, Rect, Style, TextArea};

// The script of a transcript's calls: its lines, and the expected output of `tascript`.
#[derive(Drop)]
struct TriedScript {
    lines: String,
    wanted: String,
}

/// Makes the calls of a transcript, once for each of its inputs.
pub fn check(alloc: Global, case: &str) -> Result<(), Stop> {
    let borrows = borrows(alloc)?;
    for choice in 0..choices(case) {
        check_input(alloc, case, choice, &borrows)?;
    }
    Ok(())
}

// The values that calls borrow: a block in green on yellow, a placeholder of two lines, a letter.
fn borrows(alloc: Global) -> Result<Borrows, AllocError> {
    let block = titled(alloc, Borders::ALL, "hi")?
        .style(Style::new().bg(Color::Yellow))
        .border_style(Style::new().fg(Color::Green));
    Ok(Borrows {
        block,
        placeholder: lines_in(alloc, Style::new(), &["type", "here"])?,
        letter: character('z'),
    })
}

// The number of inputs in the line with the most, at least 1.
fn choices(case: &str) -> usize {
    let mut most = 1usize;
    for line in case.lines() {
        if line.starts_with("input") {
            most = most.max(line.split(" | ").count());
        }
    }
    most
}

// Makes the calls with the input of this number. For a script, `tascript` must print the same.
fn check_input(alloc: Global, case: &str, choice: usize, borrows: &Borrows) -> Result<(), Stop> {
    match check_choice(alloc, case, choice, borrows)? {
        Some(tried) => check_script(alloc, tried.lines.as_str(), tried.wanted.as_str()),
        None => Ok(()),
    }
}

// Makes the calls in a new text area, and compares the results. Returns the script of the calls if
// all are lines of scripts.
fn check_choice(
    alloc: Global,
    case: &str,
    choice: usize,
    borrows: &Borrows,
) -> Result<Option<TriedScript>, Stop> {
    let mut trial = Trial::new(alloc, choice)?;
    let checked = check_new(alloc, case, borrows, &mut trial);
    drop(trial);
    checked
}

fn check_new(
    alloc: Global,
    case: &str,
    borrows: &Borrows,
    trial: &mut Trial,
) -> Result<Option<TriedScript>, Stop> {
    let mut area = TextArea::try_default(alloc)?;
    let checked = check_area(alloc, case, borrows, &mut area, trial);
    drop(area);
    checked
}

fn check_area(
    alloc: Global,
    case: &str,
    borrows: &Borrows,
    area: &mut TextArea<'_>,
    trial: &mut Trial,
) -> Result<Option<TriedScript>, Stop> {
    for line in case.lines() {
        trial.try_line(alloc, area, borrows, line)?;
    }
    trial.printed_state.is_new = trial.printed_state.is_known;
    trial.compare_display(alloc, area)?;
    Ok(trial.tried(alloc, area)?)
}

// The line with only the input of this number, if it has several.
fn chosen(alloc: Global, call: &str, choice: usize) -> Result<String, AllocError> {
    match call.split_once(' ') {
        Some((name, inputs)) if name.starts_with("input") => {
            let input = inputs.split(" | ").nth(choice).unwrap_or(inputs);
            format!(in alloc; "{name} {input}")
        }
        _ => String::from_str(alloc, call),
    }
}

// A run of a transcript's lines.
#[derive(Drop)]
struct Trial {
    // The number of the input that is tried, if a line has several.
    choice: usize,
    cells: Cells,
    printed_state: PrintedState,
    script: Script,
}

impl Trial {
    fn new(alloc: Global, choice: usize) -> Result<Trial, AllocError> {
        Ok(Trial {
            choice,
            cells: Cells {
                buffer: Buffer::empty(alloc, Rect::new(0, 0, COLUMNS, ROWS))?,
                drawn: None,
            },
            printed_state: PrintedState::new(alloc)?,
            script: Script::new(alloc),
        })
    }

    // Makes the call of a line and compares its result, or reads a part of the state.
    fn try_line(
        &mut self,
        alloc: Global,
        area: &mut TextArea<'_>,
        borrows: &Borrows,
        line: &str,
    ) -> Result<(), Stop> {
        match line.split_once(" => ") {
            Some((call, answer)) => {
                self.compare_display(alloc, area)?;
                self.try_call(alloc, area, borrows, (call, answer))
            }
            None => self.printed_state.show(alloc, line),
        }
    }

    // Makes a call and compares its result.
    fn try_call(
        &mut self,
        alloc: Global,
        area: &mut TextArea<'_>,
        borrows: &Borrows,
        (call, answer): (&str, &str),
    ) -> Result<(), Stop> {
        let chosen = chosen(alloc, call, self.choice)?;
        let found = self.result_of_call_in(alloc, area, borrows, chosen.as_str())?;
        match answer {
            "*" => Ok(()),
            _ => compare(found, answer),
        }
    }

    // The printed result of a line: of a call, or of a question that no call answers.
    fn result_of_call_in(
        &mut self,
        alloc: Global,
        area: &mut TextArea<'_>,
        borrows: &Borrows,
        line: &str,
    ) -> Result<String, Stop> {
        if let Some(answer) = report_text(alloc, area, &self.cells.buffer, line)? {
            return Ok(answer);
        }
        if let Some(answer) = self.cells.words_result(alloc, area, borrows, line)? {
            self.script.has_words = true;
            return Ok(answer);
        }
        let answer = self.cells.line_result(alloc, area, line)?;
        self.script.push(line, answer.as_str())?;
        Ok(answer)
    }

    // Compares the text area with the state that was read since the last call, if there is any.
    fn compare_display(&mut self, alloc: Global, area: &TextArea<'_>) -> Result<(), Stop> {
        if !self.printed_state.is_new {
            return Ok(());
        }
        self.printed_state.is_new = false;
        let wanted = self.printed_state.printed(alloc)?;
        compare(self.cells.printed(alloc, area)?, wanted.as_str())
    }

    // Returns the script, if all calls are lines of scripts.
    fn tried(
        &mut self,
        alloc: Global,
        area: &TextArea<'_>,
    ) -> Result<Option<TriedScript>, AllocError> {
        if self.script.has_words {
            return Ok(None);
        }
        let printed = self.cells.printed(alloc, area)?;
        let wanted = format!(in alloc; "{}{printed}", self.script.answers)?;
        let lines = replace(&mut self.script.lines, String::new(alloc));
        Ok(Some(TriedScript { lines, wanted }))
    }
}

// The buffer that calls draw into, and the area that was drawn last.
#[derive(Drop)]
struct Cells {
    buffer: Buffer,
    drawn: Option<Rect>,
}

impl Cells {
    // The printed result of a test command, if the line is one.
    fn words_result(
        &mut self,
        alloc: Global,
        area: &mut TextArea<'_>,
        borrows: &Borrows,
        line: &str,
    ) -> Result<Option<String>, Stop> {
        if let Some(input) = line.strip_prefix("input_without_shortcuts ") {
            return Ok(Some(self.input_result(alloc, area, input)?));
        }
        let words = unescaped(alloc, line)?;
        match call_of(words.as_str(), borrows) {
            Some(call) => Ok(Some(self.call_result_text(alloc, area, call)?)),
            None => Ok(None),
        }
    }

    // The printed result of an input, without shortcuts.
    fn input_result(
        &mut self,
        alloc: Global,
        area: &mut TextArea<'_>,
        input: &str,
    ) -> Result<String, Stop> {
        let line = format!(in alloc; "input {input}")?;
        let commands = read(alloc, line.as_bytes())?;
        match call_in(commands.as_slice()) {
            Some(Call::Input(input)) => {
                self.call_result_text(alloc, area, Call::InputWithoutShortcuts(input))
            }
            _ => Err(Stop::Unparsed),
        }
    }

    // The printed result of a script's line.
    fn line_result(
        &mut self,
        alloc: Global,
        area: &mut TextArea<'_>,
        line: &str,
    ) -> Result<String, Stop> {
        let commands = read(alloc, line.as_bytes())?;
        match call_in(commands.as_slice()) {
            Some(call) => self.call_result_text(alloc, area, call),
            None => Err(Stop::Unparsed),
        }
    }

    fn call_result_text(
        &mut self,
        alloc: Global,
        area: &mut TextArea<'_>,
        call: Call<'_>,
    ) -> Result<String, Stop>
        requires { CanBeMade call }
    {
        if let Call::Render(place) = call {
            self.drawn = Some(place);
        }
        let answer = perform(area, call, &mut self.buffer)?;
        Ok(result_text(alloc, &answer)?)
    }

    // The printed text area, and the cells that were drawn last.
    fn printed(&self, alloc: Global, area: &TextArea<'_>) -> Result<String, AllocError> {
        let buffer = &self.buffer;
        let report = Report {
            answers: &[],
            area,
            screen: self.drawn.map(|area| PrintedCells { buffer, area }),
        };
        format!(in alloc; "{report}")
    }
}

// The call of the first command, if there is one.
fn call_in(commands: &[Command]) -> Option<Call<'_>>
    ensures { IfSome result CanBeMade }
{
    Some(commands.first()?.call())
}
