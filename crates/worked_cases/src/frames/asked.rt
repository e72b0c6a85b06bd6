//! The calls of lines: script commands and test commands.
use std::alloc::{AllocError, Global};
use std::slice::Iter;
use textarea_calls::Call;
use textarea_script_syntax::commands::Command;
use textarea_test_support::words::{Borrows, call_of, character, lines_in, titled};
use tui_textarea::{Borders, Color, Style};

/// Returns the values that calls borrow: a titled block, a placeholder of one line, and a key.
pub fn borrows(alloc: Global) -> Result<Borrows, AllocError> {
    let red = Style::new().fg(Color::Red);
    Ok(Borrows {
        block: titled(alloc, Borders::TOP, "a\u{301}犬 title")?,
        placeholder: lines_in(alloc, red, &["e\u{301}犬"])?,
        letter: character('犬'),
    })
}

/// Returns the lines that are no test commands. They must be script commands.
pub fn script_of<'a>(
    alloc: Global,
    lines: &'a str,
    borrows: &'a Borrows,
) -> Result<String, AllocError> {
    let mut script = String::new(alloc);
    for line in lines.lines() {
        if call_of(line, borrows).is_none() {
            writeln!(script, "{line}")?;
        }
    }
    Ok(script)
}

/// Returns the calls of the lines, in their order. `commands` are the script commands among them.
pub fn calls_of<'a>(
    alloc: Global,
    lines: &'a str,
    commands: &'a [Command],
    borrows: &'a Borrows,
) -> Result<Vec<Call<'a>>, AllocError> {
    let mut calls = Vec::new(alloc);
    let mut commands = commands.iter();
    for line in lines.lines() {
        if let Some(call) = next_call(line, &mut commands, borrows) {
            calls.push(call)?;
        }
    }
    Ok(calls)
}

// The call of a test command, or else of the next script command.
fn next_call<'a>(
    line: &'a str,
    commands: &mut Iter<'a, Command>,
    borrows: &'a Borrows,
) -> Option<Call<'a>> {
    match call_of(line, borrows) {
        Some(call) => Some(call),
        None => Some(commands.next()?.call()),
    }
}
