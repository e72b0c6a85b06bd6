//! The indent that a line break keeps.
ghost use Rattle.std.specs.Prelude.{◌≡◌, ◌∷◌, IfOk, string_bytes, take};
ghost use Rattle.std.specs.Str.{chars};
ghost use Rattle.textarea_editor.specs.Indents.{is_newline, ends_indent, indentation, is_indent, keeps_indent, line_break_at};
ghost use Rattle.textarea_text.specs.Text.{lines_of};

use std::alloc::{AllocError, Global};
use textarea_calls::Action;
use textarea_calls::keys::action_of;
use textarea_data::input::Input;

/// Returns whether an input of the text area breaks the line and keeps its indent, where that is
/// wanted or not. With Shift none does.
pub fn keeps_indent(is_wanted: bool, input: &Input) -> bool
    ensures { result ≡ keeps_indent is_wanted input.now }
{
    is_wanted && !input.shift && is_newline(action_of(input))
}

fn is_newline(action: Action) -> bool
    ensures { result ≡ is_newline action }
{
    matches!(action, Action::InsertNewline)
}

/// Returns what breaks a line of a text at a position (row, column): a line feed, and the spaces and
/// tabs that the line begins with, up to the column.
pub fn line_break_at(
    alloc: Global,
    lines: &[String],
    place: (usize, usize),
) -> Result<String, AllocError>
    ensures { IfOk result (λ text. string_bytes text ≡ line_break_at (lines_of lines.now) place) }
{
    match lines.get(place.0) {
        Some(line) => with_indent(alloc, line.as_str(), place.1),
        None => String::from_str(alloc, "\n"),
    }
}

// Returns a line feed, and the spaces and tabs that a line begins with, up to a column.
fn with_indent(alloc: Global, line: &str, column: usize) -> Result<String, AllocError>
    ensures { IfOk result
        (λ text. string_bytes text ≡ 10 ∷ take column (indentation (chars line.now))) }
{
    let mut text = String::from_str(alloc, "\n")?;
    let mut room = column;
    for c in line.chars() {
        if ends_indent(room, c) {
            return Ok(text);
        }
        text.push(c)?;
        room = room.saturating_sub(1);
    }
    Ok(text)
}

fn ends_indent(room: usize, c: char) -> bool
    ensures { result ≡ ends_indent room c }
{
    room == 0 || !is_indent(c)
}

fn is_indent(c: char) -> bool
    ensures { result ≡ is_indent c }
{
    c == ' ' || c == '\t'
}
