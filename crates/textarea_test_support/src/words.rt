//! Test commands: a text form for calls that scripts have no command for.
mod plain;

ghost use Rattle.std.specs.Prelude.{IfSome};
ghost use Rattle.textarea_calls.specs.Possible.{CanBeMade};

use crate::styles::style_named;
use crate::words::plain::{reading, setting_style};
use std::alloc::{AllocError, Global};
use textarea_calls::Call;
use textarea_data::cursor::CursorRenderMode;
use textarea_data::input::{Input, Key};
use textarea_data::range::{AtomicCursorBias, AtomicDeleteDirection};
use textarea_screen::screen::{Alignment, Block, Borders, Line, Style, Text};

/// The values that these calls borrow.
#[derive(Drop)]
pub struct Borrows {
    /// The block that `set_block` sets.
    pub block: Block<'static>,
    /// The placeholder that `set_styled_placeholder` sets.
    pub placeholder: Text<'static>,
    /// The input that `letter` types.
    pub letter: Input,
}

impl Borrows {
    /// Returns a titled block with all borders, a placeholder of two lines, and the key of `z`.
    pub fn new(alloc: Global) -> Result<Borrows, AllocError> {
        Ok(Borrows {
            block: titled(alloc, Borders::ALL, "a title")?,
            placeholder: lines_in(alloc, Style::new(), &["type", "here"])?,
            letter: character('z'),
        })
    }
}

/// Returns a block with these borders and this title.
pub fn titled(alloc: Global, borders: Borders, title: &str) -> Result<Block<'static>, AllocError> {
    let title = line_of(alloc, title)?;
    Ok(Block::new().borders(borders).title(title))
}

/// Returns a text of these lines, in this style.
pub fn lines_in(alloc: Global, style: Style, texts: &[&str]) -> Result<Text<'static>, AllocError> {
    let mut lines = Vec::new(alloc);
    for text in texts {
        lines.push(line_of(alloc, text)?)?;
    }
    Ok(Text { lines, style })
}

fn line_of(alloc: Global, text: &str) -> Result<Line<'static>, AllocError> {
    Line::raw(String::from_str(alloc, text)?)
}

/// Returns the key of a character, without modifiers.
pub fn character(character: char) -> Input {
    Input {
        key: Key::Char(character),
        ctrl: false,
        alt: false,
        shift: false,
    }
}

/// Returns the call of a line: the name of a call of the text area that scripts have no command for
/// and, after a blank, its arguments. `letter` types the letter of `borrows`, without shortcuts.
pub fn call_of<'a>(line: &'a str, borrows: &'a Borrows) -> Option<Call<'a>>
    ensures { IfSome result CanBeMade }
{
    match line.split_once(' ') {
        Some((name, arguments)) => call_with(name, arguments),
        None => call_without_arguments(line, borrows),
    }
}

// The call of this name without arguments.
fn call_without_arguments<'a>(name: &str, borrows: &'a Borrows) -> Option<Call<'a>>
    ensures { IfSome result CanBeMade }
{
    Some(match name {
        "letter" => Call::InputWithoutShortcuts(&borrows.letter),
        "set_block" => Call::SetBlock(&borrows.block),
        "remove_block" => Call::RemoveBlock,
        "set_placeholder_text" => Call::SetPlaceholderText(""),
        "set_styled_placeholder" => Call::SetStyledPlaceholder(&borrows.placeholder),
        "clear_custom_highlight" => Call::ClearCustomHighlight,
        "clear_atomic_ranges" => Call::ClearAtomicRanges,
        "remove_line_number" => Call::RemoveLineNumber,
        _ => return reading(name),
    })
}

// The call of this name and these arguments.
fn call_with<'a>(name: &str, arguments: &'a str) -> Option<Call<'a>>
    ensures { IfSome result CanBeMade }
{
    if name == "set_placeholder_text" {
        Some(Call::SetPlaceholderText(arguments))
    } else {
        parsed_call(name, arguments)
    }
}

// The call of this name and these arguments, if it doesn't borrow them.
fn parsed_call<'a>(name: &str, arguments: &str) -> Option<Call<'a>>
    ensures { IfSome result CanBeMade }
{
    Some(match name {
        "set_min_rows" => Call::SetMinRows(arguments.parse().ok()?),
        "set_max_rows" => Call::SetMaxRows(arguments.parse().ok()?),
        "set_cursor_render_mode" => Call::SetCursorRenderMode(render_mode(arguments)?),
        "set_alignment" => Call::SetAlignment(alignment(arguments)?),
        "normalize_cursor_around_atomic_ranges" => {
            Call::NormalizeCursorAroundAtomicRanges(bias(arguments)?)
        }
        "atomic_range_at_cursor" => Call::AtomicRangeAtCursor(direction(arguments)?),
        "delete_atomic_range_at_cursor" => Call::DeleteAtomicRangeAtCursor(direction(arguments)?),
        "custom_highlight" => return highlight(arguments),
        _ => return setting_style(name, style_named(arguments)?),
    })
}

// The highlight between two positions, each a row and a byte, with a style and a priority.
fn highlight<'a>(arguments: &str) -> Option<Call<'a>>
    ensures { IfSome result CanBeMade }
{
    let mut words = arguments.split(' ');
    let start = (number(words.next())?, number(words.next())?);
    let end = (number(words.next())?, number(words.next())?);
    Some(Call::CustomHighlight {
        range: (start, end),
        style: style_named(words.next()?)?,
        priority: words.next()?.parse().ok()?,
    })
}

fn number(text: Option<&str>) -> Option<usize> {
    text?.parse().ok()
}

fn direction(name: &str) -> Option<AtomicDeleteDirection> {
    match name {
        "Backward" => Some(AtomicDeleteDirection::Backward),
        "Forward" => Some(AtomicDeleteDirection::Forward),
        _ => None,
    }
}

fn bias(name: &str) -> Option<AtomicCursorBias> {
    match name {
        "Backward" => Some(AtomicCursorBias::Backward),
        "Forward" => Some(AtomicCursorBias::Forward),
        _ => None,
    }
}

fn render_mode(name: &str) -> Option<CursorRenderMode> {
    match name {
        "Cell" => Some(CursorRenderMode::Cell),
        "Hidden" => Some(CursorRenderMode::Hidden),
        _ => None,
    }
}

fn alignment(name: &str) -> Option<Alignment> {
    match name {
        "Left" => Some(Alignment::Left),
        "Center" => Some(Alignment::Center),
        "Right" => Some(Alignment::Right),
        _ => None,
    }
}
