//! The programs of the gallery by their names.

mod composer;
mod editor;
mod form;
mod mentions;
mod modal;
mod password;
mod popup;
mod prompt;
mod search;
mod split;
mod typing;
mod wrap;

use anyhow::{Result, bail};
use composer::Composer;
use editor::EditorProgram;
use form::Form;
use modal::ModalEditor;
use password::Password;
use popup::Popup;
use prompt::Prompt;
use search::Finder;
use split::Split;
use std::alloc::{AllocError, Global};
use std::time::Duration;
use textarea_terminal::input::{Event, Mouse};
use tui_textarea::{Block, Buffer, DrawText, Input, Line, Rect, Style, TextArea};
use typing::Typing;
use wrap::Wraps;

/// A program of the gallery.
#[derive(Drop)]
pub enum Program {
    Prompt(Prompt),
    Password(Password),
    Composer(Composer),
    Search(Finder),
    Editor(EditorProgram),
    Form(Form),
    Modal(ModalEditor),
    Split(Split),
    Popup(Popup),
    Wrap(Wraps),
    Typing(Typing),
}

impl Program {
    /// Returns the program of this name.
    pub fn new(alloc: Global, name: &str) -> Result<Program> {
        Ok(match name {
            "prompt" => Program::Prompt(Prompt::new(alloc)?),
            "password" => Program::Password(Password::new(alloc)?),
            "composer" => Program::Composer(Composer::new(alloc)?),
            "search" => Program::Search(Finder::new(alloc)?),
            "editor" => Program::Editor(EditorProgram::new(alloc)?),
            "form" => Program::Form(Form::new(alloc)?),
            "modal" => Program::Modal(ModalEditor::new(alloc)?),
            "split" => Program::Split(Split::new(alloc)?),
            "popup" => Program::Popup(Popup::new(alloc)?),
            "wrap" => Program::Wrap(Wraps::new(alloc)?),
            "typing" => Program::Typing(Typing::new(alloc)?),
            _ => bail!("there is no program {name}"),
        })
    }

    /// Takes an event that came at this time, and returns whether the program goes on.
    pub fn take(&mut self, event: &Event, now: Duration) -> Result<bool> {
        match event {
            Event::Input(input) => self.take_input(Input { ..*input }, now),
            Event::Paste(text) => self.paste(text.as_str()),
            Event::Mouse(mouse) => self.take_mouse(mouse),
            _ => Ok(true),
        }
    }

    fn take_input(&mut self, input: Input, now: Duration) -> Result<bool> {
        Ok(match self {
            Program::Prompt(prompt) => prompt.take(input)?,
            Program::Password(password) => password.take(input)?,
            Program::Composer(composer) => composer.take(input)?,
            Program::Search(finder) => finder.take(input)?,
            Program::Editor(editor) => editor.take(input)?,
            Program::Form(form) => form.take(input)?,
            Program::Modal(editor) => editor.take(input)?,
            Program::Split(split) => split.take(input)?,
            Program::Popup(popup) => popup.take(input)?,
            Program::Wrap(wraps) => wraps.take(input)?,
            Program::Typing(typing) => typing.take(input, now)?,
        })
    }

    // The other programs take no pasted text.
    fn paste(&mut self, text: &str) -> Result<bool> {
        match self {
            Program::Prompt(prompt) => prompt.paste(text)?,
            Program::Form(form) => form.paste(text)?,
            _ => {}
        }
        Ok(true)
    }

    // The other programs take no mouse.
    fn take_mouse(&mut self, mouse: &Mouse) -> Result<bool> {
        if let Program::Editor(editor) = self {
            editor.take_mouse(mouse)?;
        }
        Ok(true)
    }

    /// Draws the program over a whole screen.
    pub fn draw(&mut self, screen: Rect, buffer: &mut Buffer) -> Result<()> {
        match self {
            Program::Prompt(prompt) => {
                prompt.draw(screen, buffer)?;
            }
            Program::Password(password) => password.draw(screen, buffer)?,
            Program::Composer(composer) => composer.draw(screen, buffer)?,
            Program::Search(finder) => finder.draw(screen, buffer)?,
            Program::Editor(editor) => editor.draw(screen, buffer)?,
            Program::Form(form) => form.draw(screen, buffer)?,
            Program::Modal(editor) => editor.draw(screen, buffer)?,
            Program::Split(split) => split.draw(screen, buffer)?,
            Program::Popup(popup) => popup.draw(screen, buffer)?,
            Program::Wrap(wraps) => wraps.draw(screen, buffer)?,
            Program::Typing(typing) => typing.draw(screen, buffer)?,
        }
        Ok(())
    }
}

/// Returns a block with all borders and this title.
pub fn titled(alloc: Global, title: &'static str) -> Result<Block<'static>, AllocError> {
    Ok(Block::bordered().title(Line::from_str(alloc, title)?))
}

/// Returns an empty text area in a block with this title.
pub fn field(alloc: Global, title: &'static str) -> Result<TextArea<'static>, AllocError> {
    let block = titled(alloc, title)?;
    let mut area = TextArea::try_default(alloc)?;
    area.set_block(block);
    area.set_cursor_line_style(Style::new());
    Ok(area)
}

/// Draws a message into the top row of an area, from its left edge on.
pub fn say(buffer: &mut Buffer, area: Rect, message: &str) -> Result<(), AllocError> {
    buffer.set_string(area.x, area.y, message, Style::new().dark_gray())
}

/// Returns the style of a cursor, which is visible only with the focus.
pub fn cursor_style(has_focus: bool) -> Style {
    match has_focus {
        true => Style::new().reversed(),
        false => Style::new(),
    }
}

/// Returns the style of the border around a text, which is green if the text is right.
pub fn checked_style(is_right: bool) -> Style {
    match is_right {
        true => Style::new().green(),
        false => Style::new().yellow(),
    }
}

/// Returns the byte at which the character of a column begins, the length past the line's end.
pub fn byte_of(line: &str, column: usize) -> usize {
    match line.char_indices().nth(column) {
        Some((byte, _)) => byte,
        None => line.len(),
    }
}
