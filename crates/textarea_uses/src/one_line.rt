//! A field of one line. Its user can rely on it that the text never holds a line break, whatever is
//! typed or pasted.
ghost use Rattle.std.specs.Prelude.{◌≡◌, ◌≢◌, All, IfOk, OnOk};
ghost use Rattle.textarea_text.specs.Text.{characters_of};
ghost use Rattle.textarea_uses.specs.OneLine.{IsOneLine, after_action, after_typing};
ghost use Rattle.tui_textarea.specs.Prelude.{asked_without_shortcuts};

use std::alloc::{AllocError, Global};
use textarea_calls::Action;
use textarea_calls::keys::action_without_shortcuts;
use tui_textarea::input_laws::symbols_stay_or_are_inserted;
use tui_textarea::laws::is_sound;
use tui_textarea::{Input, TextArea};

/// A field, whose text has no line break.
#[derive(Drop)]
pub struct Field {
    area: TextArea<'static>,
    ghost one_line: { IsOneLine area },
}

// Inserts a character, unless it breaks the line, and returns whether it did.
fn insert(area: &mut TextArea<'_>, character: char) -> Result<bool, AllocError>
    ensures one_line { IsOneLine area.old → IsOneLine area.new }
    ensures typed { OnOk result (area.new ≡ after_typing area.old character) }
{
    if character == '\n' || character == '\r' {
        return Ok(false);
    }
    is_sound(area);
    symbols_stay_or_are_inserted();
    area.insert_char(character)?;
    Ok(true)
}

// Inserts the characters of a text that don't break the line.
fn insert_all(area: &mut TextArea<'_>, text: &str) -> Result<(), AllocError>
    ensures { IsOneLine area.old → IsOneLine area.new }
{
    for character in text.chars() {
        insert(area, character)?;
    }
    Ok(())
}

// Edits by an action, unless it breaks the line, and returns whether the text changed.
fn edit(area: &mut TextArea<'_>, action: Action) -> Result<bool, AllocError>
    ensures one_line { IsOneLine area.old → IsOneLine area.new }
    ensures edited { OnOk result (area.new ≡ after_action area.old action) }
{
    is_sound(area);
    symbols_stay_or_are_inserted();
    match action {
        Action::InsertChar(character) => insert(area, character),
        Action::InsertTab => area.insert_tab(),
        Action::DeleteChar => area.delete_char(),
        Action::DeleteNextChar => area.delete_next_char(),
        _ => Ok(false),
    }
}

impl Field {
    /// Returns an empty field.
    pub fn new(alloc: Global) -> Result<Field, AllocError> {
        let area = TextArea::try_default(alloc)?;
        Ok(Field { area })
    }

    /// Takes a key, and returns whether the text changed: a character is inserted, and Tab, Backspace
    /// and Delete edit as in a text area. A key that breaks the line does nothing.
    pub fn take(&mut self, input: &Input) -> Result<bool, AllocError>
        ensures { OnOk result
            (self.new.area ≡ after_action self.old.area (asked_without_shortcuts input.now)) }
    {
        edit(&mut self.area, action_without_shortcuts(input))
    }

    /// Inserts a pasted text without its line breaks.
    pub fn paste(&mut self, text: &str) -> Result<(), AllocError> {
        insert_all(&mut self.area, text)
    }

    /// Returns the text, in which there is no line feed.
    pub fn text(&self) -> Result<String, AllocError>
        ensures { IfOk result (λ text. All (λ character. character ≢ 10) (characters_of text)) }
    {
        self.area.text()
    }
}
