//! A password field. Its user can rely on it that the screen shows how many characters the password
//! has, and where the cursor is, and nothing else of it.
ghost use Rattle.std.specs.Prelude.{◌≡◌, IfOk, OnOk, encode_utf8_all, length, map, string_bytes};
ghost use Rattle.std.specs.Str.{chars};
ghost use Rattle.textarea_uses.specs.Password.{LookAlike, ShowsBullets, bullet, masked, secret};

use std::alloc::{AllocError, Global};
use textarea_text::places::line_of;
use tui_textarea::outcomes::laws::one_screen;
use tui_textarea::{Buffer, Input, Key, Rect, TextArea};

/// A password that is being typed.
#[derive(Drop)]
pub struct PasswordField {
    area: TextArea<'static>,
}

impl PasswordField {
    /// Returns an empty field.
    pub fn new(alloc: Global) -> Result<PasswordField, AllocError> {
        let area = TextArea::try_default(alloc)?;
        Ok(PasswordField { area })
    }

    /// Takes a key, but for those that break the line, which are for the caller.
    pub fn take(&mut self, input: Input) -> Result<bool, AllocError> {
        match input.key {
            Key::Enter | Key::Char('\n' | '\r') => Ok(false),
            _ => self.area.input_without_shortcuts(input),
        }
    }

    /// Draws a bullet for each character of the password's line.
    pub fn draw(&self, screen: Rect, buffer: &mut Buffer) -> Result<(), AllocError>
        ensures { OnOk result (ShowsBullets (length (secret self.now.area))
            self.now.area.document.cursor screen buffer.old buffer.new) }
    {
        let mut shown = self.masked()?;
        let drawn = shown.render(screen, buffer);
        drop(shown);
        drawn
    }

    // Returns a text area with the bullets, and the cursor where it is in the password.
    fn masked(&self) -> Result<TextArea<'static>, AllocError>
        ensures { IfOk result (λ shown. shown
            ≡ masked (length (secret self.now.area)) self.now.area.document.cursor) }
    {
        let alloc = self.area.allocator();
        let line = bullets(alloc, line_of(self.area.lines(), 0))?;
        let mut lines = Vec::new(alloc);
        lines.push(line)?;
        let mut shown = TextArea::new(lines)?;
        shown.go_to(self.area.cursor());
        Ok(shown)
    }
}

// Returns a bullet for each character.
fn bullets(alloc: Global, line: &str) -> Result<String, AllocError>
    ensures { IfOk result (λ text. string_bytes text
        ≡ encode_utf8_all (map (λ _. bullet) (chars line.now))) }
{
    line.chars().map(|_| '•').collect(alloc)
}

/// Two passwords of equally many characters, with the cursor at the same position, look alike.
pub fn passwords_look_alike()
    ensures { LookAlike }
{
    one_screen();
}
