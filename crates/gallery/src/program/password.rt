//! # Password
//!
//! A password: one masked line in a block with a title, and a placeholder while it is empty.
//!
//! Keys: Tab shows the text, or the dots again; Enter ends it if the text is long enough
//!
//! - `set_mask_char` changes only what is drawn. The text itself stays, and the cursor moves in it.
//! - `input_without_shortcuts` types and deletes, but doesn't undo, cut or paste.
//! - The block is set again for each drawing, since its colour depends on the text.
ghost use Rattle.gallery.specs.Ends.{EndsByEscPerhapsEnter};

use crate::program::{checked_style, say, titled};
use anyhow::Result;
use std::alloc::{AllocError, Global};
use tui_textarea::{Buffer, Input, Key, Rect, Style, TextArea};

#[derive(Drop)]
pub struct Password {
    alloc: Global,
    area: TextArea<'static>,
}

impl Password {
    pub fn new(alloc: Global) -> Result<Password, AllocError> {
        let mut area = TextArea::try_default(alloc)?;
        area.set_mask_char('•');
        area.set_cursor_line_style(Style::new());
        area.set_placeholder_style(Style::new().dark_gray());
        let placed = area.set_placeholder_text("at least 8 characters");
        placed.map(|()| Password { alloc, area })
    }

    // The number of characters that are missing.
    fn missing(&self) -> usize {
        8usize.saturating_sub(self.area.lines()[0].chars().count())
    }

    /// Tab shows the text or masks it. Enter ends the program if the text is long enough, and Esc.
    pub fn take(&mut self, input: Input) -> Result<bool, AllocError>
        ensures ends { EndsByEscPerhapsEnter input.key result }
    {
        match (input.key, self.area.mask_char()) {
            (Key::Esc, _) => return Ok(false),
            (Key::Enter, _) => return Ok(self.missing() > 0),
            (Key::Tab, Some(_)) => self.area.clear_mask_char(),
            (Key::Tab, None) => self.area.set_mask_char('•'),
            _ => {
                self.area.input_without_shortcuts(input)?;
            }
        }
        Ok(true)
    }

    /// Draws the field at the top of the screen, and below it what Enter or Tab would do.
    pub fn draw(&mut self, screen: Rect, buffer: &mut Buffer) -> Result<()> {
        let missing = self.missing();
        let block = titled(self.alloc, " Password ")?;
        self.area
            .set_block(block.border_style(checked_style(missing == 0)));
        let field = Rect::new(screen.x, screen.y, screen.width, 3);
        self.area.render(field.intersection(screen), buffer)?;
        let message = match missing {
            0 => format!(in self.alloc; "Enter goes on, Tab shows it.")?,
            1 => format!(in self.alloc; "One more character.")?,
            _ => format!(in self.alloc; "{missing} more characters.")?,
        };
        let below = Rect::new(screen.x, field.bottom(), screen.width, 1);
        Ok(say(buffer, below, message.as_str())?)
    }
}
