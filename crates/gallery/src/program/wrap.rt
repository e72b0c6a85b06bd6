//! # Wrapping
//!
//! One text in three text areas, each of which wraps it in its own way.
//!
//! - `None` scrolls to the cursor. `Word` breaks a word only if it is wider than the area. `Glyph`
//!   fills each row.
ghost use Rattle.gallery.specs.Ends.{EndsByEsc};

use crate::program::field;
use std::alloc::{AllocError, Global};
use tui_textarea::{Buffer, CursorMove, Input, Key, Rect, TextArea, WrapMode};

const TEXT: &str = "Words go on in the next row but not Donaudampfschifffahrt";

#[derive(Drop)]
pub struct Wraps {
    areas: Vec<TextArea<'static>>,
}

impl Wraps {
    pub fn new(alloc: Global) -> Result<Wraps, AllocError> {
        let mut areas = Vec::new(alloc);
        areas.push(area_with(alloc, " None ", WrapMode::None)?)?;
        areas.push(area_with(alloc, " Word ", WrapMode::Word)?)?;
        areas.push(area_with(alloc, " Glyph ", WrapMode::Glyph)?)?;
        Ok(Wraps { areas })
    }

    /// Each key goes to all three. Esc ends the program.
    pub fn take(&mut self, input: Input) -> Result<bool, AllocError>
        ensures ends { EndsByEsc input.key result }
    {
        if input.key == Key::Esc {
            return Ok(false);
        }
        for area in &mut self.areas {
            area.input(input.clone()?)?;
        }
        Ok(true)
    }

    /// Draws the three side by side.
    pub fn draw(&mut self, screen: Rect, buffer: &mut Buffer) -> Result<(), AllocError> {
        let width = screen.width / 3;
        let mut column = Rect::new(screen.x, screen.y, width, screen.height);
        for area in &mut self.areas {
            area.render(column.intersection(screen), buffer)?;
            column = Rect::new(column.right(), screen.y, width, screen.height);
        }
        Ok(())
    }
}

// A text area with the text that is wrapped in this mode.
fn area_with(
    alloc: Global,
    name: &'static str,
    mode: WrapMode,
) -> Result<TextArea<'static>, AllocError> {
    let mut area = field(alloc, name)?;
    fill(&mut area, mode)?;
    Ok(area)
}

fn fill(area: &mut TextArea<'_>, mode: WrapMode) -> Result<(), AllocError> {
    area.insert_str(TEXT)?;
    area.move_cursor(CursorMove::Head);
    area.set_wrap_mode(mode)
}
