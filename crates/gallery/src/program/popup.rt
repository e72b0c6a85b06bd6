//! # Popup
//!
//! A field in the middle of the screen, with a placeholder in two styles.
//!
//! Keys: Enter ends it too
//!
//! - A placeholder is a styled text, with its own spans. The cursor is on its first cell.
//! - A drawing changes only the cells of its area, so whatever is around the popup stays.
ghost use Rattle.gallery.specs.Ends.{EndsByEscOrEnter};

use crate::program::titled;
use std::alloc::{AllocError, Global};
use tui_textarea::{Buffer, Input, Key, Line, Padding, Rect, Span, Style, Text, TextArea};

#[derive(Drop)]
pub struct Popup {
    area: TextArea<'static>,
}

impl Popup {
    pub fn new(alloc: Global) -> Result<Popup, AllocError> {
        let mut spans = Vec::new(alloc);
        spans.push(Span::styled("Press ", Style::new().dark_gray()))?;
        spans.push(Span::styled("Enter", Style::new().yellow().bold()))?;
        spans.push(Span::styled(" to go on", Style::new().dark_gray()))?;
        let mut lines = Vec::new(alloc);
        lines.push(Line::from_spans(spans))?;
        let block = titled(alloc, " Your name ")?;
        let mut area = TextArea::try_default(alloc)?;
        area.set_styled_placeholder(Text::from_lines(lines));
        area.set_block(block.padding(Padding::new(1, 1, 0, 0)));
        area.set_cursor_line_style(Style::new());
        Ok(Popup { area })
    }

    /// Enter and Esc end the program.
    pub fn take(&mut self, input: Input) -> Result<bool, AllocError>
        ensures ends { EndsByEscOrEnter input.key result }
    {
        match input.key {
            Key::Esc | Key::Enter => return Ok(false),
            _ => self.area.input(input)?,
        };
        Ok(true)
    }

    /// Draws the field in the middle of the screen, over whatever is there.
    pub fn draw(&mut self, screen: Rect, buffer: &mut Buffer) -> Result<(), AllocError> {
        let width = screen.width.min(28);
        let height = screen.height.min(3);
        let x = screen.x + (screen.width - width) / 2;
        let y = screen.y + (screen.height - height) / 2;
        self.area.render(Rect::new(x, y, width, height), buffer)
    }
}
