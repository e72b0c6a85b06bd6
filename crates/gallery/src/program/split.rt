//! # Split screen
//!
//! Two text areas on one screen, and below them what changed last.
//!
//! Keys: Tab: the other text
//!
//! - Each text area has its own text, cursor and history. The one without the focus draws its
//!   cursor in a plain style.
//! - `take_changes` returns what changed in a text: where, and by which lines. Applied one after
//!   another to the text from before, the changes give the text as it is: this is proved.
//!
//! Read `take` first.
ghost use Rattle.gallery.specs.Ends.{EndsByEsc};

use crate::program::{cursor_style, field, say};
use std::alloc::{AllocError, Global};
use tui_textarea::{Buffer, ChangeUnit, Input, Key, Rect, TextArea, TextChange};

#[derive(Drop)]
pub struct Split {
    alloc: Global,
    areas: Vec<TextArea<'static>>,
    focus: usize,
    /// The last change.
    change: String,
}

impl Split {
    pub fn new(alloc: Global) -> Result<Split, AllocError> {
        let mut areas = Vec::new(alloc);
        areas.push(logged(alloc, " left ")?)?;
        areas.push(logged(alloc, " right ")?)?;
        Ok(Split {
            alloc,
            areas,
            focus: 0,
            change: String::new(alloc),
        })
    }

    /// Tab moves the focus, and Esc ends the program.
    pub fn take(&mut self, input: Input) -> Result<bool, AllocError>
        ensures ends { EndsByEsc input.key result }
    {
        match input.key {
            Key::Esc => return Ok(false),
            Key::Tab => self.focus = usize::from(self.focus == 0),
            _ => {
                if let Some(area) = self.areas.get_mut(self.focus) {
                    area.input(input)?;
                    let changes = area.take_changes();
                    self.note(changes.as_slice())?;
                }
            }
        }
        Ok(true)
    }

    // Has the last of these changes shown.
    fn note(&mut self, changes: &[TextChange]) -> Result<(), AllocError> {
        if let Some(change) = changes.last() {
            let (start, end) = (change.start, change.end);
            let lines = change.lines.join(self.alloc, "\\n")?;
            self.change = format!(in self.alloc;
                "{}:{} to {}:{} is now '{lines}'",
                start.0, start.1, end.0, end.1
            )?;
        }
        Ok(())
    }

    /// Draws the two side by side, and the last change below. Only the one with the focus shows its
    /// cursor.
    pub fn draw(&mut self, screen: Rect, buffer: &mut Buffer) -> Result<(), AllocError> {
        let rows = screen.height.saturating_sub(1);
        let half = screen.width / 2;
        let mut column = Rect::new(screen.x, screen.y, half, rows);
        for (index, area) in self.areas.iter_mut().enumerate() {
            area.set_cursor_style(cursor_style(index == self.focus));
            area.render(column.intersection(screen), buffer)?;
            column = Rect::new(column.right(), screen.y, screen.width, rows);
        }
        let below = Rect::new(screen.x, column.bottom(), screen.width, 1);
        say(buffer, below.intersection(screen), self.change.as_str())
    }
}

// An empty text area that keeps what changes, in characters.
fn logged(alloc: Global, title: &'static str) -> Result<TextArea<'static>, AllocError> {
    let mut area = field(alloc, title)?;
    area.set_change_log(Some(ChangeUnit::Characters));
    Ok(area)
}
