//! # Editor
//!
//! An editor with line numbers, soft wrap, a lit cursor line, a selection and a status.
//!
//! - `input` has the keys of an editor: moves by words and paragraphs, selecting with Shift, undo,
//!   cut and paste.
//! - `input` returns whether the text changed, so the mark of a changed text needs no comparison.
//! - By `set_cursor_unit` a letter with its accents is one step, and deleted as one.
//! - A wide character has two cells, and the cell after it is empty.
//! - The status is the title of a block without borders; `set_style` gives the whole row its
//!   colours.
ghost use Rattle.gallery.specs.Ends.{EndsByEsc};

use anyhow::Result;
use std::alloc::{AllocError, Global};
use textarea_terminal::input::{Mouse, MouseButton, MouseKind};
use tui_textarea::{
    Block, Buffer, CursorUnit, Input, Key, Line, Position, Rect, Style, TextArea, WrapMode,
};

const TEXT: &str = "# Notes\n\nA line that is longer than the screen goes on in the next row, \
    and has one number.\n\n- 漢字 and other wide characters\n- a selection from here to there";

#[derive(Drop)]
pub struct EditorProgram {
    alloc: Global,
    area: TextArea<'static>,
    is_changed: bool,
}

fn set_up(area: &mut TextArea<'_>) -> Result<(), AllocError> {
    area.set_cursor_line_style(Style::new().on_dark_gray());
    area.set_selection_style(Style::new().black().on_cyan());
    area.set_cursor_unit(CursorUnit::Cluster);
    area.set_line_number_style(Style::new().dark_gray())?;
    area.set_wrap_mode(WrapMode::Word)
}

impl EditorProgram {
    pub fn new(alloc: Global) -> Result<EditorProgram> {
        let mut area = TextArea::from_text(alloc, TEXT)?;
        set_up(&mut area)?;
        let is_changed = false;
        Ok(EditorProgram {
            alloc,
            area,
            is_changed,
        })
    }

    /// The keys and the wheel are those of the text area. Esc ends the program.
    pub fn take(&mut self, input: Input) -> Result<bool>
        ensures ends { EndsByEsc input.key result }
    {
        if input.key == Key::Esc {
            return Ok(false);
        }
        let is_changed = self.area.input(input)?;
        self.is_changed = self.is_changed || is_changed;
        Ok(true)
    }

    /// A click moves the cursor, and a drag selects.
    pub fn take_mouse(&mut self, mouse: &Mouse) -> Result<()> {
        let drags = match mouse.kind {
            MouseKind::Press(MouseButton::Left) => false,
            MouseKind::Drag(MouseButton::Left) => true,
            _ => return Ok(()),
        };
        let cell = Position {
            x: mouse.column,
            y: mouse.row,
        };
        if let Some(place) = self.area.cursor_at_position(cell)? {
            if !drags {
                self.area.cancel_selection();
            } else if !self.area.is_selecting() {
                self.area.start_selection();
            }
            self.area.go_to(place);
        }
        Ok(())
    }

    /// Draws the status in the top row, and the text below it.
    pub fn draw(&mut self, screen: Rect, buffer: &mut Buffer) -> Result<()> {
        let mark = if self.is_changed { "*" } else { "" };
        let line = self.area.cursor().0.saturating_add(1);
        let status = format!(in self.alloc; " notes.md{mark}, line {line}")?;
        self.area.set_block(Block::new().title(Line::raw(status)?));
        self.area.render(screen, buffer)?;
        let top = Rect::new(screen.x, screen.y, screen.width, 1);
        buffer.set_style(top.intersection(screen), Style::new().reversed());
        Ok(())
    }
}
