//! # Modal editor
//!
//! A modal editor, whose border and title show its mode.
//!
//! Keys: those of `textarea_modal`; `q` ends it
//!
//! - `Modal` has a mode and a table of keys. It makes calls on a text area that the program owns.
//! - `from_text` makes a text area of a file's text; a line feed at its end begins no line.
//!
//! Read `take` first.

use crate::program::titled;
use std::alloc::{AllocError, Global};
use textarea_modal::{Modal, ModalStop, Mode};
use tui_textarea::{Buffer, Input, Rect, Style, TextArea};

const TEXT: &str = "fn main() {\n    println!(\"Hello, wide world\");\n}";

#[derive(Drop)]
pub struct ModalEditor {
    alloc: Global,
    area: TextArea<'static>,
    modal: Modal,
}

impl ModalEditor {
    pub fn new(alloc: Global) -> Result<ModalEditor, AllocError> {
        let mut area = TextArea::from_text(alloc, TEXT)?;
        area.set_cursor_line_style(Style::new());
        let modal = Modal::new();
        Ok(ModalEditor { alloc, area, modal })
    }

    /// The keys are those of the modal editor, in which `q` ends the program.
    pub fn take(&mut self, input: Input) -> Result<bool, AllocError> {
        match self.modal.run(&mut self.area, &[input]).stop {
            ModalStop::End => Ok(true),
            ModalStop::Quit => Ok(false),
            ModalStop::Memory => Err(AllocError),
        }
    }

    /// Draws the text in a block over the screen.
    pub fn draw(&mut self, screen: Rect, buffer: &mut Buffer) -> Result<(), AllocError> {
        let (title, style) = match self.modal.mode() {
            Mode::Normal => (" NORMAL ", Style::new()),
            Mode::Insert => (" INSERT ", Style::new().green()),
            Mode::Visual => (" VISUAL ", Style::new().yellow()),
            Mode::Operator(_) => (" OPERATOR ", Style::new().magenta()),
        };
        let block = titled(self.alloc, title)?.border_style(style);
        self.area.set_block(block);
        self.area.render(screen, buffer)
    }
}
