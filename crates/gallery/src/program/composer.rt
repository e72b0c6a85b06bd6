//! # Composer with mentions
//!
//! A message with mentions: tokens that the cursor jumps over, and that are deleted as a whole.
//!
//! Keys: `@` inserts the next mention
//!
//! - An atomic range makes characters a token: the cursor jumps over it, and a deletion takes it
//!   whole. Ranges move with the text.
//! - After any inputs each token covers a whole name: this is proved.
//! - By `set_undo_ranges` an undo brings a deleted mention back, if none was added since.
//! - Custom highlights don't move with the text, so `draw` sets them again from the ranges. They
//!   are in bytes, ranges in characters.
//!
//! Read `mentions::mention` first.
ghost use Rattle.std.specs.Prelude.{IfOk};
ghost use Rattle.gallery.specs.Ends.{EndsByEsc};
ghost use Rattle.gallery.specs.Mentions.{AreWhole};

use crate::program::mentions::{edit, light_all, mention, name_of};
use anyhow::Result;
use std::alloc::{AllocError, Global};
use tui_textarea::{Block, Buffer, Input, Key, Rect, Style, TextArea};

#[derive(Drop)]
pub struct Composer {
    alloc: Global,
    area: TextArea<'static>,
}

impl Composer {
    pub fn new(alloc: Global) -> Result<Composer, AllocError>
        ensures whole { IfOk result (λ composer. AreWhole composer.area) }
    {
        let mut area = TextArea::try_default(alloc)?;
        area.set_block(Block::bordered());
        area.set_cursor_line_style(Style::new());
        area.set_undo_ranges(true);
        Ok(Composer { alloc, area })
    }

    /// An at sign inserts the next mention. Esc ends the program.
    pub fn take(&mut self, input: Input) -> Result<bool>
        ensures ends { EndsByEsc input.key result }
        ensures whole { AreWhole self.old.area → AreWhole self.new.area }
    {
        match input.key {
            Key::Esc => return Ok(false),
            Key::Char('@') => {
                let name = name_of(self.area.atomic_ranges().len());
                mention(&mut self.area, self.alloc, name)??;
            }
            _ => edit(&mut self.area, input)?,
        }
        Ok(true)
    }

    /// Draws the message over the screen, with its mentions lit.
    pub fn draw(&mut self, screen: Rect, buffer: &mut Buffer) -> Result<(), AllocError>
        ensures whole { AreWhole self.old.area → AreWhole self.new.area }
    {
        let ranges = Vec::from_slice(self.alloc, self.area.atomic_ranges())?;
        light_all(&mut self.area, ranges.as_slice())?;
        self.area.render(screen, buffer)
    }
}
