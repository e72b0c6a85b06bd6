//! The block, the placeholder, and the least and the greatest height.
pub mod measure;
mod placeholder;

ghost use Rattle.std.specs.Prelude.{◌≡◌, IfOk, None, Some};
ghost use Rattle.textarea_view.specs.Prelude.{option_map, block_view, AreBounds, new_surround, with_max_rows, with_min_rows};

use std::alloc::{AllocError, Global};
use std::marker::Model;
use textarea_screen::screen::{Block, Color, Style, Text};

/// The block around a text area's rows, the placeholder for an empty text, and the height limits.
///
/// The placeholder is drawn if the text is empty and the placeholder has lines. Heights are in rows
/// of the whole area; the least is at least 1, and the greatest is no less. A call that runs out of
/// memory changes nothing.
#[derive(Drop)]
pub struct Surround<'a> {
    block: Option<Block<'a>>,
    placeholder: Text<'a>,
    min_rows: u16,
    max_rows: u16,
}

impl<'a> Model for Surround<'a> {
    ghost use Rattle.std.specs.Option.{option_map};
    ghost use Rattle.textarea_screen.specs.Block.{block_view};
    ghost use Rattle.textarea_screen.specs.Text.{text_view};
    ghost use Rattle.textarea_view.specs.SurroundState.{AreBounds, SurroundState};

    ghost Value = { SurroundState };

    ghost view = { λ surround. record {
      block = option_map block_view surround.block;
      placeholder = text_view surround.placeholder;
      min_rows = surround.min_rows;
      max_rows = surround.max_rows;
    } };

    ghost invariant = { λ surround. AreBounds surround.min_rows surround.max_rows };
}

impl<'a> Surround<'a> {
    /// Returns the initial state: no block, no placeholder line, a dark gray placeholder style, and
    /// heights from 1 to 65535 rows.
    pub fn new(alloc: Global) -> Surround<'a>
        ensures { result ≡ new_surround }
    {
        Surround {
            block: None,
            placeholder: Text {
                lines: Vec::new(alloc),
                style: Style::new().fg(Color::DarkGray),
            },
            min_rows: 1,
            max_rows: u16::MAX,
        }
    }

    /// Returns a copy. The owned texts of the title and the placeholder are copied.
    pub fn clone(&self) -> Result<Surround<'a>, AllocError>
        ensures { IfOk result (λ surround. surround ≡ self.now) }
    {
        let block = match &self.block {
            Some(block) => Some(block.clone()?),
            None => None,
        };
        Ok(Surround {
            block,
            placeholder: self.placeholder.clone()?,
            min_rows: self.min_rows,
            max_rows: self.max_rows,
        })
    }

    /// Sets the block around the rows, which replaces any other.
    pub fn set_block(&mut self, block: Block<'a>)
        ensures { self.new ≡ record self.old { block = Some (block_view block.entry) } }
    {
        self.block = Some(block);
    }

    /// Removes the block, if there is one.
    pub fn remove_block(&mut self)
        ensures { self.new ≡ record self.old { block = None } }
    {
        self.block = None;
    }

    /// Returns the block around the rows, if there is one.
    pub fn block(&self) -> Option<&Block<'a>>
        ensures { option_map (λ block. block_view block.now) result ≡ self.now.block }
    {
        self.block.as_ref()
    }

    /// Sets the least height in rows of the whole area, at least 1. A lower greatest one is raised.
    pub fn set_min_rows(&mut self, rows: u16)
        ensures { self.new ≡ with_min_rows self.old rows }
    {
        self.min_rows = rows.max(1);
        self.max_rows = self.max_rows.max(self.min_rows);
    }

    /// Returns the least height, in rows of the whole area: at least 1, and at most the greatest.
    pub fn min_rows(&self) -> u16
        ensures value { result ≡ self.now.min_rows }
        ensures bounds { AreBounds result self.now.max_rows }
    {
        self.min_rows
    }

    /// Sets the greatest height, in rows of the whole area, at least the least height.
    pub fn set_max_rows(&mut self, rows: u16)
        ensures { self.new ≡ with_max_rows self.old rows }
    {
        self.max_rows = rows.max(1).max(self.min_rows);
    }

    /// Returns the greatest height, in rows of the whole area: at least the least.
    pub fn max_rows(&self) -> u16
        ensures value { result ≡ self.now.max_rows }
        ensures bounds { AreBounds self.now.min_rows result }
    {
        self.max_rows
    }
}
