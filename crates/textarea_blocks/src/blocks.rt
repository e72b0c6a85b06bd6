//! The visual rows of lines, in blocks of consecutive lines, with the number of lines and of visual
//! rows before each block. A replacement moves only the rows after it in one block, or whole
//! blocks. Of the later blocks only these two numbers change, and not even they while successive
//! changes are in one block.
ghost use Rattle.std.specs.Prelude.{◌≡◌, ◌+◌, ◌≤◌, ◌++◌, ◌∷◌, [], length, OnErr, OnOk};
ghost use Rattle.textarea_blocks.specs.Prelude.{all_rows, row_total};

use self::numbers::Numbers;
use crate::sums::count_rows;
use std::alloc::{AllocError, Global};
use std::marker::Model;
use textarea_util::limit::within_limit;
use textarea_wrap::rows::Rows;

mod change;
mod look_up;
mod numbers;
mod room;

/// The visual rows of lines, in blocks of consecutive lines.
#[derive(Drop)]
pub struct RowBlocks {
    blocks: Vec<Vec<Rows>>,
    lines: Numbers,
    rows: Numbers,
}

impl Model for RowBlocks {
    ghost use Rattle.std.specs.Prelude.{◌-◌, min, vec_len, vec_capacity};
    ghost use Rattle.textarea_blocks.specs.Blocks.{BlocksView, rows_of_each, spare_of_each};
    ghost use Rattle.textarea_blocks.specs.Numbered.{AreNumbered};

    ghost Value = { BlocksView };

    ghost view = { λ blocks. record {
      blocks = rows_of_each blocks.blocks.items;
      spare = spare_of_each blocks.blocks.items;
      more = min (vec_capacity blocks.blocks - vec_len blocks.blocks)
          (min blocks.lines.spare blocks.rows.spare);
    } };

    ghost invariant = { λ blocks.
        AreNumbered (rows_of_each blocks.blocks.items) blocks.lines.numbers blocks.rows.numbers };
}

impl Clone for RowBlocks {
    ghost is_clone = { λ blocks copy. copy.blocks ≡ blocks.blocks };

    /// Returns the same rows in the same blocks, or an error if memory runs out.
    fn clone(&self) -> Result<RowBlocks, AllocError> {
        let blocks = self.blocks.clone()?;
        let lines = self.lines.clone()?;
        let rows = self.rows.clone()?;
        Ok(RowBlocks {
            blocks,
            lines,
            rows,
        })
    }
}

impl RowBlocks {
    /// Returns no blocks. Allocates nothing.
    pub fn new(alloc: Global) -> RowBlocks
        ensures { result.blocks ≡ [] }
    {
        RowBlocks {
            blocks: Vec::new(alloc),
            lines: Numbers::new(alloc),
            rows: Numbers::new(alloc),
        }
    }

    /// Appends the rows as one block. More than 2^48 lines or visual rows in all are out of memory.
    pub fn push(&mut self, rows: Vec<Rows>) -> Result<(), AllocError>
        ensures { OnOk result (self.new.blocks ≡ self.old.blocks ++ rows.items ∷ []) }
    {
        let (lines, count) = (self.line_count(), self.row_count());
        within_limit(lines.saturating_add(rows.len()))?;
        within_limit(count.saturating_add(count_rows(rows.as_slice())))?;
        self.reserve(1)?;
        let _ = self.blocks.push(rows);
        self.lines.push(lines);
        self.rows.push(count);
        Ok(())
    }

    /// Reserves room for `more` blocks. Out of memory, all stays, the room too: what has the least
    /// room grows last.
    pub fn reserve(&mut self, more: usize) -> Result<(), AllocError>
        ensures same { self.new.blocks ≡ self.old.blocks }
        ensures spare { self.new.spare ≡ self.old.spare }
        ensures room { OnOk result (more ≤ self.new.more) }
        ensures err { OnErr result (self.new ≡ self.old) }
    {
        let room = self.blocks.capacity() - self.blocks.len();
        let (lines, rows) = (self.lines.spare(), self.rows.spare());
        if room <= lines && room <= rows {
            self.lines.reserve(more)?;
            self.rows.reserve(more)?;
            return self.blocks.reserve(more);
        }
        self.blocks.reserve(more)?;
        if lines <= rows {
            self.rows.reserve(more)?;
            return self.lines.reserve(more);
        }
        self.lines.reserve(more)?;
        self.rows.reserve(more)
    }

    /// Returns the allocator of the blocks.
    pub fn allocator(&self) -> Global {
        *self.blocks.allocator()
    }

    /// Returns the number of blocks.
    pub fn block_count(&self) -> usize
        ensures { result ≡ length self.now.blocks }
    {
        self.blocks.len()
    }

    /// Returns the number of lines in all blocks.
    pub fn line_count(&self) -> usize
        ensures { result ≡ length (all_rows self.now.blocks) }
    {
        self.lines_before(self.blocks.len())
    }

    /// Returns the number of visual rows of all lines.
    pub fn row_count(&self) -> usize
        ensures { result ≡ row_total (all_rows self.now.blocks) }
    {
        self.rows_before(self.blocks.len())
    }
}
