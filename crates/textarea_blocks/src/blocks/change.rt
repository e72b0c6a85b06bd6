//! Changes of blocks: replacing rows in one block or by whole blocks, which allocates nothing.
ghost use Rattle.std.specs.Prelude.{◌≡◌, ◌+◌, ◌-◌, ◌*◌, ◌<◌, ◌≤◌, ◌++◌, ◌∷◌, [], length, take, drop, get_or, set, vec_len, IfOk, OnErr, OnOk};
ghost use Rattle.textarea_blocks.specs.Prelude.{size_limit, replaced, FitsInBlock, IsEdge, all_rows, lines_before, row_total};

use super::RowBlocks;
use super::numbers::{Exchanged, exchange_both, shift_both};
use crate::sums::count_rows;
use std::alloc::AllocError;
use textarea_util::replace::replace_items;
use textarea_wrap::rows::Rows;

impl RowBlocks {
    // Replaces the rows of `count` lines of one block. Allocates nothing.
    pub(super) fn exchange(&mut self, block: usize, start: usize, count: usize, rows: Vec<Rows>)
        requires block { block < length self.old.blocks }
        requires within { start + count ≤ length (get_or self.old.blocks block []) }
        requires room { vec_len rows ≤ count + get_or self.old.spare block 0 }
        requires lines { length (all_rows self.old.blocks) + vec_len rows ≤ 2 * size_limit }
        requires rows { row_total (all_rows self.old.blocks) + row_total rows.items
            ≤ 2 * size_limit }
        ensures { self.new.blocks ≡ set self.old.blocks block
            (replaced (get_or self.old.blocks block []) start count rows.items) }
    {
        let removed_rows = &self.blocks[block].as_slice()[start..start + count];
        let new_rows = rows.as_slice();
        let (rows_gone, rows_come) = (count_rows(removed_rows), count_rows(new_rows));
        let (gone, come) = ((count, rows_gone), (new_rows.len(), rows_come));
        replace_items(&mut self.blocks[block], start, count, rows);
        shift_both(&mut self.lines, &mut self.rows, block + 1, gone, come);
    }

    // Replaces the blocks `from..to`. Allocates nothing.
    pub(super) fn exchange_blocks(&mut self, from: usize, to: usize, new: RowBlocks)
        requires ordered { from ≤ to }
        requires within { to ≤ length self.old.blocks }
        requires room { length new.blocks ≤ self.old.more + (to - from) }
        requires lines { length (all_rows self.old.blocks) + length (all_rows new.blocks)
            ≤ 2 * size_limit }
        requires rows { row_total (all_rows self.old.blocks) + row_total (all_rows new.blocks)
            ≤ 2 * size_limit }
        ensures blocks { self.new.blocks ≡ replaced self.old.blocks from (to - from) new.blocks }
        ensures spare { self.new.spare ≡ replaced self.old.spare from (to - from) new.spare }
        ensures more { self.old.more + (to - from) ≤ self.new.more + length new.blocks }
    {
        let (line, row) = (self.lines_before(from), self.rows_before(from));
        let lines_exchanged = Exchanged {
            from,
            to,
            before: line,
            gone: self.lines_before(to) - line,
            come: new.line_count(),
        };
        let rows_exchanged = Exchanged {
            from,
            to,
            before: row,
            gone: self.rows_before(to) - row,
            come: new.row_count(),
        };
        let RowBlocks {
            blocks,
            lines,
            rows,
        } = new;
        replace_items(&mut self.blocks, from, to - from, blocks);
        exchange_both(
            &mut self.lines,
            &mut self.rows,
            (lines, rows),
            (lines_exchanged, rows_exchanged),
        );
    }

    // Removes the blocks `from..to`. Allocates nothing.
    #[tactic(auto, using(crate::proofs::InBlocks::blocks_replaced))]
    fn remove_blocks(&mut self, from: usize, to: usize)
        requires ordered { from ≤ to }
        requires within { to ≤ length self.old.blocks }
        ensures { all_rows self.new.blocks
            ≡ replaced (all_rows self.old.blocks) (lines_before self.old.blocks from)
            (lines_before self.old.blocks to - lines_before self.old.blocks from) [] }
    {
        let alloc = *self.blocks.allocator();
        self.exchange_blocks(from, to, RowBlocks::new(alloc));
    }

    // Removes `count` lines from this block's start on, with blocks that become empty. Allocates
    // nothing.
    fn remove_first(&mut self, block: usize, count: usize)
        requires block { block ≤ length self.old.blocks }
        requires count { lines_before self.old.blocks block + count
            ≤ length (all_rows self.old.blocks) }
        ensures { all_rows self.new.blocks
            ≡ replaced (all_rows self.old.blocks) (lines_before self.old.blocks block) count [] }
    {
        if count == 0 {
            return;
        }
        let alloc = *self.blocks.allocator();
        let end = self.lines_before(block) + count;
        if end == self.line_count() {
            self.remove_blocks(block, self.block_count());
        } else {
            let (last, index) = self.place_of(end);
            self.exchange(last, 0, index, Vec::new(alloc));
            self.remove_blocks(block, last);
        }
    }

    /// Replaces the rows of the `count` lines from `row` on by those of a few lines, in the block
    /// of the line `row`. Allocates nothing.
    pub fn replace_few(&mut self, row: usize, count: usize, rows: Vec<Rows>)
        requires within { row + count ≤ length (all_rows self.old.blocks) }
        requires there { row < length (all_rows self.old.blocks) }
        requires room { FitsInBlock self.old row count (vec_len rows) }
        requires lines { length (all_rows self.old.blocks) + vec_len rows ≤ 2 * size_limit }
        requires rows { row_total (all_rows self.old.blocks) + row_total rows.items
            ≤ 2 * size_limit }
        ensures { all_rows self.new.blocks
            ≡ replaced (all_rows self.old.blocks) row count rows.items }
    {
        let (block, index) = self.place_of(row);
        let shared = count.min(self.blocks[block].len() - index);
        self.exchange(block, index, shared, rows);
        self.remove_first(block + 1, count - shared);
    }

    /// Replaces the rows of the `count` lines from `row` on by whole blocks. Allocates nothing.
    pub fn replace_many(&mut self, row: usize, count: usize, rows: RowBlocks)
        requires within { row + count ≤ length (all_rows self.old.blocks) }
        requires edge { IsEdge self.old.blocks row }
        requires room { length rows.blocks ≤ self.old.more }
        requires lines { length (all_rows self.old.blocks) + length (all_rows rows.blocks)
            ≤ 2 * size_limit }
        requires rows { row_total (all_rows self.old.blocks) + row_total (all_rows rows.blocks)
            ≤ 2 * size_limit }
        ensures { all_rows self.new.blocks
            ≡ replaced (all_rows self.old.blocks) row count (all_rows rows.blocks) }
    {
        let block = self.edge_of(row);
        let after = self.block_count() - block;
        self.exchange_blocks(block, block, rows);
        let blocks_now = self.block_count();
        self.remove_first(blocks_now - after, count);
    }
}
