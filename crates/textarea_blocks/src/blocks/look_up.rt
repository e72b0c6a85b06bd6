//! Look-ups in blocks: the line at an index, its visual rows, and the totals before it.
ghost use Rattle.std.specs.Prelude.{◌≡◌, ◌+◌, ◌<◌, ◌≤◌, [], length, take, drop, get_or, min, slice_get, Some};
ghost use Rattle.textarea_blocks.specs.Prelude.{IsBlockOf, IsEdge, all_rows, lines_before, marks_at, ranges_at, row_total, size_total};

use super::RowBlocks;
use crate::sums::{count_rows, size_of_rows};
use textarea_wrap::rows::Rows;

impl RowBlocks {
    // Returns the number of lines before this block.
    pub(super) fn lines_before(&self, block: usize) -> usize
        requires { block ≤ length self.now.blocks }
        ensures { result ≡ lines_before self.now.blocks block }
    {
        if block == 0 {
            return 0;
        }
        self.lines.at(block - 1) + self.blocks[block - 1].len()
    }

    // Returns the number of visual rows before this block.
    pub(super) fn rows_before(&self, block: usize) -> usize
        requires { block ≤ length self.now.blocks }
        ensures { result ≡ row_total (all_rows (take block self.now.blocks)) }
    {
        if block == 0 {
            return 0;
        }
        self.rows.at(block - 1) + count_rows(self.blocks[block - 1].as_slice())
    }

    // Returns the block of a line, and the line's index in it.
    pub(super) fn place_of(&self, line: usize) -> (usize, usize)
        requires { line < length (all_rows self.now.blocks) }
        ensures block { IsBlockOf self.now.blocks line result.0 }
        ensures line { lines_before self.now.blocks result.0 + result.1 ≡ line }
        ensures within { result.1 < length (get_or self.now.blocks result.0 []) }
    {
        let block = self.lines.last_at_most(line);
        (block, line - self.lines.at(block))
    }

    // Returns the block that begins with the line, or the number of blocks if it is after all
    // lines.
    pub(super) fn edge_of(&self, line: usize) -> usize
        requires { IsEdge self.now.blocks line }
        ensures within { result ≤ length self.now.blocks }
        ensures edge { lines_before self.now.blocks result ≡ line }
    {
        if line == self.line_count() {
            return self.block_count();
        }
        self.place_of(line).0
    }

    /// Returns the visual rows of the line.
    pub fn rows_at(&self, line: usize) -> &Rows
        requires { line < length (all_rows self.now.blocks) }
        ensures ranges { result.now.ranges ≡ ranges_at (all_rows self.now.blocks) line }
        ensures marks { result.now.marks ≡ marks_at (all_rows self.now.blocks) line }
        ensures rows { slice_get (all_rows self.now.blocks) line ≡ Some result.now }
    {
        let (block, index) = self.place_of(line);
        &self.blocks[block][index]
    }

    /// Returns the first visual row of the line.
    pub fn first_row(&self, line: usize) -> usize
        requires { line < length (all_rows self.now.blocks) }
        ensures { result ≡ row_total (take line (all_rows self.now.blocks)) }
    {
        let (block, index) = self.place_of(line);
        self.rows.at(block) + count_rows(&self.blocks[block].as_slice()[..index])
    }

    /// Returns the line of the visual row, and the row's index in that line.
    pub fn line_of_row(&self, row: usize) -> (usize, usize)
        requires { row < row_total (all_rows self.now.blocks) }
        ensures line { result.0 < length (all_rows self.now.blocks) }
        ensures row { row_total (take result.0 (all_rows self.now.blocks)) + result.1 ≡ row }
        ensures number { result.1 < length (ranges_at (all_rows self.now.blocks) result.0) }
    {
        let block = self.rows.last_at_most(row);
        let rows_before = self.rows.at(block);
        let (index, left) = row_in(self.blocks[block].as_slice(), row - rows_before);
        let lines_before = self.lines.at(block);
        (lines_before + index, left)
    }

    /// Returns the number of visual rows of the `count` lines from `line` on, and the sum of the
    /// bytes and the number of these lines. The sum is at most the greatest `usize`.
    pub fn sums_of(&self, line: usize, count: usize) -> (usize, usize)
        requires { line + count ≤ length (all_rows self.now.blocks) }
        ensures rows { result.0 ≡ row_total (take count (drop line (all_rows self.now.blocks))) }
        ensures size { result.1
            ≡ min (size_total (take count (drop line (all_rows self.now.blocks)))) usize.MAX }
    {
        let (mut rows, mut size) = (0, 0usize);
        if count == 0 {
            return (rows, size);
        }
        let (mut block, mut index) = self.place_of(line);
        let mut left = count;
        'walking: while 0 < left {
            let here = self.blocks[block].as_slice();
            let portion = left.min(here.len() - index);
            let segment = &here[index..index + portion];
            rows += count_rows(segment);
            size = size.saturating_add(size_of_rows(segment));
            left -= portion;
            block += 1;
            index = 0;
        }
        (rows, size)
    }
}

// Returns the line of a visual row of these lines, and the row's index in that line.
fn row_in(rows: &[Rows], row: usize) -> (usize, usize)
    requires { row < row_total rows.now }
    ensures line { result.0 < length rows.now }
    ensures row { row_total (take result.0 rows.now) + result.1 ≡ row }
    ensures number { result.1 < length (ranges_at rows.now result.0) }
{
    let mut line = 0;
    let mut left = row;
    'walking: loop {
        let count = rows[line].as_slice().len();
        if left < count {
            return (line, left);
        }
        left -= count;
        line += 1;
    }
}
