//! The visual rows of each line of a text, in blocks of lines. They count from 0 over all lines.
ghost use Rattle.std.specs.Prelude.{◌≡◌, ◌+◌, ◌*◌, ◌<◌, ◌≤◌, ◌↔◌, ◌∷◌, [], ℕ, List, chars, length, max, min, slice_get, take, IfOk, Some, IsOk, OnErr, OnOk};
ghost use Rattle.textarea_screen_map.specs.Prelude.{size_limit, replaced, size_of, lines_of, AreRowsOf, ticks_after, ticks_of, with_tab_len, IsEdge, all_rows, IsWithinLimit, marks_at, ranges_at, row_total, size_total, HasRoom, CanPutRows, IsPreparedFor, rows_in, rows_with};
ghost use Rattle.textarea_wrap.specs.Marks.{marks_of};
ghost use Rattle.textarea_wrap.specs.WrapResult.{IsWrapped};
ghost use Rattle.textarea_wrap.specs.declared.wrap.WrapMode.TheVariants as mode;

use crate::layout::{Wrapping, rows_of, rows_of_changed};
use crate::wrapped_blocks::{BLOCK, push_lines};
pub use look_up::RowText;
use std::alloc::{AllocError, Global};
use std::marker::Model;
use textarea_blocks::blocks::RowBlocks;
use textarea_blocks::sums::{count_rows, size_of_rows};
use textarea_text::rows::size_within_limit;
use textarea_util::limit::within_limit;
use textarea_wrap::wrap::{Rows, WrapCount};

mod look_up;

/// The visual rows of all lines, at most 2^48 bytes and lines together. They change in two steps:
/// `prepare` changes no rows and may run out of memory; `replace` allocates nothing and wraps
/// nothing.
#[derive(Drop)]
pub struct ScreenMap {
    blocks: RowBlocks,
    total: usize,
    size: usize,
    wrapping: Wrapping,
}

impl Model for ScreenMap {
    ghost use Rattle.textarea_blocks.specs.Blocks.{all_rows};
    ghost use Rattle.textarea_screen_map.specs.Map.{IsCounted, MapView};

    ghost Value = { MapView };

    ghost view = { λ map. record {
      rows = all_rows map.blocks.blocks;
      wrapping = map.wrapping;
      room = map.blocks;
    } };

    ghost invariant = { λ map. IsCounted (all_rows map.blocks.blocks) map.total map.size };
}

/// New rows for a map: those of a few lines become part of a block, those of many are blocks of
/// their own.
#[derive(Drop)]
pub enum NewRows {
    /// Rows of at most `BLOCK` lines.
    Few(Vec<Rows>),
    /// Rows of more lines, or of lines after all others.
    Many(RowBlocks),
}

/// Rows that will replace those of the `count` lines from `row` on, and what the map has after that:
/// the number of all rows, the bytes and the number of all lines together, and the wrapping. The map
/// has room for the rows.
#[derive(Drop)]
pub struct PreparedRows {
    pub row: usize,
    pub count: usize,
    pub rows: NewRows,
    pub total: usize,
    pub size: usize,
    pub wrapping: Wrapping,
}

impl Clone for ScreenMap {
    ghost is_clone = { λ map copy. (copy.rows ≡ map.rows) × (copy.wrapping ≡ map.wrapping) };

    /// Returns a map with the same wrapping and rows, each `tick` included. Wraps no line.
    fn clone(&self) -> Result<ScreenMap, AllocError> {
        Ok(ScreenMap {
            blocks: self.blocks.clone()?,
            total: self.total,
            size: self.size,
            wrapping: self.wrapping,
        })
    }
}

/// Returns the rows of all these lines, in blocks if they are more than `BLOCK` lines. Each line
/// adds one to `count`. More than 2^48 lines or rows are out of memory.
pub fn new_rows(
    alloc: Global,
    lines: &[String],
    wrapping: Wrapping,
    count: &mut WrapCount,
) -> Result<NewRows, AllocError>
    ensures counted { OnOk result (count.new ≡ count.old + length lines.now) }
    ensures never_less { count.old ≤ count.new }
    ensures rows { IfOk result (λ rows. AreRowsOf wrapping (lines_of lines.now) (rows_in rows)) }
    ensures ticks { IfOk result (λ rows.
        ticks_of (rows_in rows) ≡ ticks_after count.old (length lines.now)) }
{
    if lines.len() <= BLOCK {
        let rows = rows_of(alloc, lines, wrapping, count)?;
        return Ok(NewRows::Few(rows));
    }
    let mut blocks = RowBlocks::new(alloc);
    push_lines(alloc, &mut blocks, lines, wrapping, count)?;
    Ok(NewRows::Many(blocks))
}

// Returns the number of rows, and the bytes and the number of their lines, up to `usize::MAX`.
fn sums_of(rows: &NewRows) -> (usize, usize)
    ensures rows { result.0 ≡ min (row_total (rows_in rows.now)) usize.MAX }
    ensures size { result.1 ≡ min (size_total (rows_in rows.now)) usize.MAX }
{
    match rows {
        NewRows::Few(rows) => (count_rows(rows.as_slice()), size_of_rows(rows.as_slice())),
        NewRows::Many(rows) => rows.sums_of(0, rows.line_count()),
    }
}

// Returns one block with these rows.
fn block_of(rows: Vec<Rows>) -> Result<RowBlocks, AllocError>
    ensures { IfOk result (λ block. block.blocks ≡ rows.items ∷ []) }
{
    let mut block = RowBlocks::new(*rows.allocator());
    block.push(rows)?;
    Ok(block)
}

// Replaces the rows of the `count` lines from `row` on. There must be room. Allocates nothing.
fn put_rows(blocks: &mut RowBlocks, row: usize, count: usize, rows: NewRows)
    requires within { row + count ≤ length (all_rows blocks.old.blocks) }
    requires room { HasRoom (all_rows blocks.old.blocks) blocks.old row count rows }
    requires lines { length (all_rows blocks.old.blocks) + length (rows_in rows)
        ≤ 2 * size_limit }
    requires rows { row_total (all_rows blocks.old.blocks) + row_total (rows_in rows)
        ≤ 2 * size_limit }
    ensures { all_rows blocks.new.blocks
        ≡ replaced (all_rows blocks.old.blocks) row count (rows_in rows) }
{
    match rows {
        NewRows::Few(rows) => blocks.replace_few(row, count, rows),
        NewRows::Many(rows) => blocks.replace_many(row, count, rows),
    }
}

impl ScreenMap {
    /// Returns the map of the lines, each wrapped once. Out of memory above 2^48 bytes and lines.
    pub fn new(
        alloc: Global,
        lines: &[String],
        wrapping: Wrapping,
        counter: &mut WrapCount,
    ) -> Result<ScreenMap, AllocError>
        ensures rows { IfOk result (λ map. AreRowsOf map.wrapping (lines_of lines.now) map.rows) }
        ensures wrapping { IfOk result (λ map. map.wrapping ≡ wrapping) }
        ensures ticks { IfOk result (λ map.
            ticks_of map.rows ≡ ticks_after counter.old (length lines.now)) }
        ensures counted { OnOk result (counter.new ≡ counter.old + length lines.now) }
        ensures never_less { counter.old ≤ counter.new }
        ensures limit { OnOk result (size_of lines.now ≤ size_limit) }
    {
        let size = size_within_limit(lines)?;
        let mut blocks = RowBlocks::new(alloc);
        push_lines(alloc, &mut blocks, lines, wrapping, counter)?;
        let total = blocks.row_count();
        Ok(ScreenMap {
            blocks,
            total,
            size,
            wrapping,
        })
    }

    /// Returns a map with these rows, of this wrapping. Wraps no line. Out of memory above 2^48 bytes
    /// and lines.
    pub fn of_rows(blocks: RowBlocks, wrapping: Wrapping) -> Result<ScreenMap, AllocError>
        ensures rows { IfOk result (λ map. map.rows ≡ all_rows blocks.blocks) }
        ensures wrapping { IfOk result (λ map. map.wrapping ≡ wrapping) }
    {
        let (rows, size) = blocks.sums_of(0, blocks.line_count());
        let size = within_limit(size)?;
        let total = within_limit(rows)?;
        Ok(ScreenMap {
            blocks,
            total,
            size,
            wrapping,
        })
    }

    /// Wraps the lines that will replace the `count` lines from `row` on, and reserves room for
    /// their rows. The map's rows don't change. Out of memory if the map would exceed the limit.
    /// Out of memory, all of the map stays, its room too: rows prepared before can still be put in.
    pub fn prepare(
        &mut self,
        alloc: Global,
        row: usize,
        count: usize,
        lines: &[String],
        wrapping: Wrapping,
        counter: &mut WrapCount,
    ) -> Result<PreparedRows, AllocError>
        requires { row + count ≤ length self.old.rows }
        ensures same { self.new.rows ≡ self.old.rows }
        ensures same_wrapping { self.new.wrapping ≡ self.old.wrapping }
        ensures err { OnErr result (self.new ≡ self.old) }
        ensures prepared { IfOk result (IsPreparedFor self.new row count wrapping) }
        ensures rows { IfOk result (λ prepared.
            AreRowsOf wrapping (lines_of lines.now) (rows_in prepared.rows)) }
        ensures ticks { IfOk result (λ prepared.
            ticks_of (rows_in prepared.rows) ≡ ticks_after counter.old (length lines.now)) }
        ensures counted { OnOk result (counter.new ≡ counter.old + length lines.now) }
        ensures never_less { counter.old ≤ counter.new }
    {
        let rows = new_rows(alloc, lines, wrapping, counter)?;
        self.make_room(row, count, rows, wrapping)
    }

    /// The same for one line that replaces another one, `old_line`: only what the change may have
    /// changed is wrapped.
    pub fn prepare_changed(
        &mut self,
        alloc: Global,
        row: usize,
        old_line: &str,
        line: &str,
        wrapping: Wrapping,
        counter: &mut WrapCount,
    ) -> Result<PreparedRows, AllocError>
        requires within { row < length self.old.rows }
        requires wrapped { IsWrapped wrapping.mode wrapping.tab_len (max wrapping.width 1)
            old_line.now (ranges_at self.old.rows row) }
        requires marked { marks_at self.old.rows row
            ≡ marks_of old_line.now (ranges_at self.old.rows row) }
        ensures same { self.new.rows ≡ self.old.rows }
        ensures same_wrapping { self.new.wrapping ≡ self.old.wrapping }
        ensures err { OnErr result (self.new ≡ self.old) }
        ensures prepared { IfOk result (IsPreparedFor self.new row 1 wrapping) }
        ensures rows { IfOk result (λ prepared.
            AreRowsOf wrapping (chars line.now ∷ []) (rows_in prepared.rows)) }
        ensures ticks { IfOk result (λ prepared.
            ticks_of (rows_in prepared.rows) ≡ ticks_after counter.old 1) }
        ensures counted { OnOk result (counter.new ≡ counter.old + 1) }
        ensures never_less { counter.old ≤ counter.new }
    {
        let old = self.rows_at(row);
        let rows = rows_of_changed(alloc, line, old_line, old, wrapping, counter)?;
        self.make_room(row, 1, NewRows::Few(rows), wrapping)
    }

    /// Reserves room for rows, of this wrapping, that will replace those of the `count` lines from
    /// `row` on. The map's rows don't change. Out of memory if the map would exceed the limit, and
    /// then all of the map stays, its room too.
    pub fn make_room(
        &mut self,
        row: usize,
        count: usize,
        rows: NewRows,
        wrapping: Wrapping,
    ) -> Result<PreparedRows, AllocError>
        requires { row + count ≤ length self.old.rows }
        ensures same { self.new.rows ≡ self.old.rows }
        ensures same_wrapping { self.new.wrapping ≡ self.old.wrapping }
        ensures err { OnErr result (self.new ≡ self.old) }
        ensures prepared { IfOk result (IsPreparedFor self.new row count wrapping) }
        ensures rows { IfOk result (λ prepared. rows_in prepared.rows ≡ rows_in rows) }
    {
        let (total, size) = self.within_limit_with(row, count, &rows)?;
        let rows = self.reserve(row, count, rows)?;
        Ok(PreparedRows {
            row,
            count,
            rows,
            total,
            size,
            wrapping,
        })
    }

    // Reserves room to replace the rows of the `count` lines from `row` on: for a few lines in an
    // existing block, for many as new blocks, where a block is split if `row` is inside it.
    fn reserve(&mut self, row: usize, count: usize, rows: NewRows) -> Result<NewRows, AllocError>
        requires { row + count ≤ length self.old.rows }
        ensures same { self.new.rows ≡ self.old.rows }
        ensures same_wrapping { self.new.wrapping ≡ self.old.wrapping }
        ensures err { OnErr result (self.new ≡ self.old) }
        ensures room { IfOk result (HasRoom self.new.rows self.new.room row count) }
        ensures rows { IfOk result (λ same. rows_in same ≡ rows_in rows) }
    {
        match rows {
            NewRows::Few(rows) => self.reserve_few(row, count, rows),
            NewRows::Many(blocks) => {
                self.blocks.make_edge(row, blocks.block_count())?;
                Ok(NewRows::Many(blocks))
            }
        }
    }

    // The same for rows of a few lines, which become a block of their own after all other lines.
    fn reserve_few(
        &mut self,
        row: usize,
        count: usize,
        rows: Vec<Rows>,
    ) -> Result<NewRows, AllocError>
        requires { row + count ≤ length self.old.rows }
        ensures same { self.new.rows ≡ self.old.rows }
        ensures same_wrapping { self.new.wrapping ≡ self.old.wrapping }
        ensures err { OnErr result (self.new ≡ self.old) }
        ensures room { IfOk result (HasRoom self.new.rows self.new.room row count) }
        ensures rows { IfOk result (λ same. rows_in same ≡ rows.items) }
    {
        if row < self.blocks.line_count() {
            self.blocks.reserve_lines(row, count, rows.len())?;
            return Ok(NewRows::Few(rows));
        }
        let blocks = block_of(rows)?;
        self.blocks.make_edge(row, blocks.block_count())?;
        Ok(NewRows::Many(blocks))
    }

    // Returns the number of all rows and the size of all lines once these rows replace those of the
    // `count` lines from `row` on. Out of memory if the map would exceed the limit then.
    fn within_limit_with(
        &self,
        row: usize,
        count: usize,
        rows: &NewRows,
    ) -> Result<(usize, usize), AllocError>
        requires { row + count ≤ length self.now.rows }
        ensures total { IfOk result (λ after.
            after.0 ≡ row_total (replaced self.now.rows row count (rows_in rows.now))) }
        ensures size { IfOk result (λ after.
            after.1 ≡ size_total (replaced self.now.rows row count (rows_in rows.now))) }
        ensures limit { IsOk result
            ↔ IsWithinLimit (replaced self.now.rows row count (rows_in rows.now)) }
    {
        let (old, old_size) = self.blocks.sums_of(row, count);
        let (new, new_size) = sums_of(rows);
        let size_left = self.size - old_size;
        let rows_left = self.total - old;
        let size_after = size_left.saturating_add(new_size);
        let rows_after = rows_left.saturating_add(new);
        let size = within_limit(size_after)?;
        let total = within_limit(rows_after)?;
        Ok((total, size))
    }

    /// Replaces the prepared rows. Allocates nothing and wraps no line. In other blocks, only the
    /// numbers of lines and rows before each block change.
    pub fn replace(&mut self, prepared: PreparedRows)
        requires { CanPutRows self.old prepared }
        ensures rows { self.new.rows ≡ rows_with self.old.rows prepared }
        ensures wrapping { self.new.wrapping ≡ prepared.wrapping }
    {
        let PreparedRows {
            row,
            count,
            rows,
            total,
            size,
            wrapping,
        } = prepared;
        put_rows(&mut self.blocks, row, count, rows);
        self.total = total;
        self.size = size;
        self.wrapping = wrapping;
    }

    /// Returns how the lines are wrapped.
    pub fn wrapping(&self) -> Wrapping
        ensures { result ≡ self.now.wrapping }
    {
        self.wrapping
    }

    /// Returns the number of visual rows.
    pub fn row_count(&self) -> usize
        ensures { result ≡ row_total self.now.rows }
    {
        self.total
    }

    pub(crate) fn first_row(&self, line: usize) -> usize
        requires { line < length self.now.rows }
        ensures { result ≡ row_total (take line self.now.rows) }
    {
        self.blocks.first_row(line)
    }

    pub(crate) fn line_of_row(&self, row: usize) -> (usize, usize)
        requires { row < row_total self.now.rows }
        ensures line { result.0 < length self.now.rows }
        ensures row { row_total (take result.0 self.now.rows) + result.1 ≡ row }
        ensures number { result.1 < length (ranges_at self.now.rows result.0) }
    {
        self.blocks.line_of_row(row)
    }

    /// Returns the visual rows of a line.
    pub fn rows_at(&self, line: usize) -> &Rows
        requires { line < length self.now.rows }
        ensures ranges { result.now.ranges ≡ ranges_at self.now.rows line }
        ensures marks { result.now.marks ≡ marks_at self.now.rows line }
        ensures rows { slice_get self.now.rows line ≡ Some result.now }
    {
        self.blocks.rows_at(line)
    }
}

/// Sets the columns between tab stops of a map without wrapping, whose rows don't depend on them.
/// Wraps no line. Only other crates of this repository call this; no facade exports it.
pub fn set_tab_len(map: &mut ScreenMap, tab_len: u8)
    requires { map.old.wrapping.mode ≡ mode.None }
    ensures same { map.new.rows ≡ map.old.rows }
    ensures wrapping { map.new.wrapping ≡ with_tab_len map.old.wrapping tab_len }
    ensures right { (lines : List (List ℕ)) → AreRowsOf map.old.wrapping lines map.old.rows
        → AreRowsOf map.new.wrapping lines map.new.rows }
{
    map.wrapping.tab_len = tab_len;
}
