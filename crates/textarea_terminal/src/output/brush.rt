//! The known state of a terminal's cursor and pen, and the bytes of changed cells.
ghost use Rattle.std.specs.Prelude.{◌≡◌, ℕ, ◌+◌, ◌<◌, ◌≤◌, ◌^◌, ◌++◌, ◌⊎◌, ◌%◌, ◌/◌, true, ◌≢◌, false, map, length, replicate, OnOk, IfOk, Some, None, IsTrue, ◌↔◌};
ghost use Rattle.textarea_screen.specs.Cell.{CellView, cell_view, fresh_cell};
ghost use Rattle.textarea_terminal.specs.Control.{bytes_of};
ghost use Rattle.textarea_terminal.specs.Disputed.{is_disputed};
ghost use Rattle.textarea_terminal.specs.Parted.{blank_prints, parted_controls};
ghost use Rattle.textarea_terminal.specs.Pen.{look_of};
ghost use Rattle.textarea_terminal.specs.PaintSpot.{IsSpot};
ghost use Rattle.textarea_terminal.specs.PaintCells.{can_begin, is_half, are_whole, cluster_columns};
ghost use Rattle.textarea_terminal.specs.Screen.{cursor_after};
ghost use Rattle.textarea_terminal.specs.Paint.{Wrote, BeginsUpdate, MovesTo, TakesLook, PrintsLast, PrintsCell, IsCellStep, Repaints, at_after, brush_after};

use super::controls::{write_move, write_pen};
use super::look::{PLAIN, Pen, has_look, is_same_look, look_of};
use super::spot::Spot;
use super::symbol::{is_same_symbol, write_symbol};
use super::width::{cluster_columns, is_disputed};
use std::alloc::AllocError;
use textarea_screen::screen::Cell;

/// The known state of a terminal's cursor and pen.
#[derive(Clone, Copy)]
pub(super) struct Brush {
    /// The index of the cell that the cursor is at, if it is known.
    pub(super) at: Option<usize>,
    /// The look of the pen, if it is known.
    pub(super) pen: Option<Pen>,
    /// An update has begun.
    pub(super) is_updating: bool,
}

/// Begins an update, if none has begun (xterm, private mode 2026).
fn begin_update(bytes: &mut Vec<u8>, is_updating: bool) -> Result<(), AllocError>
    ensures { OnOk result (Wrote bytes.old.items bytes.new.items (BeginsUpdate is_updating)) }
{
    if !is_updating {
        bytes.extend_from_slice(b"\x1b[?2026h")?;
    }
    Ok(())
}

/// Moves the cursor to a cell, if it isn't there.
#[inline]
pub(super) fn move_to(
    bytes: &mut Vec<u8>,
    at: Option<usize>,
    columns: usize,
    spot: Spot,
) -> Result<(), AllocError>
    requires columns { (0 < columns) × (columns < 2 ^ 16) }
    requires index { spot.index < 2 ^ 32 }
    requires spot { IsSpot columns spot }
    ensures { OnOk result (Wrote bytes.old.items bytes.new.items
        (MovesTo at columns spot.index)) }
{
    if at != Some(spot.index) {
        write_move(bytes, spot.row as u64, spot.column as u64)?;
    }
    Ok(())
}

/// Changes the pen to a look that it doesn't have.
#[inline(never)]
fn change_look(bytes: &mut Vec<u8>, pen: &mut Option<Pen>, look: Pen) -> Result<(), AllocError>
    requires modifier { look.modifier.0 < 512 }
    requires other { pen.old ≢ Some look }
    ensures pen { OnOk result (pen.new ≡ Some look) }
    ensures wrote { OnOk result (Wrote bytes.old.items bytes.new.items (TakesLook pen.old look)) }
{
    write_pen(bytes, look)?;
    *pen = Some(look);
    Ok(())
}

/// Changes the pen to a look, if it doesn't have it.
#[inline]
fn take_look(bytes: &mut Vec<u8>, pen: &mut Option<Pen>, look: Pen) -> Result<(), AllocError>
    requires { look.modifier.0 < 512 }
    ensures pen { OnOk result (pen.new ≡ Some look) }
    ensures wrote { OnOk result (Wrote bytes.old.items bytes.new.items (TakesLook pen.old look)) }
{
    if has_look(*pen, look) {
        return Ok(());
    }
    change_look(bytes, pen, look)?;
    Ok(())
}

/// The cursor after a grapheme cluster of `width` columns is printed. After the last column it
/// isn't known.
fn cursor_after(columns: usize, spot: Spot, width: usize) -> Option<usize>
    requires index { spot.index < 2 ^ 32 }
    requires spot { IsSpot columns spot }
    requires width { (0 < width) × (spot.column + width ≤ columns) × (columns < 2 ^ 16) }
    ensures { result ≡ cursor_after columns (spot.index + width) }
{
    if spot.column + width == columns {
        None
    } else {
        Some(spot.index + width)
    }
}

/// Writes the blanks of some columns.
fn write_blanks(bytes: &mut Vec<u8>, count: usize) -> Result<(), AllocError>
    ensures { OnOk result
        (bytes.new.items ≡ bytes.old.items ++ bytes_of (blank_prints count)) }
{
    for _ in 0..count {
        bytes.push(b' ')?;
    }
    Ok(())
}

/// Prints a disputed cluster at a cell, apart from what is before it: its cells are made blank, and
/// it is addressed again. Where the cursor is then isn't known.
#[inline(never)]
fn write_apart(bytes: &mut Vec<u8>, spot: Spot, symbol: &str) -> Result<(), AllocError>
    requires index { spot.index < 2 ^ 32 }
    requires row { spot.row ≤ spot.index }
    requires column { spot.column < 2 ^ 32 }
    ensures { OnOk result (bytes.new.items
        ≡ bytes.old.items ++ bytes_of (parted_controls spot.row spot.column symbol.now)) }
{
    write_blanks(bytes, cluster_columns(symbol))?;
    write_move(bytes, spot.row as u64, spot.column as u64)?;
    write_symbol(bytes, symbol)?;
    Ok(())
}

/// Whether a cell's cluster is disputed.
#[inline]
fn is_disputed_cell(cell: &Cell) -> bool
    ensures { result ≡ is_disputed (cell_view cell.now).symbol }
{
    is_disputed(cell.symbol())
}

/// Prints a cell's disputed cluster. Where the cursor is then isn't known.
#[inline(never)]
fn write_disputed(
    bytes: &mut Vec<u8>,
    columns: usize,
    spot: Spot,
    cell: &Cell,
) -> Result<(), AllocError>
    requires columns { (0 < columns) × (columns < 2 ^ 16) }
    requires index { spot.index < 2 ^ 32 }
    requires spot { IsSpot columns spot }
    requires begins { IsTrue (can_begin columns spot.index (cell_view cell.now)) }
    requires disputed { is_disputed (cell_view cell.now).symbol ≡ true }
    ensures at { OnOk result (at_after columns spot.index (cell_view cell.now) ≡ None) }
    ensures wrote { OnOk result (Wrote bytes.old.items bytes.new.items
        (PrintsLast columns spot.index (cell_view cell.now))) }
{
    write_apart(bytes, spot, cell.symbol())?;
    Ok(())
}

/// Prints a cell's cluster, which isn't disputed. Returns where the cursor is then, if it is known.
#[inline]
fn write_agreed(
    bytes: &mut Vec<u8>,
    columns: usize,
    spot: Spot,
    cell: &Cell,
) -> Result<Option<usize>, AllocError>
    requires columns { (0 < columns) × (columns < 2 ^ 16) }
    requires index { spot.index < 2 ^ 32 }
    requires spot { IsSpot columns spot }
    requires begins { IsTrue (can_begin columns spot.index (cell_view cell.now)) }
    requires agreed { is_disputed (cell_view cell.now).symbol ≡ false }
    ensures at { IfOk result (λ at. at ≡ at_after columns spot.index (cell_view cell.now)) }
    ensures wrote { OnOk result (Wrote bytes.old.items bytes.new.items
        (PrintsLast columns spot.index (cell_view cell.now))) }
{
    let symbol = cell.symbol();
    write_symbol(bytes, symbol)?;
    let at = cursor_after(columns, spot, cluster_columns(symbol));
    Ok(at)
}

/// Prints the cluster that begins in a cell, where the cursor is.
#[inline]
fn write_cluster(
    bytes: &mut Vec<u8>,
    at: &mut Option<usize>,
    columns: usize,
    spot: Spot,
    cell: &Cell,
) -> Result<(), AllocError>
    requires columns { (0 < columns) × (columns < 2 ^ 16) }
    requires index { spot.index < 2 ^ 32 }
    requires spot { IsSpot columns spot }
    requires begins { IsTrue (can_begin columns spot.index (cell_view cell.now)) }
    ensures at { OnOk result (at.new ≡ at_after columns spot.index (cell_view cell.now)) }
    ensures wrote { OnOk result (Wrote bytes.old.items bytes.new.items
        (PrintsLast columns spot.index (cell_view cell.now))) }
{
    if is_disputed_cell(cell) {
        write_disputed(bytes, columns, spot, cell)?;
        *at = None;
        return Ok(());
    }
    *at = write_agreed(bytes, columns, spot, cell)?;
    Ok(())
}

/// Prints the cluster that begins in a cell.
#[inline(never)]
fn write_cell(
    bytes: &mut Vec<u8>,
    brush: &mut Brush,
    columns: usize,
    spot: Spot,
    cell: &Cell,
) -> Result<(), AllocError>
    requires columns { (0 < columns) × (columns < 2 ^ 16) }
    requires index { spot.index < 2 ^ 32 }
    requires spot { IsSpot columns spot }
    requires begins { IsTrue (can_begin columns spot.index (cell_view cell.now)) }
    ensures brush { OnOk result
        (brush.new ≡ brush_after columns spot.index (cell_view cell.now)) }
    ensures wrote { OnOk result (Wrote bytes.old.items bytes.new.items
        (PrintsCell brush.old columns spot.index (cell_view cell.now))) }
{
    begin_update(bytes, brush.is_updating)?;
    brush.is_updating = true;
    move_to(bytes, brush.at, columns, spot)?;
    take_look(bytes, &mut brush.pen, look_of(cell))?;
    write_cluster(bytes, &mut brush.at, columns, spot, cell)?;
    Ok(())
}

/// Whether two cells show the same.
#[inline]
fn is_alike(a: &Cell, b: &Cell) -> bool
    ensures { IsTrue result ↔ (cell_view a.now ≡ cell_view b.now) }
{
    is_same_symbol(a.symbol(), b.symbol()) && is_same_look(look_of(a), look_of(b))
}

/// Whether a cell shows the same as a cell of an erased terminal.
#[inline]
fn is_fresh(cell: &Cell) -> bool
    ensures { IsTrue result ↔ (fresh_cell ≡ cell_view cell.now) }
{
    is_same_symbol(" ", cell.symbol()) && is_same_look(PLAIN, look_of(cell))
}

/// Prints the cluster that begins in a cell, unless the terminal shows that cell already.
#[inline]
fn write_change(
    bytes: &mut Vec<u8>,
    brush: &mut Brush,
    columns: usize,
    spot: Spot,
    is_printed: bool,
    cell: &Cell,
) -> Result<(), AllocError>
    requires columns { (0 < columns) × (columns < 2 ^ 16) }
    requires index { spot.index < 2 ^ 32 }
    requires spot { IsSpot columns spot }
    requires begins { is_half (cell_view cell.now) ≡ false
        → IsTrue (can_begin columns spot.index (cell_view cell.now)) }
    ensures { OnOk result ((old : CellView) → IsTrue is_printed ↔ (old ≡ cell_view cell.now)
        → Wrote bytes.old.items bytes.new.items
        (IsCellStep brush.old brush.new columns spot.index old (cell_view cell.now))) }
{
    if is_printed {
        return Ok(());
    }
    if cell.symbol().is_empty() {
        return Ok(());
    }
    write_cell(bytes, brush, columns, spot, cell)?;
    Ok(())
}

/// Writes the changes from the cells of the old frame to those of the new one.
pub(super) fn write_cells(
    bytes: &mut Vec<u8>,
    start: Brush,
    columns: usize,
    old: &[Cell],
    new: &[Cell],
) -> Result<Brush, AllocError>
    requires some { 0 < length new.now → 0 < columns }
    requires columns { columns < 2 ^ 16 }
    requires length { length old.now ≡ length new.now }
    requires size { length new.now < 2 ^ 32 }
    requires old_whole { IsTrue (are_whole columns 0 0 (map cell_view old.now)) }
    requires new_whole { IsTrue (are_whole columns 0 0 (map cell_view new.now)) }
    ensures { IfOk result (λ after. Wrote bytes.old.items bytes.new.items (Repaints columns
        (map cell_view old.now) (map cell_view new.now) start after)) }
{
    let mut brush = start;
    let mut spot = Spot::first(columns);
    for index in 0..new.len() {
        let cell = &new[index];
        let is_printed = is_alike(&old[index], cell);
        write_change(bytes, &mut brush, columns, spot, is_printed, cell)?;
        spot = spot.next(columns);
    }
    Ok(brush)
}

/// Writes the cells of a frame to a terminal that was erased.
pub(super) fn write_all_cells(
    bytes: &mut Vec<u8>,
    start: Brush,
    columns: usize,
    new: &[Cell],
) -> Result<Brush, AllocError>
    requires some { 0 < length new.now → 0 < columns }
    requires columns { columns < 2 ^ 16 }
    requires size { length new.now < 2 ^ 32 }
    requires whole { IsTrue (are_whole columns 0 0 (map cell_view new.now)) }
    ensures { IfOk result (λ after. Wrote bytes.old.items bytes.new.items (Repaints columns
        (replicate (length new.now) fresh_cell) (map cell_view new.now) start after)) }
{
    let mut brush = start;
    let mut spot = Spot::first(columns);
    for index in 0..new.len() {
        let cell = &new[index];
        let is_printed = is_fresh(cell);
        write_change(bytes, &mut brush, columns, spot, is_printed, cell)?;
        spot = spot.next(columns);
    }
    Ok(brush)
}
