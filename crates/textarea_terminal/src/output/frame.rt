//! The cells of a buffer as a terminal can show them.
ghost use Rattle.std.specs.Prelude.{◌≡◌, ℕ, ◌+◌, ◌-◌, ◌*◌, ◌/◌, ◌%◌, ◌<◌, ◌≤◌, ◌^◌, ◌++◌, ◌∷◌, ◌&&◌, [], map, take, length, nat_lt, nat_le, IfOk, IfSome, OnOk, OnErr, IsTrue, Some, None};
ghost use Rattle.std.specs.Int.RustNames.{bit_and};
ghost use Rattle.textarea_screen.specs.Cell.{cell_view};
ghost use Rattle.textarea_terminal.specs.Disputed.{can_widen};
ghost use Rattle.textarea_terminal.specs.Pen.{in_look, look_of};
ghost use Rattle.textarea_terminal.specs.PaintSpot.{IsSpot};
ghost use Rattle.textarea_terminal.specs.PaintCells.{begins_empty, cell_in, cells_at, cluster_columns, displayed, shown_text, frame_of_buffer, is_half, one_intensity, shown_look};

use super::colors::{Colors, shown_color};
use super::look::{PLAIN, Pen, look_of};
use super::part::{before_selector, can_widen};
use super::spot::Spot;
use super::symbol::is_same_symbol;
use super::width::cluster_columns;
use std::alloc::{AllocError, Global};
use textarea_screen::screen::{Buffer, Cell, Modifier, Rect};

/// The modifiers that a terminal has.
const NINE: u16 = 511;

const BOLD_AND_DIM: u16 = 3;

/// The text and the look of a buffer's cell.
#[derive(Clone, Copy)]
struct Source<'a> {
    symbol: &'a str,
    look: Pen,
}

/// Fills cells with those of a buffer, as a terminal of this area can show them.
///
/// After an `Err` some of the cells may have been filled.
pub(super) fn fill(
    alloc: Global,
    cells: &mut [Cell],
    colors: Colors,
    area: Rect,
    buffer: &Buffer,
) -> Result<(), AllocError>
    requires { length cells.old ≡ area.height * area.width }
    ensures { OnOk result (map cell_view cells.new ≡ frame_of_buffer colors area buffer.now) }
{
    let columns = usize::from(area.width);
    let mut halves = 0usize;
    let mut spot = Spot::first(columns);
    for index in 0..cells.len() {
        halves = fill_cell(alloc, &mut cells[index], colors, area, buffer, spot, halves)?;
        spot = spot.next(columns);
    }
    Ok(())
}

/// Fills the cell at a spot. This cell and those after it, `halves` cells in all, belong to a
/// cluster that began before it. Returns the number of cells after it that belong to one.
fn fill_cell(
    alloc: Global,
    cell: &mut Cell,
    colors: Colors,
    area: Rect,
    buffer: &Buffer,
    spot: Spot,
    halves: usize,
) -> Result<usize, AllocError>
    requires index { spot.index < area.height * area.width }
    requires spot { IsSpot area.width spot }
    ensures { IfOk result (λ left. displayed colors area.width spot.index halves
        (cells_at area buffer.now spot.index (area.height * area.width - spot.index))
        ≡ cell_view cell.new ∷ displayed colors area.width (spot.index + 1) left
        (cells_at area buffer.now (spot.index + 1)
        (area.height * area.width - (spot.index + 1)))) }
{
    if halves > 0 {
        show(alloc, cell, "", PLAIN)?;
        return Ok(halves - 1);
    }
    let source = source_at(buffer, area, spot);
    let look = shown_look(colors, source.look);
    let columns = cluster_columns(source.symbol);
    if can_show(buffer, area, spot, columns) {
        let left = show_cluster(alloc, cell, source.symbol, look, columns)?;
        Ok(left)
    } else {
        show_blank(alloc, cell, look)?;
        Ok(0)
    }
}

/// Gives a cell a cluster of this number of columns, or the part that is shown of it. Returns the
/// number of cells after it that belong to what is shown.
#[inline]
fn show_cluster(
    alloc: Global,
    cell: &mut Cell,
    symbol: &str,
    look: Pen,
    columns: usize,
) -> Result<usize, AllocError>
    requires columns { columns ≡ cluster_columns symbol.now }
    requires some { 0 < columns }
    ensures view { OnOk result (cell_view cell.new ≡ in_look look (shown_text symbol.now)) }
    ensures left { IfOk result (λ left. left ≡ cluster_columns (shown_text symbol.now) - 1) }
{
    if can_widen(symbol) {
        return show_part(alloc, cell, symbol, look, columns);
    }
    show(alloc, cell, symbol, look)?;
    Ok(columns - 1)
}

/// Gives a cell the part that is shown of a cluster of this number of columns.
#[inline(never)]
fn show_part(
    alloc: Global,
    cell: &mut Cell,
    symbol: &str,
    look: Pen,
    columns: usize,
) -> Result<usize, AllocError>
    requires columns { columns ≡ cluster_columns symbol.now }
    requires widens { IsTrue (can_widen symbol.now) }
    ensures view { OnOk result (cell_view cell.new ≡ in_look look (shown_text symbol.now)) }
    ensures left { IfOk result (λ left. left ≡ cluster_columns (shown_text symbol.now) - 1) }
{
    let part = before_selector(alloc, symbol)?;
    let text = part.as_str();
    let part_columns = cluster_columns(text);
    if part_columns == 0 || part_columns > columns {
        show_blank(alloc, cell, look)?;
        return Ok(0);
    }
    show(alloc, cell, text, look)?;
    Ok(part_columns - 1)
}

/// Gives a cell a blank in a look.
fn show_blank(alloc: Global, cell: &mut Cell, look: Pen) -> Result<(), AllocError>
    ensures { OnOk result (cell_view cell.new ≡ in_look look (32 ∷ [])) }
{
    show(alloc, cell, " ", look)
}

/// Gives a cell a text and a look.
fn show(alloc: Global, cell: &mut Cell, symbol: &str, look: Pen) -> Result<(), AllocError>
    ensures { OnOk result (cell_view cell.new ≡ in_look look symbol.now) }
{
    if !is_same_symbol(cell.symbol(), symbol) {
        cell.set_symbol(alloc, symbol)?;
    }
    cell.fg = look.fg;
    cell.bg = look.bg;
    cell.modifier = look.modifier;
    Ok(())
}

/// The look as a terminal with these colours shows it.
#[inline]
fn shown_look(colors: Colors, look: Pen) -> Pen
    ensures { result ≡ shown_look colors look }
{
    Pen {
        fg: shown_color(colors, look.fg),
        bg: shown_color(colors, look.bg),
        modifier: Modifier(one_intensity(look.modifier.0 & NINE)),
    }
}

/// The modifiers without dim, if bold is one of them.
#[inline]
fn one_intensity(bits: u16) -> u16
    ensures { result ≡ one_intensity bits }
{
    if bits & BOLD_AND_DIM == BOLD_AND_DIM {
        bits - 2
    } else {
        bits
    }
}

/// The buffer's cell at a spot of an area; a fresh one if the buffer has none.
fn source_at<'a>(buffer: &'a Buffer, area: Rect, spot: Spot) -> Source<'a>
    requires index { spot.index < area.height * area.width }
    requires spot { IsSpot area.width spot }
    ensures { in_look result.look result.symbol.now ≡ cell_in area buffer.entry.now spot.index }
{
    let x = area.x + spot.column as u16;
    let y = area.y + spot.row as u16;
    match buffer.cell(x, y) {
        Some(cell) => Source {
            symbol: cell.symbol(),
            look: look_of(cell),
        },
        None => Source {
            symbol: " ",
            look: PLAIN,
        },
    }
}

/// Whether a terminal can show a cluster of this number of columns at a spot: it ends in its row,
/// and the texts of the cells after its first are empty.
fn can_show(buffer: &Buffer, area: Rect, spot: Spot, columns: usize) -> bool
    requires index { spot.index < area.height * area.width }
    requires spot { IsSpot area.width spot }
    ensures { result ≡ (nat_lt 0 columns && nat_le (spot.index % area.width + columns) area.width
        && begins_empty (columns - 1) (cells_at area buffer.now (spot.index + 1)
        (area.height * area.width - (spot.index + 1)))) }
{
    if columns == 0 {
        return false;
    }
    if columns > usize::from(area.width) - spot.column {
        return false;
    }
    are_empty(buffer, area, spot.index + 1, columns - 1)
}

/// Whether the texts of `count` cells of the buffer are empty, from an index in the area on.
fn are_empty(buffer: &Buffer, area: Rect, from: usize, count: usize) -> bool
    requires { from + count ≤ area.height * area.width }
    ensures { result ≡ begins_empty count
        (cells_at area buffer.now from (area.height * area.width - from)) }
{
    let columns = usize::from(area.width);
    for index in from..from + count {
        let spot = Spot::new(index, columns);
        if !source_at(buffer, area, spot).symbol.is_empty() {
            return false;
        }
    }
    true
}
