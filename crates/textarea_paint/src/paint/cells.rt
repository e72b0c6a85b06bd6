//! Grapheme clusters in the cells of a row, from left to right.
ghost use Rattle.std.specs.Prelude.{◌≡◌, ◌+◌, ◌<◌, ◌≤◌, ℕ, length, chars, [], ◌∷◌, ◌&&◌, nat_le, nat_lt, All, IfOk, IsOk, OnOk, OnErr};
ghost use Rattle.textarea_paint.specs.Letters.{AreLetters};
ghost use Rattle.textarea_paint.specs.LineClusters.{FitsKind};
ghost use Rattle.textarea_paint.specs.Units.{AreUnits};
ghost use Rattle.textarea_paint.specs.Walk.{IsPartlyDrawn};
ghost use Rattle.textarea_paint.specs.Prelude.{AreInline, letter_clusters, Changes, KeepsOutside, INLINE_BYTES, IsAnyPen, IsPenAt, IsColumnWithin, IsPrintable, row_change, area_of, is_in_cells, is_room_at, place_from, placed_at, clusters_width, columns_of, plain_clusters, run_clusters, styled_cluster, text_clusters};

use super::clusters::{ClusterRun, RunKind, StyledCluster};
use super::letters::split_letter;
use super::row::visible_end;
use std::alloc::AllocError;
use textarea_screen::screen::cell::INLINE_BYTES;
use textarea_screen::screen::{Buffer, Position, Style};

/// Cells of one row of a screen: `width` cells from column `x` on.
#[derive(Clone, Copy)]
pub(crate) struct RowCells {
    pub(crate) x: u16,
    pub(crate) y: u16,
    pub(crate) width: u16,
}

/// The position of the next cluster in a row of cells: `hidden` of its columns are left of the
/// cells, and the others begin in column `x` of the screen.
#[derive(Clone, Copy)]
pub(crate) struct Pen {
    pub(crate) hidden: usize,
    pub(crate) x: u16,
}

/// Draws clusters at the pen, and moves the pen after them, at most to the end of the cells.
pub(crate) fn draw_run(
    buffer: &mut Buffer,
    cells: RowCells,
    pen: Pen,
    run: ClusterRun,
) -> Result<Pen, AllocError>
    requires edge { cells.x + cells.width ≤ 65535 }
    requires within { IsColumnWithin cells pen.x }
    requires fits { FitsKind run.kind run.columns run.text.now }
    requires pen { IsAnyPen cells pen }
    ensures moved { (left column : ℕ) → IsPenAt cells left column pen
        → IfOk result (IsPenAt cells left (column + clusters_width (run_clusters run.entry))) }
    ensures drawn { (left column : ℕ) → IsPenAt cells left column pen
        → OnOk result (Changes buffer.old buffer.new
        (row_change cells left (place_from column (run_clusters run.entry)))) }
    ensures within { IfOk result (λ moved. IsColumnWithin cells moved.x) }
    ensures inline { AreInline (run_clusters run.entry) → IsOk result }
    ensures err { OnErr result (KeepsOutside (is_in_cells cells) buffer.old buffer.new) }
{
    match run.kind {
        RunKind::One => {
            let cluster = StyledCluster {
                text: run.text,
                style: run.style,
            };
            draw_cluster(buffer, cells, pen, cluster, run.columns)
        }
        RunKind::Plain => Ok(draw_plain(buffer, cells, pen, run.text, run.style)),
        RunKind::Letters => {
            let letters = StyledCluster {
                text: run.text,
                style: run.style,
            };
            draw_letters(buffer, cells, pen, letters, run.columns)
        }
        RunKind::Units(bytes) => {
            let units = StyledCluster {
                text: run.text,
                style: run.style,
            };
            draw_units(buffer, cells, pen, units, run.columns, bytes)
        }
    }
}

/// Draws units of this many columns and bytes each at the pen, and moves the pen after them, at most
/// to the end of the cells.
fn draw_units(
    buffer: &mut Buffer,
    cells: RowCells,
    pen: Pen,
    units: StyledCluster,
    columns: usize,
    bytes: usize,
) -> Result<Pen, AllocError>
    requires edge { cells.x + cells.width ≤ 65535 }
    requires within { IsColumnWithin cells pen.x }
    requires units { AreUnits columns bytes units.text.now }
    requires pen { IsAnyPen cells pen }
    ensures moved { (left column : ℕ) → IsPenAt cells left column pen
        → IfOk result (IsPenAt cells left
        (column + clusters_width (text_clusters units.entry.style units.entry.text.now))) }
    ensures drawn { (left column : ℕ) → IsPenAt cells left column pen
        → OnOk result (Changes buffer.old buffer.new (row_change cells left
        (place_from column (text_clusters units.entry.style units.entry.text.now)))) }
    ensures within { IfOk result (λ moved. IsColumnWithin cells moved.x) }
    ensures inline { AreInline (text_clusters units.entry.style units.entry.text.now)
        → IsOk result }
    ensures err { OnErr result (KeepsOutside (is_in_cells cells) buffer.old buffer.new) }
{
    let style = units.style;
    let mut pen = pen;
    let mut rest = units.text;
    'units: while !rest.is_empty() {
        let text = &rest[..bytes];
        let unit = StyledCluster { text, style };
        pen = draw_unit(buffer, cells, pen, unit, columns)?;
        rest = &rest[bytes..];
    }
    Ok(pen)
}

/// Draws letters of this many columns each at the pen, and moves the pen after them, at most to the
/// end of the cells.
fn draw_letters(
    buffer: &mut Buffer,
    cells: RowCells,
    pen: Pen,
    letters: StyledCluster,
    columns: usize,
) -> Result<Pen, AllocError>
    requires edge { cells.x + cells.width ≤ 65535 }
    requires within { IsColumnWithin cells pen.x }
    requires letters { AreLetters columns letters.text.now }
    requires pen { IsAnyPen cells pen }
    ensures moved { (left column : ℕ) → IsPenAt cells left column pen
        → IfOk result (IsPenAt cells left
        (column + clusters_width (letter_clusters letters.entry.style letters.entry.text.now))) }
    ensures drawn { (left column : ℕ) → IsPenAt cells left column pen
        → OnOk result (Changes buffer.old buffer.new (row_change cells left
        (place_from column (letter_clusters letters.entry.style letters.entry.text.now)))) }
    ensures within { IfOk result (λ moved. IsColumnWithin cells moved.x) }
    ensures inline { AreInline (letter_clusters letters.entry.style letters.entry.text.now)
        → IsOk result }
    ensures err { OnErr result (KeepsOutside (is_in_cells cells) buffer.old buffer.new) }
{
    let style = letters.style;
    let mut pen = pen;
    let mut rest = letters.text;
    'letters: while !rest.is_empty() {
        let first = draw_first_letters(buffer, cells, pen, rest, columns, style)?;
        pen = first.0;
        rest = first.1;
    }
    Ok(pen)
}

/// Draws the first of some letters at the pen: all those that are whole in the cells and in the
/// buffer, or else one. Returns the pen after them, and the letters after them.
fn draw_first_letters<'a>(
    buffer: &mut Buffer,
    cells: RowCells,
    pen: Pen,
    letters: &'a str,
    columns: usize,
    style: Style,
) -> Result<(Pen, &'a str), AllocError>
    requires some { 0 < length letters.now }
    requires edge { cells.x + cells.width ≤ 65535 }
    requires within { IsColumnWithin cells pen.x }
    requires letters { AreLetters columns letters.now }
    requires pen { IsAnyPen cells pen }
    ensures walk { IfOk result (λ after. IsPartlyDrawn cells pen after.0
        (letter_clusters style letters.now) (letter_clusters style after.1.now)
        buffer.old buffer.new) }
    ensures letters { IfOk result (λ after. AreLetters columns after.1.now) }
    ensures fewer { IfOk result (λ after.
        length (chars after.1.now) < length (chars letters.now)) }
    ensures inline { AreInline (letter_clusters style letters.now) → IsOk result }
    ensures err { OnErr result (KeepsOutside (is_in_cells cells) buffer.old buffer.new) }
{
    if is_room_at(buffer, cells, pen, columns) {
        let end = visible_end(buffer, cells);
        let put = buffer.put_characters(pen.x, cells.y, end, letters, columns as u16, style);
        return Ok((
            Pen {
                hidden: 0,
                x: put.0,
            },
            put.1,
        ));
    }
    let (text, after) = split_letter(letters);
    let letter = StyledCluster { text, style };
    let moved = draw_cluster(buffer, cells, pen, letter, columns)?;
    Ok((moved, after))
}

/// Returns whether a cluster of this many columns at the pen is whole in the cells and in the buffer.
fn is_room_at(buffer: &Buffer, cells: RowCells, pen: Pen, columns: usize) -> bool
    requires { cells.x + cells.width ≤ 65535 }
    ensures { result ≡ is_room_at (area_of buffer.now) cells pen columns }
{
    let end = visible_end(buffer, cells);
    let start = Position {
        x: pen.x,
        y: cells.y,
    };
    let room = usize::from(end.saturating_sub(pen.x));
    pen.hidden == 0 && columns <= room && buffer.area().contains(start)
}

/// Draws a cluster as `draw_cluster` does, faster if it is whole in the cells and in the buffer.
#[inline(always)]
fn draw_unit(
    buffer: &mut Buffer,
    cells: RowCells,
    pen: Pen,
    cluster: StyledCluster,
    columns: usize,
) -> Result<Pen, AllocError>
    requires edge { cells.x + cells.width ≤ 65535 }
    requires columns { columns ≡ columns_of cluster.text.now }
    requires within { IsColumnWithin cells pen.x }
    ensures moved { (left column : ℕ) → IsPenAt cells left column pen
        → IfOk result (IsPenAt cells left (column + columns_of cluster.entry.text.now)) }
    ensures drawn { (left column : ℕ) → IsPenAt cells left column pen
        → OnOk result (Changes buffer.old buffer.new
        (row_change cells left (placed_at column (styled_cluster cluster.entry) ∷ []))) }
    ensures within { IfOk result (λ moved. IsColumnWithin cells moved.x) }
    ensures inline { length cluster.entry.text.now ≤ INLINE_BYTES → IsOk result }
    ensures err { OnErr result (KeepsOutside (is_in_cells cells) buffer.old buffer.new) }
{
    if is_room_at(buffer, cells, pen, columns) && is_inline(cluster.text, columns) {
        let width = columns as u16;
        buffer.put_text(pen.x, cells.y, width, cluster.text, cluster.style);
        return Ok(Pen {
            hidden: 0,
            x: pen.x + width,
        });
    }
    draw_cluster(buffer, cells, pen, cluster, columns)
}

/// Returns whether a text of this many columns is put into cells without allocation, and takes some.
fn is_inline(text: &str, columns: usize) -> bool
    ensures { result ≡ (nat_lt 0 columns && nat_le (length text.now) INLINE_BYTES) }
{
    0 < columns && text.len() <= INLINE_BYTES
}

/// Draws characters of printable ASCII at the pen, one in each cell, and moves the pen after them,
/// at most to the end of the cells.
fn draw_plain(buffer: &mut Buffer, cells: RowCells, pen: Pen, text: &str, style: Style) -> Pen
    requires edge { cells.x + cells.width ≤ 65535 }
    requires within { IsColumnWithin cells pen.x }
    requires printable { All IsPrintable text.now }
    ensures moved { (left column : ℕ) → IsPenAt cells left column pen
        → IsPenAt cells left (column + length text.now) result }
    ensures drawn { (left column : ℕ) → IsPenAt cells left column pen
        → Changes buffer.old buffer.new
        (row_change cells left (place_from column (plain_clusters style text.now))) }
    ensures within { IsColumnWithin cells result.x }
{
    let hidden = text.len().min(pen.hidden);
    let room = usize::from(cells.x + cells.width - pen.x);
    let displayed = (text.len() - hidden).min(room);
    let part = &text[hidden..hidden + displayed];
    buffer.put_ascii(pen.x, cells.y, part, style);
    Pen {
        hidden: pen.hidden - hidden,
        x: pen.x + displayed as u16,
    }
}

/// Draws a cluster of this number of columns at the pen, and moves the pen after it, at most to the
/// end of the cells.
pub(crate) fn draw_cluster(
    buffer: &mut Buffer,
    cells: RowCells,
    pen: Pen,
    cluster: StyledCluster,
    columns: usize,
) -> Result<Pen, AllocError>
    requires edge { cells.x + cells.width ≤ 65535 }
    requires columns { columns ≡ columns_of cluster.text.now }
    requires within { IsColumnWithin cells pen.x }
    ensures moved { (left column : ℕ) → IsPenAt cells left column pen
        → IfOk result (IsPenAt cells left (column + columns_of cluster.entry.text.now)) }
    ensures drawn { (left column : ℕ) → IsPenAt cells left column pen
        → OnOk result (Changes buffer.old buffer.new
        (row_change cells left (placed_at column (styled_cluster cluster.entry) ∷ []))) }
    ensures within { IfOk result (λ moved. IsColumnWithin cells moved.x) }
    ensures inline { length cluster.entry.text.now ≤ INLINE_BYTES → IsOk result }
    ensures err { OnErr result (KeepsOutside (is_in_cells cells) buffer.old buffer.new) }
{
    let hidden = columns.min(pen.hidden);
    let room = usize::from(cells.x + cells.width - pen.x);
    let displayed = (columns - hidden).min(room);
    let end = pen.x + displayed as u16;
    let is_whole = displayed == columns;
    buffer.put_wide(pen.x, cells.y, end, cluster.text, is_whole, cluster.style)?;
    Ok(Pen {
        hidden: pen.hidden - hidden,
        x: end,
    })
}
