//! A line drawn in one row of cells.
ghost use Rattle.std.specs.Prelude.{◌≡◌, ◌+◌, ◌≤◌, min, IsOk, OnOk, OnErr};
ghost use Rattle.textarea_paint.specs.Prelude.{area_of, Changes, HasNone, KeepsOutside, is_in_row, line_view, is_in_cells, place_from, row_change, row_clusters, AreInline, fitting, clusters_width, line_offset, row_cell};
ghost use Rattle.textarea_paint.specs.LineClusters.{clusters_left};

use super::cells::{Pen, RowCells, draw_cluster, draw_run};
use super::clusters::LineClusters;
use super::columns::cluster_columns;
use std::alloc::AllocError;
use textarea_screen::screen::{Alignment, Buffer, Line, Position, Rect, Style};

/// The area in which lines are drawn, one in each row, and their alignment and style.
#[derive(Clone, Copy, Debug, PartialEq, Eq)]
pub struct RowArea {
    pub area: Rect,
    pub alignment: Alignment,
    /// The first column of a line that is drawn. It is used only with `Alignment::Left`.
    pub left: usize,
    /// The style under those of lines and spans.
    pub style: Style,
}

/// Draws a line in row `y` of an area, or nothing if the area has no such row.
///
/// A cell without a grapheme cluster is unchanged. For a row that the buffer doesn't have, nothing
/// is done. After out of memory, cells of the row may be changed already.
pub fn draw_row(buffer: &mut Buffer, rows: RowArea, y: u16, line: &Line) -> Result<(), AllocError>
    ensures ok { OnOk result
        (Changes buffer.old buffer.new (row_cell rows y (line_view line.now))) }
    ensures inline { AreInline (row_clusters rows.style (line_view line.now)) → IsOk result }
    ensures unseen { HasNone (is_in_row rows.area y) buffer.old → IsOk result }
    ensures err { OnErr result (KeepsOutside (is_in_row rows.area y) buffer.old buffer.new) }
{
    let area = rows.area;
    let visible = area.intersection(buffer.area());
    if !visible.contains(Position { x: visible.x, y }) {
        return Ok(());
    }
    let cells = RowCells {
        x: area.x,
        y,
        width: area.width,
    };
    match rows.alignment {
        Alignment::Left => {
            let clusters = LineClusters::new(line, rows.style);
            draw_clusters(buffer, cells, rows.left, clusters)
        }
        _ => {
            let start = row_start(rows, line);
            draw_fitting(buffer, cells, start, line, rows.style)
        }
    }
}

/// Returns the number of columns between the left edge of the area and the start of a line: 0 with
/// `Alignment::Left`, and else the number that centers the line or aligns it at the right.
pub fn row_start(rows: RowArea, line: &Line) -> u16
    ensures { result ≡ line_offset rows.alignment rows.area.width
        (row_clusters rows.style (line_view line.now)) }
{
    let width = rows.area.width;
    match rows.alignment {
        Alignment::Left => 0,
        Alignment::Center => width / 2 - fitting_columns(line, rows.style, width) / 2,
        Alignment::Right => width - fitting_columns(line, rows.style, width),
    }
}

/// Draws the clusters of a line from its column `left` on, which is in the first of the cells.
pub(super) fn draw_clusters(
    buffer: &mut Buffer,
    cells: RowCells,
    left: usize,
    mut clusters: LineClusters,
) -> Result<(), AllocError>
    requires edge { cells.x + cells.width ≤ 65535 }
    ensures ok { OnOk result (Changes buffer.old buffer.new
        (row_change cells left (place_from 0 (clusters_left clusters.entry)))) }
    ensures inline { AreInline (clusters_left clusters.entry) → IsOk result }
    ensures err { OnErr result (KeepsOutside (is_in_cells cells) buffer.old buffer.new) }
{
    let end = visible_end(buffer, cells);
    let mut pen = Pen {
        hidden: left,
        x: cells.x,
    };
    while pen.x < end {
        let columns = pen.hidden.saturating_add(usize::from(end - pen.x));
        let Some(run) = clusters.next_run(columns) else {
            break;
        };
        pen = draw_run(buffer, cells, pen, run)?;
    }
    Ok(())
}

/// Returns the number of columns of those clusters that are drawn in an area of `width` columns.
fn fitting_columns(line: &Line, style: Style, width: u16) -> u16
    ensures value { result ≡ clusters_width
        (fitting width (row_clusters style (line_view line.now))) }
    ensures bound { result ≤ width }
{
    let mut room = width;
    for cluster in LineClusters::new(line, style) {
        let columns = cluster_columns(cluster.text);
        if columns <= usize::from(width) {
            let left = usize::from(room);
            if columns > left {
                break;
            }
            room -= columns as u16;
        }
    }
    width - room
}

/// Draws those clusters of a line that fit into the cells. The first one starts `start` columns
/// after the first of the cells.
fn draw_fitting(
    buffer: &mut Buffer,
    cells: RowCells,
    start: u16,
    line: &Line,
    style: Style,
) -> Result<(), AllocError>
    requires edge { cells.x + cells.width ≤ 65535 }
    requires within { start ≤ cells.width }
    ensures ok { OnOk result (Changes buffer.old buffer.new (row_change cells 0
        (place_from start (fitting cells.width (row_clusters style (line_view line.now)))))) }
    ensures inline { AreInline (row_clusters style (line_view line.now)) → IsOk result }
    ensures err { OnErr result (KeepsOutside (is_in_cells cells) buffer.old buffer.new) }
{
    let end = visible_end(buffer, cells);
    let mut room = cells.width;
    let mut pen = Pen {
        hidden: 0,
        x: cells.x + start,
    };
    for cluster in LineClusters::new(line, style) {
        if end <= pen.x {
            break;
        }
        let columns = cluster_columns(cluster.text);
        if columns <= usize::from(cells.width) {
            let left = usize::from(room);
            if columns > left {
                break;
            }
            room -= columns as u16;
            pen = draw_cluster(buffer, cells, pen, cluster, columns)?;
        }
    }
    Ok(())
}

/// Returns the column after the last of the cells that the buffer may have, where drawing ends.
pub(super) fn visible_end(buffer: &Buffer, cells: RowCells) -> u16
    requires edge { cells.x + cells.width ≤ 65535 }
    ensures { result ≡ min (cells.x + cells.width)
        ((area_of buffer.now).x + (area_of buffer.now).width) }
{
    let area = buffer.area();
    (cells.x + cells.width).min(area.x + area.width)
}
