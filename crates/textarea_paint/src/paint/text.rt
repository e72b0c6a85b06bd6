//! Texts and lines that are drawn from a cell of a buffer on.
ghost use Rattle.std.specs.Prelude.{◌≡◌, ◌+◌, ◌≤◌, map, OnOk, OnErr};
ghost use Rattle.textarea_paint.specs.Prelude.{area_of, Changes, KeepsOutside, line_view, is_in_cells};
ghost use Rattle.textarea_paint.specs.DrawnText.{cells_to_edge, line_change, text_change};

use super::cells::RowCells;
use super::clusters::LineClusters;
use super::row::draw_clusters;
use std::alloc::AllocError;
use textarea_screen::screen::{Buffer, Line, Span, Style};

/// Draws texts and lines from a cell of a buffer on.
///
/// A cluster of width 0 isn't drawn, and blanks are drawn instead of one that doesn't fit. Outside
/// of the buffer nothing is drawn. After out of memory, cells of the row may be changed already.
pub trait DrawText {
    /// Draws a text in a style, from column `x` of row `y` up to the right edge of the buffer.
    fn set_string(&mut self, x: u16, y: u16, text: &str, style: Style) -> Result<(), AllocError>;

    /// Draws a line, from column `x` of row `y` up to the right edge of the buffer, into at most
    /// `max_width` columns.
    fn set_line(
        &mut self,
        x: u16,
        y: u16,
        line: &Line<'_>,
        max_width: u16,
    ) -> Result<(), AllocError>;
}

impl DrawText for Buffer {
    fn set_string(&mut self, x: u16, y: u16, text: &str, style: Style) -> Result<(), AllocError>
        ensures ok { OnOk result (Changes self.old self.new
            (text_change (cells_to_edge (area_of self.old) x y 65535) style text.now)) }
        ensures err { OnErr result (KeepsOutside
            (is_in_cells (cells_to_edge (area_of self.old) x y 65535)) self.old self.new) }
    {
        let cells = cells_to_edge(self, x, y, u16::MAX);
        let spans = [Span::raw(text)];
        let clusters = LineClusters::of_spans(&spans, style);
        draw_clusters(self, cells, 0, clusters)
    }

    fn set_line(
        &mut self,
        x: u16,
        y: u16,
        line: &Line<'_>,
        max_width: u16,
    ) -> Result<(), AllocError>
        ensures ok { OnOk result (Changes self.old self.new
            (line_change (cells_to_edge (area_of self.old) x y max_width) (line_view line.now))) }
        ensures err { OnErr result (KeepsOutside
            (is_in_cells (cells_to_edge (area_of self.old) x y max_width)) self.old self.new) }
    {
        let cells = cells_to_edge(self, x, y, max_width);
        let clusters = LineClusters::new(line, Style::new());
        draw_clusters(self, cells, 0, clusters)
    }
}

// The cells of a row from a column up to the buffer's right edge, at most this number.
fn cells_to_edge(buffer: &Buffer, x: u16, y: u16, most: u16) -> RowCells
    ensures cells { result ≡ cells_to_edge (area_of buffer.now) x y most }
    ensures edge { result.x + result.width ≤ 65535 }
{
    RowCells {
        x,
        y,
        width: most.min(buffer.area().right().saturating_sub(x)),
    }
}
