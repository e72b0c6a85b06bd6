//! The visual rows of a text, drawn below one another.
mod highlighting;
pub mod laws;
mod matches;
pub mod placeholder;
mod row_context;

ghost use Rattle.std.specs.Prelude.{◌≡◌, ◌≢◌, ◌+◌, ◌-◌, ◌^◌, ◌<◌, ◌≤◌, min, List, IfOk, OnErr, OnOk};
ghost use Rattle.textarea_view.specs.Prelude.{ShowsRow, row_total, area_of, Changes, KeepsOutside, contains, is_in_row, LineView, line_view, row_cell, DrawnTo, FillsArea, IsRowStart, lines_change, rows_above_end, cursor_cell, row_highlights, searched_lines, HasPlaces};

use crate::look::{CustomHighlight, Look};
use matches::LineMatches;
use row_context::RowContext;
use std::alloc::{AllocError, Global};
use std::marker::Model;
use textarea_data::cursor::CursorRenderMode;
use textarea_highlight::highlight::CursorCellRender;
use textarea_paint::paint::row::{RowArea, draw_row, row_start};
use textarea_screen::screen::{Alignment, Buffer, Line, Rect};
use textarea_screen_map::view::TextLayoutView;
use textarea_search::search::{MatchCache, Search};

/// The borrowed data that visual rows are drawn from.
#[derive(Drop)]
pub struct Scene<'a> {
    pub rows: TextLayoutView<'a>,
    pub cursor: (usize, usize),
    /// The selection from its start to its end, if there is one.
    pub selection: Option<((usize, usize), (usize, usize))>,
    pub search: &'a Search,
    pub look: Look,
    /// The caller's own highlights, in the order in which they were added.
    pub highlights: &'a [CustomHighlight],
    pub line_numbers: bool,
}

impl<'a> Model for Scene<'a> {
    ghost use Rattle.textarea_view.specs.Scene.{SceneState};

    ghost Value = { SceneState };

    ghost view = { λ scene. record {
      rows = scene.rows;
      cursor = scene.cursor;
      selection = scene.selection;
      pattern = scene.search.now;
      look = scene.look;
      highlights = scene.highlights.now;
      line_numbers = scene.line_numbers;
    } };
}

impl<'a> Scene<'a> {
    /// Draws the visual rows from `top` on into the area, while text, area and buffer have rows.
    ///
    /// A cell without a grapheme cluster is unchanged. Matches in `cached` aren't searched for
    /// again, and new ones are added to it. After out of memory, cells of the area may be changed
    /// already.
    pub fn draw(
        &self,
        alloc: Global,
        cached: &mut MatchCache,
        buffer: &mut Buffer,
        rows: RowArea,
        top: usize,
    ) -> Result<(), AllocError>
        requires { HasPlaces self.now }
        ensures ok { OnOk result ((lines : List LineView)
            × FillsArea self.now top rows.area (area_of buffer.old) lines
            × Changes buffer.old buffer.new (lines_change rows rows.area.y lines)) }
        ensures err { OnErr result (KeepsOutside (contains rows.area) buffer.old buffer.new) }
    {
        let room = rows_above_end(rows.area, buffer.area());
        let context = RowContext::new(self);
        let lines = self.rows.lines();
        let mut matches = LineMatches::new(alloc, self.search, lines, cached, usize::from(room))?;
        let left = self.rows.row_count().saturating_sub(top);
        let count = left.min(usize::from(room));
        draw_rows(alloc, &context, &mut matches, buffer, rows, top, count)
    }

    /// Returns how the cell at the cursor is drawn: in the cursor's style, or as any other.
    pub fn cursor_cell(&self) -> CursorCellRender
        ensures { result ≡ cursor_cell self.now.look }
    {
        match self.look.cursor_render_mode {
            CursorRenderMode::Cell => CursorCellRender::Draw(self.look.cursor_style),
            CursorRenderMode::Hidden => CursorCellRender::Hidden,
        }
    }

    /// Returns the number of columns between the left edge of the area and the start of a visual
    /// row. With left alignment it does not build the row, and it allocates nothing.
    pub fn row_start(&self, alloc: Global, rows: RowArea, row: usize) -> Result<u16, AllocError>
        requires places { HasPlaces self.now }
        requires row { row < row_total self.now.rows.rows }
        ensures left { rows.alignment ≡ Alignment.Left → result ≡ Ok 0 }
        ensures other { rows.alignment ≢ Alignment.Left
            → IfOk result (λ start. IsRowStart self.now rows row start) }
    {
        match rows.alignment {
            Alignment::Left => Ok(0),
            _ => Ok(row_start(rows, &self.row_line(alloc, row)?)),
        }
    }

    // Returns the line that shows a visual row.
    fn row_line(&self, alloc: Global, row: usize) -> Result<Line<'a>, AllocError>
        requires places { HasPlaces self.now }
        requires row { row < row_total self.now.rows.rows }
        ensures { IfOk result (λ line. ShowsRow (row_highlights self.now row) (line_view line)) }
    {
        let context = RowContext::new(self);
        let mut cached = MatchCache::new(alloc);
        let lines = self.rows.lines();
        let mut matches = LineMatches::new(alloc, self.search, lines, &mut cached, 0)?;
        context.row_line(alloc, row, &mut matches)
    }
}

// Draws `count` visual rows from `top` on, one below the other.
fn draw_rows<'a>(
    alloc: Global,
    context: &RowContext<'_, 'a>,
    matches: &mut LineMatches<'_, '_>,
    buffer: &mut Buffer,
    rows: RowArea,
    top: usize,
    count: usize,
) -> Result<(), AllocError>
    requires matches { matches.old.searched ≡ searched_lines context.now }
    requires displayed { count ≤ row_total context.now.rows.rows - top }
    requires end { top + count < 2 ^ 64 }
    requires room { count ≤ rows.area.height }
    ensures ok { OnOk result (DrawnTo context.now top rows buffer.old buffer.new count) }
    ensures err { OnErr result (KeepsOutside (contains rows.area) buffer.old buffer.new) }
{
    let mut highlighter = context.highlighter(alloc);
    let mut line = Line::from_spans(Vec::new(alloc));
    for i in 0..count {
        let left = context.show_visible_in(&mut line, rows, top + i, matches, &mut highlighter)?;
        draw_row(
            buffer,
            RowArea { left, ..rows },
            rows.area.y() + i as u16,
            &line,
        )?;
    }
    Ok(())
}

// Returns the number of rows of the area that are above the end of the buffer's area.
fn rows_above_end(area: Rect, buffer: Rect) -> u16
    ensures { result ≡ rows_above_end area buffer }
{
    let area_end = area.y() + area.height();
    let buffer_end = buffer.y() + buffer.height();
    area_end.min(buffer_end).saturating_sub(area.y())
}
