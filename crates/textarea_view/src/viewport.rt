//! The visual rows and columns of a text in view. The viewport follows the cursor or is scrolled.
ghost use Rattle.std.specs.Prelude.{◌≡◌};
ghost use Rattle.textarea_view.specs.Prelude.{hit_row, scrolled, scrolled_by, scrolled_viewport, at_start, column_to_show, first_visible, showing_row, showing_row_and_column, clamped, initial_viewport, last_visible};

use std::marker::Model;
use textarea_data::scroll::Scrolling;
use textarea_screen::screen::{Position, Rect};

pub mod laws;

/// The first visual row and the first column in view, and the width and height of the area. All
/// four are 0 before anything is drawn.
///
/// Rows and columns are not limited to 16 bits: they are at least 0 and at most the greatest
/// `usize`. The first column also counts the columns of the line number.
#[derive(Clone, Copy, Debug, PartialEq, Eq)]
pub struct Viewport {
    row: usize,
    column: usize,
    width: usize,
    height: usize,
}

impl Model for Viewport {
    ghost use Rattle.textarea_view.specs.Viewport.{ViewportState};

    ghost Value = { ViewportState };

    ghost view = { λ viewport. record {
      row = viewport.row;
      column = viewport.column;
      width = viewport.width;
      height = viewport.height;
    } };

    ghost inverse = { λ state. record {
      row = state.row;
      column = state.column;
      width = state.width;
      height = state.height;
    } };
}

impl Default for Viewport {
    ghost is_default = { λ viewport. viewport ≡ initial_viewport };

    /// Returns the viewport before anything is drawn: all four numbers are 0.
    fn default() -> Viewport {
        Viewport {
            row: 0,
            column: 0,
            width: 0,
            height: 0,
        }
    }
}

impl Viewport {
    /// Returns the viewport of an area that shows a text from its start on, as with a placeholder.
    pub fn at_start(inner_area: Rect) -> Viewport
        ensures { result ≡ at_start inner_area }
    {
        Viewport::showing_from(inner_area, 0, 0)
    }

    /// Returns the first row and the first column in view.
    pub fn scroll_top(&self) -> (usize, usize)
        ensures { result ≡ (self.now.row, self.now.column) }
    {
        (self.row, self.column)
    }

    /// Returns the four numbers in the order: row, column, width, height.
    pub fn rect(&self) -> (usize, usize, usize, usize)
        ensures { result ≡ (self.now.row, self.now.column, self.now.width, self.now.height) }
    {
        (self.row, self.column, self.width, self.height)
    }

    /// Returns the first row and column in view, then the last row and column, in this order. If
    /// the height is 0, the last row is the first one, and so for columns.
    pub fn position(&self) -> (usize, usize, usize, usize)
        ensures { result ≡ (
          self.now.row,
          self.now.column,
          last_visible self.now.row self.now.height,
          last_visible self.now.column self.now.width,
        ) }
    {
        (
            self.row,
            self.column,
            last_visible(self.row, self.height),
            last_visible(self.column, self.width),
        )
    }

    /// Scrolls down by `rows` and to the right by `cols`, or back if they are negative.
    pub fn scroll(&mut self, rows: i32, cols: i32)
        ensures { self.new ≡ scrolled_viewport self.old rows cols }
    {
        self.row = scroll_from(self.row, rows);
        self.column = scroll_from(self.column, cols);
    }

    /// Scrolls by rows and columns, by a page (the height), or by half a page, rounded down.
    pub fn scroll_by(&mut self, scrolling: Scrolling)
        ensures { self.new ≡ scrolled_by self.old scrolling }
    {
        match scrolling {
            Scrolling::Delta { rows, cols } => self.scroll(i32::from(rows), i32::from(cols)),
            Scrolling::PageDown => self.row = self.row.saturating_add(self.height),
            Scrolling::PageUp => self.row = self.row.saturating_sub(self.height),
            Scrolling::HalfPageDown => self.row = self.row.saturating_add(self.height / 2),
            Scrolling::HalfPageUp => self.row = self.row.saturating_sub(self.height / 2),
        }
    }

    /// Returns the viewport after wrapped lines are drawn in the area with the cursor in this
    /// visual row. The first row changes no more than needed to show it; the first column is 0.
    pub fn showing_row(self, inner_area: Rect, row: usize) -> Viewport
        ensures { result ≡ showing_row self inner_area row }
    {
        let top = first_visible(self.row, inner_area.height(), row);
        Viewport::showing_from(inner_area, top, 0)
    }

    /// Returns the viewport after unwrapped lines are drawn in the area, with the cursor in this
    /// visual row at this display column. The first row and column change no more than they must to
    /// show it. With line numbers, a display column of at most the line number's width counts
    /// double, so that the line number scrolls in smoothly as the cursor moves left.
    pub fn showing_row_and_column(
        self,
        inner_area: Rect,
        row: usize,
        column: usize,
        line_number_width: usize,
    ) -> Viewport
        ensures { result ≡ showing_row_and_column self inner_area row column line_number_width }
    {
        let top = first_visible(self.row, inner_area.height(), row);
        let wanted = column_to_show(line_number_width, column);
        let left = first_visible(self.column, inner_area.width(), wanted);
        Viewport::showing_from(inner_area, top, left)
    }

    /// Returns the row in view that is nearest to a visual row, but at most the text's last row.
    pub fn clamp_row(&self, row: usize, last_row: usize) -> usize
        ensures { result ≡ clamped self.now.row self.now.height last_row row }
    {
        clamp(self.row, self.height, last_row, row)
    }

    /// Returns the column in view nearest to a display column, at most the greatest cursor column.
    pub fn clamp_column(&self, column: usize, greatest_column: usize) -> usize
        ensures { result ≡ clamped self.now.column self.now.width greatest_column column }
    {
        clamp(self.column, self.width, greatest_column, column)
    }

    /// Returns the visual row that a cell of the area shows, or the text's last row if the cell is
    /// below it. Returns `None` for a cell outside of the area. The area is the one that was drawn
    /// last. `RowView::hit_column` then returns the column.
    pub fn hit_row(&self, inner_area: Rect, last_row: usize, position: Position) -> Option<usize>
        ensures { result ≡ hit_row self.now.row inner_area last_row position.x position.y }
    {
        if !inner_area.contains(position) {
            return None;
        }
        let down = usize::from(position.y - inner_area.y());
        Some(self.row.saturating_add(down).min(last_row))
    }

    // Returns the viewport of the area from this row and column on.
    fn showing_from(inner_area: Rect, row: usize, column: usize) -> Viewport
        ensures { result ≡ record {
          row = row;
          column = column;
          width = inner_area.width;
          height = inner_area.height;
        } }
    {
        Viewport {
            row,
            column,
            width: usize::from(inner_area.width()),
            height: usize::from(inner_area.height()),
        }
    }
}

// Returns the last of `len` rows or columns from the first on, or the first if `len` is 0.
fn last_visible(first: usize, len: usize) -> usize
    ensures { result ≡ last_visible first len }
{
    first.max(first.saturating_add(len).saturating_sub(1))
}

// Returns the first row or column after scrolling.
fn scroll_from(first: usize, by: i32) -> usize
    ensures { result ≡ scrolled first by }
{
    first.saturating_add_signed(by as isize)
}

// Returns the first of `len` rows or columns in view, changed no more than it must be to show `at`.
fn first_visible(first: usize, len: u16, at: usize) -> usize
    ensures { result ≡ first_visible first len at }
{
    let len = usize::from(len);
    if at < first {
        at
    } else if at - first >= len {
        (at - len).saturating_add(1)
    } else {
        first
    }
}

// Returns the column that must be in view for a cursor at this column, after a line number.
fn column_to_show(line_number_width: usize, column: usize) -> usize
    ensures { result ≡ column_to_show line_number_width column }
{
    if column <= line_number_width {
        column.saturating_mul(2)
    } else {
        column.saturating_add(line_number_width)
    }
}

// Returns the nearest of `len` rows or columns from the first on, but at most the greatest.
fn clamp(first: usize, len: usize, greatest: usize, at: usize) -> usize
    ensures { result ≡ clamped first len greatest at }
{
    at.max(first).min(last_visible(first, len)).min(greatest)
}
