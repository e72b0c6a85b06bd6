//! The cell of the caret in a visual row, and the column of a cell of the row.
ghost use Rattle.std.specs.Prelude.{◌≡◌, ◌+◌, ◌≤◌};
ghost use Rattle.textarea_view.specs.Prelude.{option_map, caret_at, cell_of, hit_column, left_view, offset_view};

use crate::viewport::Viewport;
use textarea_screen::screen::{Position, Rect};

/// The position of a visual row in the area in which it is drawn.
///
/// A row that begins at the left of the area is scrolled by its first column, and its offset is 0.
/// A row in the middle or at the right begins at an offset and isn't scrolled: its column is 0.
#[derive(Clone, Copy, Debug, PartialEq, Eq)]
pub struct RowView {
    /// The cells of the text.
    pub inner_area: Rect,
    /// The first visual row in view.
    pub top_row: usize,
    /// The first column of the row in view; the columns of the line number count too.
    pub left_column: usize,
    /// The number of columns between the left edge and the start of the row.
    pub offset: u16,
    /// The number of columns of the line number, 0 without line numbers.
    pub line_number_width: usize,
}

impl RowView {
    /// Returns a row at the left of the area, scrolled by the viewport's first column.
    pub fn at_left(viewport: Viewport, inner_area: Rect, line_number_width: usize) -> RowView
        ensures { result ≡ left_view viewport inner_area line_number_width }
    {
        let (top_row, left_column) = viewport.scroll_top();
        RowView {
            inner_area,
            top_row,
            left_column,
            offset: 0,
            line_number_width,
        }
    }

    /// Returns a row that begins `offset` columns after the area's left edge and isn't scrolled.
    pub fn at_offset(
        viewport: Viewport,
        inner_area: Rect,
        offset: u16,
        line_number_width: usize,
    ) -> RowView
        ensures { result ≡ offset_view viewport inner_area offset line_number_width }
    {
        let (top_row, _) = viewport.scroll_top();
        RowView {
            inner_area,
            top_row,
            left_column: 0,
            offset,
            line_number_width,
        }
    }

    /// Returns the cell of a caret in this visual row at this display column of the text, or `None`
    /// if the row or the column isn't in view. No sum overflows.
    pub fn caret(&self, row: usize, column: usize) -> Option<Position>
        ensures { option_map (λ position. (position.x, position.y)) result
            ≡ caret_at self.now row column }
    {
        let place = u128::from(self.offset) + column as u128 + self.line_number_width as u128;
        let area = self.inner_area;
        let x = cell_of(area.x(), area.width(), self.left_column, place)?;
        let y = cell_of(area.y(), area.height(), self.top_row, row as u128)?;
        Some(Position { x, y })
    }

    /// Returns the display column at a cell, by the cell's column on the screen: 0 in the line
    /// number and before the row, and after the row its greatest cursor column. No sum overflows.
    pub fn hit_column(&self, position: Position, greatest_column: usize) -> usize
        ensures { result ≡ hit_column self.now greatest_column position.x }
    {
        let right = position.x.saturating_sub(self.inner_area.x());
        let displayed = u128::from(right.saturating_sub(self.offset)) + self.left_column as u128;
        let column = displayed.saturating_sub(self.line_number_width as u128);
        column.min(greatest_column as u128) as usize
    }
}

// Returns the cell of a row or column `at`, in an area that begins at `start` and shows `len` of
// them from the first on, or `None` if `at` is not among these.
fn cell_of(start: u16, len: u16, first: usize, at: u128) -> Option<u16>
    requires { start + len ≤ 65535 }
    ensures { result ≡ cell_of start len first at }
{
    let after = at.checked_sub(first as u128)?;
    if after < u128::from(len) {
        Some(start + after as u16)
    } else {
        None
    }
}
