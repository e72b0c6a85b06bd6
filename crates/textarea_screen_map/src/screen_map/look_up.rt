//! Look-ups in a map, to which its lines are lent: a visual row as texts of its line, the columns of
//! a row, and from a position to its visual position and back. They allocate nothing.
ghost use Rattle.std.specs.Prelude.{◌≡◌, ◌+◌, ◌<◌, length, take};
ghost use Rattle.textarea_screen_map.specs.Prelude.{lines_of, AreRowsOf, ranges_at, row_total, greatest_column, row_at, row_width, IsPlaceOf, IsRowText, IsPlaceAt, IsVisualPosition};

use super::ScreenMap;
use crate::columns::reachable_text;
use crate::layout::VisualPosition;
use crate::line_marks::LineMarks;
use crate::view::TextLayoutView;
use textarea_wrap::wrap::columns::display_column_after_text;

/// A visual row: its line, its index among the rows of that line, the text before it in that line,
/// its own text, and whether it is the last row of its line. It begins at the line's byte
/// `before.len()` and at the line's column `before.chars().count()`.
#[derive(Clone, Copy)]
pub struct RowText<'a> {
    pub line: usize,
    pub number: usize,
    pub before: &'a str,
    pub text: &'a str,
    pub is_last: bool,
}

impl ScreenMap {
    /// Returns a visual row, as slices of `lines`.
    pub fn row_at<'a>(&self, lines: &'a [String], row: usize) -> RowText<'a>
        requires rows { AreRowsOf self.now.wrapping (lines_of lines.now) self.now.rows }
        requires row { row < row_total self.now.rows }
        ensures { IsRowText (lines_of lines.now) self.now.rows row result }
    {
        let (line, number) = self.line_of_row(row);
        self.row_of_line(lines, line, number)
    }

    /// Returns the column after all characters of a visual row, with whitespace that hangs over.
    pub fn row_width(&self, lines: &[String], row: usize) -> usize
        requires rows { AreRowsOf self.now.wrapping (lines_of lines.now) self.now.rows }
        requires row { row < row_total self.now.rows }
        ensures { result ≡ row_width self.now.wrapping.tab_len
            (row_at (lines_of lines.now) self.now.rows row) }
    {
        display_column_after_text(self.row_at(lines, row).text, 0, self.wrapping.tab_len)
    }

    /// Returns the greatest display column of a visual row at which a cursor can be: the row's
    /// width in the last row of its line, else the display column of the row's last character.
    pub fn greatest_column(&self, lines: &[String], row: usize) -> usize
        requires rows { AreRowsOf self.now.wrapping (lines_of lines.now) self.now.rows }
        requires row { row < row_total self.now.rows }
        ensures { result ≡ greatest_column self.now.wrapping.tab_len
            (row_at (lines_of lines.now) self.now.rows row) }
    {
        let displayed = self.row_at(lines, row);
        let reachable = reachable_text(displayed.text, displayed.is_last);
        display_column_after_text(reachable, 0, self.wrapping.tab_len)
    }

    /// Returns the visual position of a position of the lines: the visual row that it is in, and the
    /// display column there. If that row has no zero-width character, `place_at` leads back to the
    /// position (`laws::visual_round_trip`). A view with marks (`TextLayoutView`) reads less of a
    /// long line.
    pub fn visual_position(&self, lines: &[String], place: (usize, usize)) -> VisualPosition
        requires rows { AreRowsOf self.now.wrapping (lines_of lines.now) self.now.rows }
        requires place { IsPlaceOf (lines_of lines.now) place }
        ensures row { result.row < row_total self.now.rows }
        ensures visual { IsVisualPosition self.now.wrapping.tab_len (lines_of lines.now)
            self.now.rows place result }
    {
        let marks = LineMarks::new(self.blocks.allocator());
        TextLayoutView::new(lines, self, &marks).visual_position(place)
    }

    /// Returns the position for a visual row and a display column: the first position of the row at
    /// that column, else the character that covers it, else the row's end. If the row isn't its
    /// line's last, its end is in the next row, and columns up to its greatest cursor column lead
    /// into the row.
    pub fn place_at(&self, lines: &[String], visual: VisualPosition) -> (usize, usize)
        requires rows { AreRowsOf self.now.wrapping (lines_of lines.now) self.now.rows }
        requires row { visual.row < row_total self.now.rows }
        ensures place { IsPlaceOf (lines_of lines.now) result }
        ensures found { IsPlaceAt self.now.wrapping.tab_len (lines_of lines.now) self.now.rows
            visual result }
    {
        let marks = LineMarks::new(self.blocks.allocator());
        TextLayoutView::new(lines, self, &marks).place_at(visual)
    }

    /// Returns the visual row of this index among those of a line, as slices of `lines`.
    pub(crate) fn row_of_line<'a>(
        &self,
        lines: &'a [String],
        line: usize,
        number: usize,
    ) -> RowText<'a>
        requires rows { AreRowsOf self.now.wrapping (lines_of lines.now) self.now.rows }
        requires line { line < length self.now.rows }
        requires number { number < length (ranges_at self.now.rows line) }
        ensures { IsRowText (lines_of lines.now) self.now.rows
            (row_total (take line self.now.rows) + number) result }
    {
        let ranges = self.rows_at(line).as_slice();
        let (start, end) = ranges[number];
        let text = lines[line].as_str();
        let before = &text[..start];
        let shown = &text[start..end];
        RowText {
            line,
            number,
            before,
            text: shown,
            is_last: number + 1 == ranges.len(),
        }
    }
}
