//! Read access to lines with their visual rows, and look-ups in them: from a position to its visual
//! position and back, and where a cursor moves up and down. They allocate nothing. A tab reaches to
//! the next tab stop, and takes one column without tab stops.
ghost use Rattle.std.specs.Prelude.{◌≡◌, ◌+◌, ◌<◌, ◌≤◌, [], encode_utf8_all, get_or, length, take, MatchOption};
ghost use Rattle.textarea_text.specs.Offset.{offset_at};
ghost use Rattle.textarea_screen_map.specs.Prelude.{size_limit, AreMarksOf, IsMark, reachable_text, IsPlaceOf, size_of, lines_of, AreRowsOf, range_at, ranges_at, row_total, greatest_column, row_at, row_width, IsAbove, IsBelow, IsInFirstRow, IsInLastRow, IsPlaceAt, IsPlaceNear, IsVisualPosition, HasFrontOfLine, over_all_lines, row_of_texts, AreRowsRight, borrowed_rows};

use crate::columns::{character_at_column, character_near_column, reachable_text, width_between};
use crate::layout::VisualPosition;
use crate::line_marks::{LINE_START, LineMarks, Mark};
use crate::offsets::{columns_of_front, offset_of_column};
use crate::screen_map::{RowText, ScreenMap};
use std::marker::Model;

/// A borrow of lines and of their visual rows: those of the current text, or those at a prepared
/// width. Visual rows count from 0 over all lines.
#[derive(Drop)]
pub struct TextLayoutView<'a> {
    lines: &'a [String],
    map: &'a ScreenMap,
    marks: &'a LineMarks,
}

impl<'a> Model for TextLayoutView<'a> {
    ghost use Rattle.textarea_text.specs.Text.{lines_of};
    ghost use Rattle.textarea_screen_map.specs.BorrowedLines.{AreRowsRight, BorrowedRows, borrowed_rows};
    ghost use Rattle.textarea_screen_map.specs.LineMarks.{AreMarksOf};

    ghost Value = { BorrowedRows };

    ghost view = { λ view. borrowed_rows view.lines.now view.map.now };

    ghost invariant = { λ view. AreRowsRight view.lines.now view.map.now
        × AreMarksOf (lines_of view.lines.now) view.marks.now };
}

impl<'a> TextLayoutView<'a> {
    /// Borrows the lines, at least one, with a map of these lines and marks in them.
    pub fn new(lines: &'a [String], map: &'a ScreenMap, marks: &'a LineMarks) -> TextLayoutView<'a>
        requires rows { AreRowsRight lines.now map.now }
        requires marks { AreMarksOf (lines_of lines.now) marks.now }
        ensures { result ≡ borrowed_rows lines.now map.now }
    {
        TextLayoutView { lines, map, marks }
    }

    /// Returns the lines, at least one. Their bytes and their number together are at most 2^48.
    pub fn lines(&self) -> &'a [String]
        ensures lines { lines_of result.now ≡ self.now.lines }
        ensures some { 0 < length result.now }
        ensures limit { size_of result.now ≤ size_limit }
    {
        self.lines
    }

    /// The law of rows, for every view: its visual rows are those of its lines.
    pub fn rows_are_right(&self)
        ensures { AreRowsOf self.now.wrapping self.now.lines self.now.rows }
    {
        let _ = &self.map; // it is in the invariant
    }

    /// Returns the columns between tab stops.
    pub fn tab_len(&self) -> u8
        ensures { result ≡ self.now.wrapping.tab_len }
    {
        self.map.wrapping().tab_len
    }

    /// Returns the number of visual rows, at least one.
    pub fn row_count(&self) -> usize
        ensures value { result ≡ row_total self.now.rows }
        ensures some { 0 < result }
        ensures few { result ≤ size_limit }
    {
        self.map.row_count()
    }

    /// Returns a visual row, as slices of the lines.
    pub fn row_at(&self, row: usize) -> RowText<'a>
        requires { row < row_total self.now.rows }
        ensures displayed { row_of_texts result ≡ row_at self.now.lines self.now.rows row }
        ensures number { row_total (take result.line self.now.rows) + result.number ≡ row }
        ensures line { result.line < length self.now.lines }
        ensures front { HasFrontOfLine self.now.lines result }
        ensures before { length result.before.now < size_limit }
        ensures short { length result.text.now < size_limit }
    {
        self.map.row_at(self.lines, row)
    }

    /// Returns the column after all characters of a visual row, with whitespace that hangs over.
    pub fn row_width(&self, row: usize) -> usize
        requires { row < row_total self.now.rows }
        ensures { result
            ≡ row_width self.now.wrapping.tab_len (row_at self.now.lines self.now.rows row) }
    {
        self.map.row_width(self.lines, row)
    }

    /// Returns the greatest display column of a visual row at which a cursor can be: the row's
    /// width in the last row of its line, else the display column of the row's last character.
    pub fn greatest_column(&self, row: usize) -> usize
        requires { row < row_total self.now.rows }
        ensures { result ≡ greatest_column self.now.wrapping.tab_len
            (row_at self.now.lines self.now.rows row) }
    {
        self.map.greatest_column(self.lines, row)
    }

    /// Returns the visual position of a position: the visual row and the display column. Only the
    /// text from the nearest known position on is read.
    pub fn visual_position(&self, place: (usize, usize)) -> VisualPosition
        requires { IsPlaceOf self.now.lines place }
        ensures row { result.row < row_total self.now.rows }
        ensures visual { IsVisualPosition self.now.wrapping.tab_len self.now.lines self.now.rows
            place result }
    {
        let VisualPosition { row, column } = self.visual_in_line(place);
        VisualPosition {
            row: self.map.first_row(place.0) + row,
            column,
        }
    }

    // The same with the row's index among the rows of the position's line.
    fn visual_in_line(&self, place: (usize, usize)) -> VisualPosition
        requires { IsPlaceOf self.now.lines place }
        ensures number { result.row < length (ranges_at self.now.rows place.0) }
        ensures visual { IsVisualPosition self.now.wrapping.tab_len self.now.lines self.now.rows
            place (over_all_lines self.now.rows place.0 result) }
    {
        let offset = self.offset_of(place);
        let ranges = self.map.rows_at(place.0).as_slice();
        let row = row_holding(ranges, offset);
        let tab_len = self.tab_len();
        let known = self.marks.at_column(place.0, tab_len, place.1);
        let line = self.lines[place.0].as_str();
        let column = width_between(line, ranges[row].0, offset, known, tab_len);
        VisualPosition { row, column }
    }

    /// Returns the bytes before a position in its line. Only the text from the nearest known
    /// position on is read.
    pub fn offset_of(&self, place: (usize, usize)) -> usize
        requires { IsPlaceOf self.now.lines place }
        ensures { result ≡ offset_at self.now.lines place }
    {
        let known = self.marks.at_column(place.0, self.tab_len(), place.1);
        let rows_marks = self.map.rows_at(place.0).marks();
        let line = self.lines[place.0].as_str();
        offset_of_column(line, place.1, rows_marks, (known.column, known.offset))
    }

    /// Returns the position for a visual row and a display column: the first position of the row at
    /// that column, else the character that covers it, else the row's end. If the row isn't its
    /// line's last, its end is in the next row, and columns up to its greatest cursor column lead
    /// into the row.
    pub fn place_at(&self, visual: VisualPosition) -> (usize, usize)
        requires { visual.row < row_total self.now.rows }
        ensures place { IsPlaceOf self.now.lines result }
        ensures found { IsPlaceAt self.now.wrapping.tab_len self.now.lines self.now.rows
            visual result }
    {
        let displayed = self.map.row_at(self.lines, visual.row);
        let index = character_at_column(displayed.text, visual.column, self.tab_len());
        self.place_in(displayed, index)
    }

    /// Returns the position for a cursor in a visual row at a display column, or at the row's
    /// greatest cursor column if that is less. The position is in that visual row. Only the text
    /// from the nearest known position on is read.
    pub fn place_near(&self, visual: VisualPosition) -> (usize, usize)
        requires { visual.row < row_total self.now.rows }
        ensures place { IsPlaceOf self.now.lines result }
        ensures near { IsPlaceNear self.now.wrapping.tab_len self.now.lines self.now.rows
            visual result }
    {
        let (line, row) = self.map.line_of_row(visual.row);
        self.near_in_line(line, VisualPosition { row, ..visual })
    }

    // The same for the row's index among the rows of a line.
    fn near_in_line(&self, line: usize, visual: VisualPosition) -> (usize, usize)
        requires line { line < length self.now.lines }
        requires number { visual.row < length (ranges_at self.now.rows line) }
        ensures place { IsPlaceOf self.now.lines result }
        ensures near { IsPlaceNear self.now.wrapping.tab_len self.now.lines self.now.rows
            (over_all_lines self.now.rows line visual) result }
    {
        let displayed = self.map.row_of_line(self.lines, line, visual.row);
        let known = self.mark_in(displayed, visual.column);
        let reachable = reachable_text(displayed.text, displayed.is_last);
        let index = character_near_column(reachable, known, visual.column, self.tab_len());
        self.place_in(displayed, index)
    }

    // Returns the position before the character of this index in a visual row.
    fn place_in(&self, displayed: RowText<'_>, index: usize) -> (usize, usize)
        requires line { displayed.line < length self.now.lines }
        requires front { HasFrontOfLine self.now.lines displayed }
        requires few { (row_of_texts displayed).first + index < size_limit }
        ensures { result ≡ (displayed.entry.line, (row_of_texts displayed.entry).first + index) }
    {
        let marks = self.map.rows_at(displayed.line).marks();
        let first = columns_of_front(displayed.before, marks);
        (displayed.line, first + index)
    }

    /// Returns the last known position of a visual row's text at or before a display column: its
    /// column and byte offset in the row, and its display column. So a long row needn't be read
    /// from its start. Of a row that is its whole line, marks are known, of others only the start.
    pub fn mark_before(&self, row: usize, display: usize) -> Mark
        requires { row < row_total self.now.rows }
        ensures mark { IsMark self.now.wrapping.tab_len
            (row_at self.now.lines self.now.rows row).text result }
        ensures reachable { IsMark self.now.wrapping.tab_len
            (reachable_text (row_at self.now.lines self.now.rows row).text
            (row_at self.now.lines self.now.rows row).is_last) result }
        ensures before { result.display ≤ display }
    {
        self.mark_in(self.map.row_at(self.lines, row), display)
    }

    // The same for a visual row that is looked up.
    #[tactic(auto, using(crate::proofs::MarkLemmas::start_is_mark))]
    fn mark_in(&self, displayed: RowText<'_>, display: usize) -> Mark
        requires line { displayed.line < length self.now.lines }
        requires whole { length displayed.text.now
            ≡ length (encode_utf8_all (get_or self.now.lines displayed.line []))
            → displayed.text.now ≡ encode_utf8_all (get_or self.now.lines displayed.line []) }
        ensures mark { IsMark self.now.wrapping.tab_len (row_of_texts displayed.entry).text result }
        ensures reachable { IsMark self.now.wrapping.tab_len
            (reachable_text (row_of_texts displayed.entry).text displayed.entry.is_last) result }
        ensures before { result.display ≤ display }
    {
        let lines = self.lines;
        let line = lines[displayed.line].as_str();
        if displayed.is_last && displayed.text.len() == line.len() {
            return self
                .marks
                .at_display(displayed.line, self.tab_len(), display);
        }
        LINE_START
    }

    /// Returns where a cursor moves one visual row up; `None` in the first visual row.
    pub fn above(&self, place: (usize, usize)) -> Option<(usize, usize)>
        requires { IsPlaceOf self.now.lines place }
        ensures { MatchOption result
            (IsInFirstRow self.now.wrapping.tab_len self.now.lines self.now.rows place)
            (λ target. IsPlaceOf self.now.lines target
            × IsAbove self.now.wrapping.tab_len self.now.lines self.now.rows place target) }
    {
        let line = place.0;
        let VisualPosition { row, column } = self.visual_in_line(place);
        if row > 0 {
            let row = row - 1;
            return Some(self.near_in_line(line, VisualPosition { row, column }));
        }
        if line == 0 {
            return None;
        }
        let last = self.map.rows_at(line - 1).as_slice().len() - 1;
        let target = self.near_in_line(line - 1, VisualPosition { row: last, column });
        Some(target)
    }

    /// Returns where a cursor moves one visual row down; `None` in the last visual row.
    pub fn below(&self, place: (usize, usize)) -> Option<(usize, usize)>
        requires { IsPlaceOf self.now.lines place }
        ensures { MatchOption result
            (IsInLastRow self.now.wrapping.tab_len self.now.lines self.now.rows place)
            (λ target. IsPlaceOf self.now.lines target
            × IsBelow self.now.wrapping.tab_len self.now.lines self.now.rows place target) }
    {
        let line = place.0;
        let VisualPosition { row, column } = self.visual_in_line(place);
        let count = self.map.rows_at(line).as_slice().len();
        let row = row + 1;
        if row < count {
            return Some(self.near_in_line(line, VisualPosition { row, column }));
        }
        if line + 1 == self.lines.len() {
            return None;
        }
        let target = self.near_in_line(line + 1, VisualPosition { row: 0, column });
        Some(target)
    }
}

// Returns the last row of a line that begins at or before the offset.
fn row_holding(ranges: &[(usize, usize)], offset: usize) -> usize
    requires some { 0 < length ranges.now }
    requires first { (range_at ranges.now 0).0 ≤ offset }
    ensures within { result < length ranges.now }
    ensures from { (range_at ranges.now result).0 ≤ offset }
    ensures next { result + 1 < length ranges.now → offset < (range_at ranges.now (result + 1)).0 }
{
    let mut low = 0;
    let mut high = ranges.len();
    'halving: while 1 < high - low {
        let middle = low + (high - low) / 2;
        if ranges[middle].0 <= offset {
            low = middle;
        } else {
            high = middle;
        }
    }
    low
}
