//! Visual rows that are split into styled spans, one after another.
ghost use Rattle.std.specs.Prelude.{◌≡◌, ◌+◌, ◌<◌, chars, encode_utf8_all, length, IfOk, IfSome, OnOk};
ghost use Rattle.textarea_screen_map.specs.LineMarks.{IsMark};
ghost use Rattle.textarea_view.specs.Prelude.{AreNumbers, IsDrawnAs, Left, VisualRow, highlights_of, plain_row, ShowsRow, row_total, row_at, row_of_texts, line_view, cursor_cell, matches_in, row_highlights, searched_lines, HasPlaces};

use super::Scene;
use super::highlighting::{Range, byte_place};
use super::matches::LineMatches;
use std::alloc::{AllocError, Global};
use std::marker::Model;
use textarea_highlight::highlight::{LineHighlighter, RowMark};
use textarea_paint::paint::row::RowArea;
use textarea_screen::screen::{Alignment, Line};
use textarea_screen_map::line_marks::Mark;
use textarea_screen_map::screen_map::RowText;
use textarea_wrap::layout::num_digits;

/// The number of columns before the first one in view from which a long row is read: among so many
/// characters it mostly has a place at which it can be split.
const COLUMNS_BEFORE: usize = 64;

/// A scene with the data that each of its rows needs: the visual row of the cursor, and the byte
/// offsets in their lines at which the selection starts and ends.
#[derive(Drop)]
pub(super) struct RowContext<'f, 'a> {
    pub(super) scene: &'f Scene<'a>,
    pub(super) cursor_row: usize,
    pub(super) selected: Option<Range>,
}

impl<'f, 'a> Model for RowContext<'f, 'a> {
    ghost use Rattle.textarea_view.specs.Scene.{SceneState};
    ghost use Rattle.textarea_view.specs.SceneRows.{IsKnown};

    ghost Value = { SceneState };

    ghost view = { λ context. context.scene.now };

    ghost invariant = { λ context. IsKnown context.scene.now context.cursor_row context.selected };
}

impl<'f, 'a> RowContext<'f, 'a> {
    pub(super) fn new(scene: &'f Scene<'a>) -> RowContext<'f, 'a>
        requires { HasPlaces scene.now }
        ensures { result ≡ scene.now }
    {
        let rows = &scene.rows;
        rows.rows_are_right();
        let selected = match scene.selection {
            Some((start, end)) => Some((byte_place(rows, start), byte_place(rows, end))),
            None => None,
        };
        RowContext {
            scene,
            cursor_row: rows.visual_position(scene.cursor).row,
            selected,
        }
    }

    /// Returns the highlighter, which splits one row after another into spans.
    pub(super) fn highlighter(&self, alloc: Global) -> LineHighlighter<'a> {
        let scene = self.scene;
        LineHighlighter::new(
            alloc,
            "",
            scene.cursor_cell(),
            scene.rows.tab_len(),
            scene.look.mask,
            scene.look.selection_style,
        )
    }

    /// Replaces the content of a line by the spans of a visual row.
    pub(super) fn show_in(
        &self,
        line: &mut Line<'a>,
        row: usize,
        matches: &mut LineMatches<'_, '_>,
        highlighter: &mut LineHighlighter<'a>,
    ) -> Result<(), AllocError>
        requires row { row < row_total self.now.rows.rows }
        requires matches { matches.old.searched ≡ searched_lines self.now }
        ensures displayed { OnOk result
            (ShowsRow (row_highlights self.now row) (line_view line.new)) }
        ensures same { matches.new.searched ≡ matches.old.searched }
    {
        self.set_row_at(highlighter, row, 0, matches)?;
        highlighter.show_in(line)
    }

    /// Replaces the content of a line by spans that have the cells of a visual row in these rows of
    /// an area, and returns the first column of the line to draw. With left alignment these are the
    /// spans of only the part that is in view, and a little more.
    pub(super) fn show_visible_in(
        &self,
        line: &mut Line<'a>,
        rows: RowArea,
        row: usize,
        matches: &mut LineMatches<'_, '_>,
        highlighter: &mut LineHighlighter<'a>,
    ) -> Result<usize, AllocError>
        requires row { row < row_total self.now.rows.rows }
        requires matches { matches.old.searched ≡ searched_lines self.now }
        ensures displayed { IfOk result (λ left.
            IsDrawnAs (row_highlights self.now row) rows left (line_view line.new)) }
        ensures same { matches.new.searched ≡ matches.old.searched }
    {
        let number_columns = self.set_row_at(highlighter, row, rows.left, matches)?;
        show_visible(line, rows, number_columns, highlighter)
    }

    /// Returns a new line with the spans of a visual row.
    pub(super) fn row_line(
        &self,
        alloc: Global,
        row: usize,
        matches: &mut LineMatches<'_, '_>,
    ) -> Result<Line<'a>, AllocError>
        requires row { row < row_total self.now.rows.rows }
        requires matches { matches.old.searched ≡ searched_lines self.now }
        ensures { IfOk result (λ line. ShowsRow (row_highlights self.now row) (line_view line)) }
    {
        let mut highlighter = self.highlighter(alloc);
        let mut line = Line::from_spans(Vec::new(alloc));
        self.show_in(&mut line, row, matches, &mut highlighter)?;
        Ok(line)
    }

    // Restarts the highlighter with the visual row of this number, and adds all its highlights. The
    // row is read from some columns before `left` on. Returns the number of columns in front of the
    // row.
    fn set_row_at(
        &self,
        highlighter: &mut LineHighlighter<'a>,
        row: usize,
        left: usize,
        matches: &mut LineMatches<'_, '_>,
    ) -> Result<usize, AllocError>
        requires row { row < row_total self.now.rows.rows }
        requires matches { matches.old.searched ≡ searched_lines self.now }
        ensures highlights_are { OnOk result (highlighter.new ≡ row_highlights self.now row) }
        ensures numbers { IfOk result (λ columns.
            AreNumbers (row_highlights self.now row).numbers columns) }
        ensures same { matches.new.searched ≡ matches.old.searched }
    {
        let scene = self.scene;
        let displayed = scene.rows.row_at(row);
        matches.search_line(displayed.line)?;
        let first = left.saturating_sub(self.number_columns(displayed.line));
        let mark = scene
            .rows
            .mark_before(row, first.saturating_sub(COLUMNS_BEFORE));
        self.set_row(highlighter, row, displayed, mark, matches.as_slice())
    }

    // Returns the number of columns in front of the rows of a line, 0 without line numbers.
    fn number_columns(&self, line: usize) -> usize
        requires { line < length self.now.rows.lines }
        ensures { (row : VisualRow) → row.line ≡ line →
            AreNumbers (highlights_of self.now row).numbers result }
    {
        let scene = self.scene;
        if !scene.line_numbers {
            return 0;
        }
        usize::from(num_digits(scene.rows.lines().len())) + 2
    }

    // Restarts the highlighter with this visual row, and adds all highlights of the row. Returns
    // the number of columns in front of the row.
    fn set_row<'t>(
        &self,
        highlighter: &mut LineHighlighter<'t>,
        row: usize,
        displayed: RowText<'t>,
        mark: Mark,
        matches: &[(usize, usize)],
    ) -> Result<usize, AllocError>
        requires row { row < row_total self.now.rows.rows }
        requires mark { IsMark self.now.rows.wrapping.tab_len (chars displayed.text.now) mark }
        requires displayed { row_of_texts displayed ≡ row_at self.now.rows.lines self.now.rows.rows
            row }
        requires line { displayed.line < length self.now.rows.lines }
        requires matches { matches.now ≡ matches_in (searched_lines self.now) displayed.line }
        ensures highlights_are { OnOk result (highlighter.new ≡ row_highlights self.now row) }
        ensures numbers { IfOk result (λ columns.
            AreNumbers (row_highlights self.now row).numbers columns) }
    {
        self.begin(highlighter, displayed.text, mark);
        self.add_number(highlighter, displayed)?;
        self.add_cursor(highlighter, row, displayed)?;
        self.add_matches(highlighter, displayed, matches)?;
        self.add_selection(highlighter, displayed)?; // over the matches
        self.add_customs(highlighter, displayed)?;
        Ok(self.number_columns(displayed.line))
    }

    // Restarts the highlighter with a row of this text and a mark of it, without highlights.
    fn begin<'t>(&self, highlighter: &mut LineHighlighter<'t>, text: &'t str, mark: Mark)
        requires { IsMark self.now.rows.wrapping.tab_len (chars text.now) mark }
        ensures { highlighter.new ≡ plain_row (encode_utf8_all (chars text.now))
            (cursor_cell self.now.look) self.now.rows.wrapping.tab_len self.now.look.mask
            self.now.look.selection_style }
    {
        let scene = self.scene;
        highlighter.restart(
            text,
            scene.cursor_cell(),
            scene.rows.tab_len(),
            scene.look.mask,
            scene.look.selection_style,
        );
        highlighter.set_mark(RowMark {
            characters: mark.column,
            offset: mark.offset,
            column: mark.display,
        });
    }
}

// Replaces the content of a line by the spans of the highlighter's row, or of the part that is in
// view, and returns the first column of the line to draw.
fn show_visible<'a>(
    line: &mut Line<'a>,
    rows: RowArea,
    number_columns: usize,
    highlighter: &mut LineHighlighter<'a>,
) -> Result<usize, AllocError>
    requires { AreNumbers highlighter.old.numbers number_columns }
    ensures { IfOk result (λ left. IsDrawnAs highlighter.old rows left (line_view line.new)) }
{
    let Some(right) = right_column(rows) else {
        highlighter.show_in(line)?;
        return Ok(rows.left);
    };
    let left = rows.left.saturating_sub(number_columns);
    let right = right.saturating_sub(number_columns);
    let part = highlighter.show_between_in(line, left, right)?;
    if part.from == 0 {
        Ok(rows.left)
    } else {
        Ok(left - part.column)
    }
}

// Returns the first column of a row that is right of the area, if the row begins at its left.
fn right_column(rows: RowArea) -> Option<usize>
    ensures left { IfSome result (λ _. rows.alignment ≡ Left) }
    ensures right { IfSome result (λ right. right ≡ rows.left + rows.area.width) }
{
    match rows.alignment {
        Alignment::Left => rows.left.checked_add(usize::from(rows.area.width())),
        _ => None,
    }
}
