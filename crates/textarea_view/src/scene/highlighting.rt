//! The highlights of a row, added one after another.
ghost use Rattle.std.specs.Prelude.{◌≡◌, ◌<◌, chars, encode_utf8_all, length, OnOk};
ghost use Rattle.textarea_view.specs.SceneRows.{style_of_number};
ghost use Rattle.textarea_view.specs.Prelude.{row_total, row_at, row_of_texts, IsPlaceOf, byte_place, from_in, holds_place, matches_in, with_row_number, segment_in, searched_lines, to_in, with_cursor, with_customs, with_search_matches, with_range_segment, with_selected};

use super::row_context::RowContext;
use std::alloc::AllocError;
use textarea_highlight::highlight::LineHighlighter;
use textarea_screen::screen::Style;
use textarea_screen_map::screen_map::RowText;
use textarea_screen_map::view::TextLayoutView;
use textarea_text::rows::column_count;
use textarea_wrap::layout::num_digits;

/// A range of the text by (line, byte offset in that line): its start and its end.
pub(super) type Range = ((usize, usize), (usize, usize));

const SEARCH_RANK: u8 = 20;

/// Returns a position as its line and the byte offset in that line.
pub(super) fn byte_place(rows: &TextLayoutView<'_>, place: (usize, usize)) -> (usize, usize)
    requires { IsPlaceOf rows.now.lines place }
    ensures { result ≡ byte_place rows.now.lines place }
{
    (place.0, rows.offset_of(place))
}

impl RowContext<'_, '_> {
    // Adds the number in a line's first row, and blanks in its other rows, if lines are numbered.
    pub(super) fn add_number(
        &self,
        highlighter: &mut LineHighlighter<'_>,
        displayed: RowText<'_>,
    ) -> Result<(), AllocError>
        requires { displayed.line < length self.now.rows.lines }
        ensures ok { OnOk result
            (highlighter.new ≡ with_row_number self.now (row_of_texts displayed.entry)
            highlighter.old) }
    {
        let scene = self.scene;
        if !scene.line_numbers {
            return Ok(());
        }
        let digits = num_digits(scene.rows.lines().len());
        if displayed.before.is_empty() {
            let style = self.number_style(displayed.line);
            return highlighter.line_number(displayed.line, digits, style);
        }
        highlighter.line_number_placeholder(digits, scene.look.line_number_style)
    }

    // Returns the style of a line's number: of the cursor's line its own, over that of all numbers.
    fn number_style(&self, line: usize) -> Style
        ensures { result ≡ style_of_number self.now line }
    {
        let scene = self.scene;
        let style = scene.look.line_number_style;
        if scene.cursor.0 == line {
            style.patch(scene.look.cursor_line_number_style)
        } else {
            style
        }
    }

    // Adds the cursor's cell in the cursor's row, and its line's style in all rows of that line.
    pub(super) fn add_cursor(
        &self,
        highlighter: &mut LineHighlighter<'_>,
        row: usize,
        displayed: RowText<'_>,
    ) -> Result<(), AllocError>
        requires row { row < row_total self.now.rows.rows }
        requires displayed { row_of_texts displayed ≡ row_at self.now.rows.lines self.now.rows.rows
            row }
        ensures ok { OnOk result
            (highlighter.new ≡ with_cursor self.now (row_of_texts displayed.entry)
            highlighter.old) }
    {
        let scene = self.scene;
        let style = scene.look.cursor_line_style;
        if self.is_cursor_row(row) {
            return highlighter.cursor_line(scene.cursor.1 - column_count(displayed.before), style);
        }
        if scene.cursor.0 == displayed.line {
            highlighter.set_line_style(style);
        }
        Ok(())
    }

    // Returns whether the cursor is in the visual row.
    fn is_cursor_row(&self, row: usize) -> bool
        requires { row < row_total self.now.rows.rows }
        ensures { result ≡ holds_place (row_at self.now.rows.lines self.now.rows.rows row)
            self.now.cursor }
    {
        row == self.cursor_row
    }

    // Adds the matches of the row's line.
    pub(super) fn add_matches(
        &self,
        highlighter: &mut LineHighlighter<'_>,
        displayed: RowText<'_>,
        matches: &[(usize, usize)],
    ) -> Result<(), AllocError>
        requires { matches.now ≡ matches_in (searched_lines self.now) displayed.line }
        ensures ok { OnOk result
            (highlighter.new ≡ with_search_matches self.now (row_of_texts displayed.entry)
            highlighter.old) }
    {
        let scene = self.scene;
        let style = scene.look.search_style;
        for found in matches {
            let range = ((displayed.line, found.0), (displayed.line, found.1));
            add_segment(highlighter, displayed, range, style, SEARCH_RANK)?;
        }
        Ok(())
    }

    // Adds the selected section of the row.
    pub(super) fn add_selection(
        &self,
        highlighter: &mut LineHighlighter<'_>,
        displayed: RowText<'_>,
    ) -> Result<(), AllocError>
        ensures ok { OnOk result
            (highlighter.new ≡ with_selected self.now (row_of_texts displayed.entry)
            highlighter.old) }
    {
        let Some(range) = self.selected else {
            return Ok(());
        };
        let Some((from, to)) = segment_in(displayed, range) else {
            return Ok(());
        };
        let ranges_follow_on = displayed.line < range.1.0;
        highlighter.selection_segment(from, to, displayed.is_last && ranges_follow_on)
    }

    // Adds the caller's own highlights, in their order.
    pub(super) fn add_customs(
        &self,
        highlighter: &mut LineHighlighter<'_>,
        displayed: RowText<'_>,
    ) -> Result<(), AllocError>
        ensures ok { OnOk result
            (highlighter.new ≡ with_customs self.now (row_of_texts displayed.entry)
            highlighter.old) }
    {
        let scene = self.scene;
        for own in scene.highlights {
            let range = (own.start, own.end);
            add_segment(highlighter, displayed, range, own.style, own.priority)?;
        }
        Ok(())
    }
}

// Adds a highlight for the row's section of a range, if it has one.
fn add_segment(
    highlighter: &mut LineHighlighter<'_>,
    displayed: RowText<'_>,
    range: Range,
    style: Style,
    rank: u8,
) -> Result<(), AllocError>
    ensures ok { OnOk result
        (highlighter.new ≡ with_range_segment (row_of_texts displayed.entry) range style rank
        highlighter.old) }
{
    let Some((from, to)) = segment_in(displayed, range) else {
        return Ok(());
    };
    let line = displayed.line;
    highlighter.custom(line, ((line, from), (line, to)), style, rank)
}

// Returns the row's section of a range, as byte offsets in the row, if its line is in the range.
fn segment_in(displayed: RowText<'_>, range: Range) -> Option<(usize, usize)>
    ensures { result ≡ segment_in (row_of_texts displayed.entry) range }
{
    if displayed.line < range.0.0 || range.1.0 < displayed.line {
        return None;
    }
    Some((from_in(displayed, range), to_in(displayed, range)))
}

// Returns the byte offset in the row at which its section of a range begins. In rows of the lines
// after the range's first line it is the row's start.
fn from_in(displayed: RowText<'_>, range: Range) -> usize
    ensures { result ≡ from_in (row_of_texts displayed.entry) range }
{
    if displayed.line == range.0.0 {
        range.0.1.saturating_sub(displayed.before.len())
    } else {
        0
    }
}

// Returns the byte offset in the row at which its section of a range ends (exclusive). In rows of
// the lines before the range's last line it is the row's end.
fn to_in(displayed: RowText<'_>, range: Range) -> usize
    ensures { result ≡ to_in (row_of_texts displayed.entry) range }
{
    if displayed.line == range.1.0 {
        range.1.1.saturating_sub(displayed.before.len())
    } else {
        size_of(displayed.text)
    }
}

// Returns the number of bytes of the text.
fn size_of(text: &str) -> usize
    ensures { result ≡ length (encode_utf8_all (chars text.now)) }
{
    text.len()
}
