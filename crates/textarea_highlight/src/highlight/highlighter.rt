//! The highlights of a row, and its spans.
ghost use Rattle.std.specs.Prelude.{◌≡◌, ◌+◌, ◌^◌, ◌<◌, ◌≤◌, ℕ, None, List, [], map, length, chars, IfOk, IfNone, IfSome, OnOk, OnErr, IsErr, IsOk, IsUtf8};
ghost use Rattle.std.specs.Fmt.{decimal};
ghost use Rattle.std.specs.Iterator.{IsFinite, Drains};
ghost use Rattle.textarea_util.specs.Limit.{size_limit};
ghost use Rattle.textarea_screen.specs.Text.{line_view, span_view};
ghost use Rattle.textarea_highlight.specs.Split.{IsAscending};
ghost use Rattle.textarea_highlight.specs.Borders.{ArePlaced, IsEmptyAt, MarkNothing};
ghost use Rattle.textarea_highlight.specs.Highlights.{AddsNoCursor, AddsNoRange, byte_of, plain_row, with_number, with_placeholder, with_base, with_cursor_line, with_matches, with_range, with_selection, with_segment, end_style};
ghost use Rattle.textarea_highlight.specs.Marks.{IsRowMark};
ghost use Rattle.textarea_highlight.specs.Seen.{IsPartBetween, ShowsBetween};
ghost use Rattle.textarea_highlight.specs.Row.{AddsPart, IsPartOf, ShowsNothing, ShowsPart, ShowsRow, part_end, whole_row};

use super::borders::{Border, borders_of_matches, push_highlight, sort};
use super::brackets::OpenStyles;
use super::display::Display;
use super::marks::{ROW_START, RowMark, bytes_of_character};
use super::numbers::number_text;
use super::seams::part_between;
use super::split::{push_end_cell, split};
use std::alloc::{AllocError, Global};
use std::marker::Model;
use std::mem;
use textarea_screen::screen::{Line, Span, SpanText, Style};
use textarea_text::util::spaces;
use textarea_wrap::wrap::is_short;

/// How the cell at the cursor is drawn.
#[derive(Clone, Copy, Debug, PartialEq, Eq)]
pub enum CursorCellRender {
    /// In this style.
    Draw(Style),
    /// Like any other cell, since the terminal's own cursor is there.
    Hidden,
}

impl From<Style> for CursorCellRender {
    ghost use Rattle.std.specs.Prelude.{◌≡◌};
    ghost use Rattle.textarea_highlight.specs.declared.highlight.highlighter.CursorCellRender.TheVariants.{Draw};

    ghost from_gives = { λ style render. render ≡ Draw style };

    fn from(style: Style) -> CursorCellRender {
        CursorCellRender::Draw(style)
    }
}

/// A part of a row, from one byte offset up to another one. A character begins at each of them, or
/// the row ends there.
#[derive(Clone, Copy, Debug, PartialEq, Eq)]
pub struct RowPart {
    pub from: usize,
    pub to: usize,
    /// The column at which the part begins, counted from the start of the row.
    pub column: usize,
}

const CURSOR_RANK: u8 = 30;

const SELECTION_RANK: u8 = 10;

/// A row of text with its highlights, which `into_spans` splits into styled spans.
///
/// Offsets are in bytes of the row. Each is clipped to the row and, inside a character, rounded
/// down to its start. A highlight that is then empty is dropped. Where highlights overlap, the one
/// that starts last is shown, and an end restores the style before the newest open start.
#[derive(Drop)]
pub struct LineHighlighter<'a> {
    alloc: Global,
    row: &'a str,
    /// A known position of the row, from which it is read.
    mark: RowMark,
    spans: Vec<Span<'a>>,
    borders: Vec<Border>,
    styles: OpenStyles,
    base: Style,
    cursor_at_end: bool,
    cursor_cell: CursorCellRender,
    tab_len: u8,
    mask: Option<char>,
    break_is_selected: bool,
    select_style: Style,
}

impl<'a> Model for LineHighlighter<'a> {
    ghost use Rattle.std.specs.Prelude.{map};
    ghost use Rattle.textarea_highlight.specs.Borders.{ArePlaced};
    ghost use Rattle.textarea_screen.specs.Text.{span_view};
    ghost use Rattle.textarea_highlight.specs.Highlights.{Highlights};
    ghost use Rattle.textarea_highlight.specs.Marks.{IsRowMark};

    ghost Value = { Highlights };

    ghost view = { λ h. record {
      row = h.row.now;
      numbers = map span_view h.spans.items;
      borders = h.borders.items;
      base = h.base;
      cursor_at_end = h.cursor_at_end;
      cursor_cell = h.cursor_cell;
      tab_len = h.tab_len;
      mask = h.mask;
      break_is_selected = h.break_is_selected;
      select_style = h.select_style;
    } };

    ghost invariant = { λ h. ArePlaced h.row.now h.borders.items
        × IsRowMark h.row.now h.tab_len h.mark };
}

impl<'a> LineHighlighter<'a> {
    /// Returns the row without highlights, in the empty style, with nothing in front of it. A mask
    /// is shown for each character; a `tab_len` of 0 drops tabs, except at the start of a segment.
    pub fn new(
        alloc: Global,
        line: &'a str,
        cursor_cell: CursorCellRender,
        tab_len: u8,
        mask: Option<char>,
        select_style: Style,
    ) -> LineHighlighter<'a>
        ensures { result ≡ plain_row line.now cursor_cell tab_len mask select_style }
    {
        LineHighlighter {
            alloc,
            row: line,
            mark: ROW_START,
            spans: Vec::new(alloc),
            borders: Vec::new(alloc),
            styles: OpenStyles::new(alloc, Style::new()),
            base: Style::new(),
            cursor_at_end: false,
            cursor_cell,
            tab_len,
            mask,
            break_is_selected: false,
            select_style,
        }
    }

    /// Starts another row, as `new` does. Reuses the memory of the rows before.
    pub fn restart(
        &mut self,
        line: &'a str,
        cursor_cell: CursorCellRender,
        tab_len: u8,
        mask: Option<char>,
        select_style: Style,
    )
        ensures { self.new ≡ plain_row line.now cursor_cell tab_len mask select_style }
    {
        self.row = line;
        self.mark = ROW_START;
        self.spans.clear();
        self.borders.clear();
        self.base = Style::new();
        self.cursor_at_end = false;
        self.cursor_cell = cursor_cell;
        self.tab_len = tab_len;
        self.mask = mask;
        self.break_is_selected = false;
        self.select_style = select_style;
    }

    /// Sets a known position of the row. So a long row isn't read from its start.
    pub fn set_mark(&mut self, mark: RowMark)
        requires { IsRowMark self.old.row self.old.tab_len mark }
        ensures { self.new ≡ self.old }
    {
        self.mark = mark;
    }

    /// Puts the number of the line with this index in front of the row: `row + 1` at the right of
    /// `lnum_len` columns, with a space on each side, `lnum_len + 2` columns in all.
    pub fn line_number(&mut self, row: usize, lnum_len: u8, style: Style) -> Result<(), AllocError>
        requires counted { row + 1 < 2 ^ 64 }
        requires fits { length (decimal (row + 1)) ≤ lnum_len }
        requires room { lnum_len ≤ 253 }
        ensures ok { OnOk result (self.new ≡ with_number self.old row lnum_len style) }
        ensures unchanged { OnErr result (self.new ≡ self.old) }
    {
        let content = SpanText::Owned(number_text(self.alloc, row + 1, lnum_len)?);
        self.spans.push(Span { content, style })?;
        Ok(())
    }

    /// Puts `lnum_len + 2` spaces in front of the row, the width of a line number.
    pub fn line_number_placeholder(&mut self, lnum_len: u8, style: Style) -> Result<(), AllocError>
        requires room { lnum_len ≤ 253 }
        ensures ok { OnOk result (self.new ≡ with_placeholder self.old lnum_len style) }
        ensures unchanged { OnErr result (self.new ≡ self.old) }
    {
        let content = SpanText::Borrowed(spaces(lnum_len + 2));
        self.spans.push(Span { content, style })?;
        Ok(())
    }

    /// Sets the cursor's column, in characters of the row, and the style of its line. The cursor's
    /// cell is a highlight if the row has that character and the cell is drawn.
    pub fn cursor_line(&mut self, cursor_column: usize, style: Style) -> Result<(), AllocError>
        ensures ok { OnOk result (self.new ≡ with_cursor_line self.old cursor_column style) }
        ensures nothing { AddsNoCursor self.old cursor_column → IsOk result }
        ensures unchanged { OnErr result (self.new ≡ self.old) }
    {
        match bytes_of_character(self.row, self.mark, cursor_column) {
            Some((start, end)) => {
                if let CursorCellRender::Draw(cell) = self.cursor_cell {
                    push_highlight(&mut self.borders, self.row, start, end, cell, CURSOR_RANK)?;
                }
            }
            None => self.cursor_at_end = true,
        }
        self.base = style;
        Ok(())
    }

    /// Sets the style outside of highlights.
    pub fn set_line_style(&mut self, style: Style)
        ensures { self.new ≡ with_base self.old style }
    {
        self.base = style;
    }

    /// Adds a highlight for each match, given by the bytes at which it begins and ends.
    pub fn search<I: Iterator<Item = (usize, usize)> + Drop>(
        &mut self,
        matches: I,
        style: Style,
    ) -> Result<(), AllocError>
        requires can { I.can_next matches }
        requires ends { IsFinite (I.remaining matches) }
        ensures ok { OnOk result ((pairs : List (ℕ × ℕ)) × Drains I.next_gives matches pairs
            × (self.new ≡ with_matches self.old pairs style)) }
        ensures nothing { MarkNothing I.next_gives matches self.old.row → IsOk result }
        ensures unchanged { OnErr result (self.new ≡ self.old) }
    {
        let borders = borders_of_matches(self.alloc, self.row, matches, style)?;
        self.borders.extend_from_slice(&borders)
    }

    /// Adds the selection in the row with the index `current_row`. The row's break is selected too
    /// if the selection continues after that row.
    pub fn selection(
        &mut self,
        current_row: usize,
        start_row: usize,
        start_offset: usize,
        end_row: usize,
        end_offset: usize,
    ) -> Result<(), AllocError>
        ensures ok { OnOk result (self.new ≡ with_selection self.old current_row
            ((start_row, start_offset), (end_row, end_offset))) }
        ensures nothing { AddsNoRange self.old current_row
            ((start_row, start_offset), (end_row, end_offset)) → IsOk result }
        ensures unchanged { OnErr result (self.new ≡ self.old) }
    {
        let range = ((start_row, start_offset), (end_row, end_offset));
        self.custom(current_row, range, self.select_style, SELECTION_RANK)
    }

    /// Adds a range of a selection in this row, and with `select_at_end` the row's break.
    pub fn selection_segment(
        &mut self,
        start_offset: usize,
        end_offset: usize,
        select_at_end: bool,
    ) -> Result<(), AllocError>
        ensures ok { OnOk result
            (self.new ≡ with_segment self.old start_offset end_offset select_at_end) }
        ensures nothing { IsEmptyAt self.old.row start_offset end_offset → IsOk result }
        ensures unchanged { OnErr result (self.new ≡ self.old) }
    {
        push_highlight(
            &mut self.borders,
            self.row,
            start_offset,
            end_offset,
            self.select_style,
            SELECTION_RANK,
        )?;
        self.break_is_selected |= select_at_end;
        Ok(())
    }

    /// Adds a range in the row with the index `current_row`. The start and the end of the range are
    /// a row and an offset each. Of the highlights that start at one offset, the one of the highest
    /// priority is shown: the cursor's is 30, a match's 20 and a selection's 10.
    pub fn custom(
        &mut self,
        current_row: usize,
        range: ((usize, usize), (usize, usize)),
        style: Style,
        priority: u8,
    ) -> Result<(), AllocError>
        ensures ok { OnOk result (self.new ≡ with_range self.old current_row range style priority) }
        ensures nothing { AddsNoRange self.old current_row range → IsOk result }
        ensures unchanged { OnErr result (self.new ≡ self.old) }
    {
        let ((start_row, start_offset), (end_row, end_offset)) = range;
        if current_row < start_row || current_row > end_row {
            return Ok(());
        }
        let start = if current_row == start_row {
            start_offset
        } else {
            0
        };
        let end = if current_row == end_row {
            end_offset
        } else {
            self.row.len()
        };
        push_highlight(&mut self.borders, self.row, start, end, style, priority)?;
        self.break_is_selected |= current_row < end_row;
        Ok(())
    }

    /// Returns the spans of the row: those in front of it, its segments, and a blank for the cell
    /// after it if that is drawn. A segment borrows from the row if it is shown unchanged. A row of
    /// 2^48 bytes or more is out of memory, as a line in `line_ranges`.
    pub fn into_spans(self) -> Result<Line<'a>, AllocError>
        ensures displayed { IfOk result (λ line. ShowsRow self.entry (line_view line)) }
        ensures too_long { size_limit ≤ length self.entry.row → IsErr result }
        ensures nothing { ShowsNothing self.entry → IsOk result }
    {
        let mut highlighter = self;
        let mut line = Line {
            spans: Vec::new(highlighter.alloc),
            style: Style::new(),
        };
        highlighter.show_in(&mut line)?;
        Ok(line)
    }

    /// Replaces the spans of a line by those that `into_spans` returns, and reuses its memory. What
    /// the highlighter contains then is not specified; `restart` must come next.
    pub fn show_in(&mut self, line: &mut Line<'a>) -> Result<(), AllocError>
        ensures displayed { OnOk result (ShowsRow self.old (line_view line.new)) }
        ensures too_long { size_limit ≤ length self.old.row → IsErr result }
        ensures nothing { ShowsNothing self.old → IsOk result }
    {
        let whole = whole_row(self.row);
        self.show_part_in(line, whole)
    }

    /// Replaces the spans of a line as `show_in` does, by those of only a part of the row. What is
    /// in front of the row comes with a part that begins where the row begins, and the cell after
    /// the row with a part that ends where the row ends.
    #[tactic(auto, using(crate::proofs::BorderLemmas::sorted_placed))]
    pub fn show_part_in(&mut self, line: &mut Line<'a>, part: RowPart) -> Result<(), AllocError>
        requires { IsPartOf self.old part }
        ensures displayed { OnOk result (ShowsPart self.old part (line_view line.new)) }
        ensures too_long { size_limit ≤ length self.old.row → IsErr result }
        ensures nothing { ShowsNothing self.old → IsOk result }
    {
        if !is_short(self.row) {
            return Err(AllocError);
        }
        sort(&mut self.borders)?;
        mem::swap(&mut line.spans, &mut self.spans);
        if 0 < part.from {
            line.spans.clear();
        }
        line.style = Style::new();
        self.push_part(&mut line.spans, part)
    }

    /// Replaces the spans of a line as `show_in` does, but leaves out parts of the row that are
    /// before the column `left` or after the column `right`, and returns the part that the line
    /// shows. The line's cells in between are the row's. With a mask or without tab stops the part
    /// is the whole row.
    pub fn show_between_in(
        &mut self,
        line: &mut Line<'a>,
        left: usize,
        right: usize,
    ) -> Result<RowPart, AllocError>
        ensures displayed { IfOk result
            (λ part. ShowsBetween self.old left right part (line_view line.new)) }
        ensures too_long { size_limit ≤ length self.old.row → IsErr result }
        ensures nothing { ShowsNothing self.old → IsOk result }
    {
        let part = self.part_between(left, right);
        self.show_part_in(line, part)?;
        Ok(part)
    }

    // Returns the part of the row to show between two columns.
    fn part_between(&self, left: usize, right: usize) -> RowPart
        ensures part { IsPartBetween self.now left right result }
        ensures text { IsUtf8 self.now.row }
        ensures placed { ArePlaced self.now.row self.now.borders }
    {
        let row = self.row;
        if self.mask.is_some() || self.tab_len == 0 || !is_short(row) {
            whole_row(row)
        } else {
            part_between(row, self.tab_len, self.mark, left, right)
        }
    }

    // Appends the part's segments, and a blank for the cell after the row if that is drawn.
    fn push_part(&mut self, spans: &mut Vec<Span<'a>>, part: RowPart) -> Result<(), AllocError>
        requires short { length self.old.row < size_limit }
        requires ordered { IsAscending self.old.borders }
        requires part { IsPartOf self.old part }
        ensures added { OnOk result (AddsPart self.old part
            (map span_view spans.old.items) (map span_view spans.new.items)) }
        ensures nothing { self.old.row ≡ [] → self.old.borders ≡ [] → end_style self.old ≡ None
            → IsOk result }
    {
        let end_style = self.part_end(part);
        let display = Display {
            alloc: self.alloc,
            tab_len: self.tab_len,
            mask: self.mask,
            at: part.from,
            column: part.column,
        };
        let borders = self.borders.as_slice();
        let styles = &mut self.styles;
        let row = &self.row[..part.to];
        split(display, spans, styles, row, part.from, borders, self.base)?;
        push_end_cell(spans, end_style)
    }

    /// Returns the style of the cell after the row, if the part ends there and the cell is drawn.
    fn part_end(&self, part: RowPart) -> Option<Style>
        ensures { result ≡ part_end self.now part }
    {
        if part.to == self.row.len() {
            self.end_style()
        } else {
            None
        }
    }

    /// Returns the style of the cell after the row, if it is drawn.
    fn end_style(&self) -> Option<Style>
        ensures { result ≡ end_style self.now }
    {
        match self.cursor_cell {
            CursorCellRender::Draw(style) if self.cursor_at_end => Some(style),
            _ if self.break_is_selected => Some(self.select_style),
            _ if self.cursor_at_end => Some(self.base),
            _ => None,
        }
    }
}

/// Returns the part that is the whole row.
fn whole_row(row: &str) -> RowPart
    ensures part { result ≡ whole_row row.now }
    ensures text { IsUtf8 row.now }
{
    RowPart {
        from: 0,
        to: row.len(),
        column: 0,
    }
}
