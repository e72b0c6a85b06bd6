//! The text on the screen for the segments of a row.
ghost use Rattle.std.specs.Prelude.{◌≡◌, ◌+◌, ◌*◌, ◌^◌, ◌<◌, ◌≤◌, ◌↔◌, ◌++◌, map, length, drop, slice_range, None, IfOk, OnOk, IsCharBoundary, chars, encode_utf8_all, string_bytes};
ghost use Rattle.std.specs.List.{list_any};
ghost use Rattle.textarea_screen.specs.Text.{content_view};
ghost use Rattle.textarea_highlight.specs.Texts.{text_bytes_of, IsUncopied};
ghost use Rattle.textarea_wrap.specs.Columns.{column_after};
ghost use Rattle.textarea_highlight.specs.Columns.{IsColumnKnown, column_of};
ghost use Rattle.textarea_highlight.specs.Display.{is_tab, display_char, with_spaces, without_tabs, display_text, display_bytes, IsDisplayedAsItIs};

use memchr::memchr;
use std::alloc::{AllocError, Global};
use textarea_screen::screen::SpanText;
use textarea_text::util::spaces;
use textarea_wrap::wrap::columns::{column_after, column_after_text};

/// The text on the screen for the segments of one row, from left to right.
#[derive(Drop)]
pub struct Display {
    pub alloc: Global,
    pub tab_len: u8,
    pub mask: Option<char>,
    /// An offset in the row, at or before the next segment. Only a segment with tabs moves it on.
    pub at: usize,
    /// The column of that offset.
    pub column: usize,
}

impl Display {
    /// Returns the text on the screen for the segment of the row between two offsets: the segment
    /// itself if there is no mask and it is shown unchanged, otherwise a new text.
    pub fn show<'a>(
        &mut self,
        row: &'a str,
        from: usize,
        to: usize,
    ) -> Result<SpanText<'a>, AllocError>
        requires order { from ≤ to }
        requires from_boundary { IsCharBoundary row.now from }
        requires to_boundary { IsCharBoundary row.now to }
        requires known { IsColumnKnown row.now self.old from }
        requires room { 255 * length row.now < 2 ^ 63 }
        ensures text { IfOk result (λ content. text_bytes_of (content_view content)
            ≡ display_bytes self.old.mask self.old.tab_len
            (column_of row.now self.old.tab_len from) (slice_range row.now from to)) }
        ensures borrowed { IfOk result (λ content. IsUncopied (content_view content)
            ↔ IsDisplayedAsItIs self.old.mask self.old.tab_len
            (column_of row.now self.old.tab_len from) (slice_range row.now from to)) }
        ensures known { IsColumnKnown row.now self.new from }
        ensures tab { self.new.tab_len ≡ self.old.tab_len }
        ensures masked { self.new.mask ≡ self.old.mask }
    {
        let segment = &row[from..to];
        match self.mask {
            Some(mask) => Ok(SpanText::Owned(mask_text(self.alloc, segment, mask)?)),
            None => self.show_tabs(row, from, segment),
        }
    }

    // Returns the text on the screen for a segment that begins at an offset, if there is no mask.
    fn show_tabs<'a>(
        &mut self,
        row: &str,
        from: usize,
        segment: &'a str,
    ) -> Result<SpanText<'a>, AllocError>
        requires boundary { IsCharBoundary row.now from }
        requires known { IsColumnKnown row.now self.old from }
        requires room { 255 * (from + length segment.now) < 2 ^ 63 }
        ensures text { IfOk result (λ content. text_bytes_of (content_view content)
            ≡ display_bytes None self.old.tab_len
            (column_of row.now self.old.tab_len from) segment.now) }
        ensures borrowed { IfOk result (λ content. IsUncopied (content_view content)
            ↔ (display_text None self.old.tab_len
            (column_of row.now self.old.tab_len from) (chars segment.now) ≡ chars segment.now)) }
        ensures known { IsColumnKnown row.now self.new from }
        ensures tab { self.new.tab_len ≡ self.old.tab_len }
        ensures masked { self.new.mask ≡ self.old.mask }
    {
        if self.tab_len == 0 {
            if has_tab_after_start(segment) {
                Ok(SpanText::Owned(drop_tabs(self.alloc, segment)?))
            } else {
                Ok(SpanText::Borrowed(segment))
            }
        } else if has_tab(segment) {
            self.move_to(row, from);
            let text = expand_tabs(self.alloc, segment, self.tab_len, self.column)?;
            Ok(SpanText::Owned(text))
        } else {
            Ok(SpanText::Borrowed(segment))
        }
    }

    // Moves on to an offset of the row.
    fn move_to(&mut self, row: &str, to: usize)
        requires boundary { IsCharBoundary row.now to }
        requires known { IsColumnKnown row.now self.old to }
        requires room { 255 * to < 2 ^ 63 }
        ensures value { self.new ≡ record self.old {
          at = to;
          column = column_of row.now self.old.tab_len to;
        } }
        ensures near { self.new.column ≤ 255 * to }
    {
        self.column = column_after_text(&row[self.at..to], self.column, self.tab_len);
        self.at = to;
    }
}

/// Returns whether the text has a tab. A tab is one byte, and no other character has this byte.
fn has_tab(text: &str) -> bool
    ensures { result ≡ list_any is_tab (chars text.now) }
{
    memchr(b'\t', text.as_bytes()).is_some()
}

fn has_tab_after_start(segment: &str) -> bool
    ensures { result ≡ list_any is_tab (drop 1 (chars segment.now)) }
{
    segment.chars().skip(1).any(|c| c == '\t')
}

/// Returns the mask character for each character.
fn mask_text(alloc: Global, segment: &str, mask: char) -> Result<String, AllocError>
    ensures { IfOk result (λ s. string_bytes s
        ≡ encode_utf8_all (map (λ _. mask) (chars segment.now))) }
{
    segment.chars().map(|_| mask).collect(alloc)
}

/// Returns the text without its tabs, except one at its very start.
fn drop_tabs(alloc: Global, segment: &str) -> Result<String, AllocError>
    ensures { IfOk result
        (λ s. string_bytes s ≡ encode_utf8_all (without_tabs (chars segment.now))) }
{
    let first = segment.chars().take(1);
    let others = segment.chars().skip(1).filter(|c| *c != '\t');
    first.chain(others).collect(alloc)
}

/// Returns the text with each tab replaced by spaces up to the next tab stop.
fn expand_tabs(
    alloc: Global,
    segment: &str,
    tab_len: u8,
    column: usize,
) -> Result<String, AllocError>
    requires { column + 255 * length segment.now < 2 ^ 63 }
    ensures { IfOk result (λ s. string_bytes s
        ≡ encode_utf8_all (with_spaces tab_len column (chars segment.now))) }
{
    let mut expanded = String::with_capacity(alloc, 2 * segment.len())?;
    let mut at = column;
    for c in segment.chars() {
        let next = column_after(c, at, tab_len);
        push_display(&mut expanded, c, at, next, tab_len)?;
        at = next;
    }
    Ok(expanded)
}

/// Appends the text on the screen for a character between two columns.
fn push_display(
    text: &mut String,
    c: char,
    column: usize,
    next: usize,
    tab_len: u8,
) -> Result<(), AllocError>
    requires next { next ≡ column_after tab_len column c }
    requires room { next ≤ column + 255 }
    requires after { column ≤ next }
    ensures { OnOk result (string_bytes text.new
        ≡ string_bytes text.old ++ encode_utf8_all (display_char tab_len column c)) }
{
    if c == '\t' {
        text.push_str(spaces((next - column) as u8))?;
    } else {
        text.push(c)?;
    }
    Ok(())
}
