//! Lines that are indented and outdented: the text at their starts is replaced, in one group.
ghost use Rattle.std.specs.Prelude.{◌≡◌, ◌≤◌, ◌+◌, [], ◌++◌, None, Some, length, take, option_map, IfOk, IfSome, OnErr, OnOk};
ghost use Rattle.std.specs.Arc.{arc_value};
ghost use Rattle.textarea_document.specs.Prelude.{as_nanos, chars, characters, lines, text_of, AreApart, IsPlace};
ghost use Rattle.textarea_document.specs.Indenting.{begins_with_tab, free_spaces, indent_columns, is_free, is_free_space, line_stretches, lines_indented, lines_outdented, lines_shifted, moved_near, outdent_columns, replaced_columns, shift_columns, shifted_column, shifted_place, shifts_lines, stretch_from, tab_characters, tab_of, unless_zero, whole_columns, with_starts};

use crate::document::Document;
use std::alloc::{AllocError, Global};
use std::sync::Arc;
use std::time::Duration;
use textarea_clusters::stops::column_back;
use textarea_data::cursor::CursorUnit;
use textarea_data::range::{AtomicDeleteDirection, AtomicRange};
use textarea_ranges::lookup::range_at_place;
use textarea_text::places::{clip, line_of};
use textarea_text::rows::column_count;
use textarea_text::util::spaces;

impl Document {
    /// Inserts a tab at the start of each line of the selection, or of the cursor's line without
    /// one, and returns whether there was such a line: a tab character if `hard`, otherwise as many
    /// spaces as the tab length. Empty lines are left, and at tab length 0 all. The selection's
    /// lines are those of `duplicate_lines`. It is one group of edits, which ends unless a group
    /// was open. Cursor and anchor stay before the same characters; at column 0 the start of a
    /// selection stays there.
    pub fn indent_lines(&mut self, hard: bool, now: Duration) -> Result<bool, AllocError>
        ensures indented { IfOk result (λ indented. indented ≡ shifts_lines self.old None) }
        ensures ok { OnOk result (self.new ≡ lines_indented self.old hard (as_nanos now)) }
        ensures err { OnErr result (self.new ≡ self.old) }
        ensures lines { OnOk result (lines self.new.text
            ≡ with_starts self.old None (tab_of self.old hard) 0 (lines self.old.text)) }
    {
        let tab = tab_characters(hard, self.layout_settings().tab_len);
        self.shift_lines(None, tab, now)
    }

    /// Removes a tab from the start of each line of the selection, or of the cursor's line without
    /// one, or the spaces in its place, at most as many as the tab length, and returns whether
    /// there were any. No character of an atomic range is removed and, by clusters, no part of one.
    /// All else is as for `indent_lines`.
    pub fn outdent_lines(&mut self, unit: CursorUnit, now: Duration) -> Result<bool, AllocError>
        ensures outdented { IfOk result
            (λ outdented. outdented ≡ shifts_lines self.old (Some unit)) }
        ensures ok { OnOk result (self.new ≡ lines_outdented self.old unit (as_nanos now)) }
        ensures err { OnErr result (self.new ≡ self.old) }
        ensures lines { OnOk result
            (lines self.new.text ≡ with_starts self.old (Some unit) [] 0 (lines self.old.text)) }
    {
        self.shift_lines(Some(unit), "", now)
    }

    // Replaces the start of each line that is indented or outdented by the tab, and returns whether
    // there was such a line.
    fn shift_lines(
        &mut self,
        outdents: Option<CursorUnit>,
        tab: &str,
        now: Duration,
    ) -> Result<bool, AllocError>
        requires short { length (chars tab.now) ≤ 255 }
        ensures shifted { IfOk result (λ shifted. shifted ≡ shifts_lines self.old outdents) }
        ensures ok { OnOk result
            (self.new ≡ lines_shifted self.old outdents (chars tab.now) (as_nanos now)) }
        ensures err { OnErr result (self.new ≡ self.old) }
        ensures lines { OnOk result (lines self.new.text
            ≡ with_starts self.old outdents (chars tab.now) 0 (lines self.old.text)) }
    {
        self.is_sound();
        let stretches = self.line_stretches(outdents)?;
        if stretches.is_empty() {
            return Ok(false);
        }
        let columns = column_count(tab);
        let cursor = self.shifted_place(outdents, columns, self.cursor());
        let anchor = self.shifted_anchor(outdents, columns);
        let fragment_lines = line_as_fragment(self.allocator(), tab)?;
        self.replace_all(stretches.as_slice(), &fragment_lines, now)?;
        self.move_near(cursor, anchor);
        Ok(true)
    }

    /// Returns what indenting, or outdenting if `outdents` is a unit, replaces in each line, by the
    /// numbers of symbols before its start and before its end.
    pub fn line_stretches(
        &self,
        outdents: Option<CursorUnit>,
    ) -> Result<Vec<(usize, usize)>, AllocError>
        ensures { IfOk result (λ stretches. stretches.items ≡ line_stretches self.now outdents) }
    {
        let lines = self.lines();
        let mut stretches = Vec::new(self.allocator());
        let mut before = 0;
        for row in 0..lines.len() {
            let line = line_of(lines, row);
            let replaced = self.replaced_columns(outdents, row, line);
            push_stretch(&mut stretches, before, replaced)?;
            before += column_count(line) + 1;
        }
        Ok(stretches)
    }

    // Returns how many characters at the start of the row's line are replaced; `None` if it is left.
    fn replaced_columns(
        &self,
        outdents: Option<CursorUnit>,
        row: usize,
        line: &str,
    ) -> Option<usize>
        ensures value { result ≡ replaced_columns self.now outdents row (chars line.now) }
        ensures within { IfSome result (λ count. count ≤ 255) }
    {
        let (first, last) = self.selected_rows();
        if row < first || last < row {
            return None;
        }
        let tab_length = self.layout_settings().tab_len;
        shift_columns(outdents, self.ranges(), tab_length, row, line)
    }

    // Returns where a position is after the starts of lines are replaced.
    fn shifted_place(
        &self,
        outdents: Option<CursorUnit>,
        columns: usize,
        place: (usize, usize),
    ) -> (usize, usize)
        requires place { IsPlace self.now.text place }
        requires short { columns ≤ 255 }
        ensures { result ≡ shifted_place self.now outdents columns place }
    {
        self.text_layout.places_are_small();
        let (row, column) = place;
        let line = line_of(self.lines(), row);
        let stays = self.filled_selection().is_some();
        match self.replaced_columns(outdents, row, line) {
            Some(count) => (row, shifted_column(stays, count, columns, column)),
            None => place,
        }
    }

    // The same for where the selection began.
    fn shifted_anchor(&self, outdents: Option<CursorUnit>, columns: usize) -> Option<(usize, usize)>
        requires { columns ≤ 255 }
        ensures { result ≡ option_map (shifted_place self.now outdents columns) self.now.anchor }
    {
        let anchor = self.anchor()?;
        Some(self.shifted_place(outdents, columns, anchor))
    }

    // Moves the cursor and the anchor to the nearest positions.
    pub(super) fn move_near(&mut self, cursor: (usize, usize), anchor: Option<(usize, usize)>)
        ensures { self.new ≡ moved_near self.old cursor anchor }
    {
        let place = clip(self.lines(), cursor);
        self.move_to(place, None);
        self.set_clipped_anchor(anchor);
    }
}

// Pushes this number of symbols from an index on, if there is one.
fn push_stretch(
    stretches: &mut Vec<(usize, usize)>,
    before: usize,
    replaced: Option<usize>,
) -> Result<(), AllocError>
    requires { IfSome replaced (λ count. before + count ≤ usize.MAX) }
    ensures { OnOk result (stretches.new.items ≡ stretches.old.items ++ stretch_from before replaced) }
{
    if let Some(count) = replaced {
        stretches.push((before, before + count))?;
    }
    Ok(())
}

fn shifted_column(stays: bool, count: usize, columns: usize, column: usize) -> usize
    requires { column + columns ≤ usize.MAX }
    ensures { result ≡ shifted_column stays count columns column }
{
    if stays && column == 0 {
        return 0;
    }
    column.saturating_sub(count) + columns
}

fn unless_zero(count: usize) -> Option<usize>
    ensures { result ≡ unless_zero count }
{
    if count == 0 { None } else { Some(count) }
}

fn indent_columns(tab_length: u8, line: &str) -> Option<usize>
    ensures { result ≡ indent_columns tab_length (chars line.now) }
{
    match line.chars().next() {
        Some(_) if 0 < tab_length => Some(0),
        _ => None,
    }
}

// Returns how many characters are replaced in a line that is outdented, by this unit, or indented.
fn shift_columns(
    outdents: Option<CursorUnit>,
    ranges: &[AtomicRange],
    tab_length: u8,
    row: usize,
    line: &str,
) -> Option<usize>
    requires { AreApart ranges.now }
    ensures value { result ≡ shift_columns outdents ranges.now tab_length row (chars line.now) }
    ensures within { IfSome result (λ count. count ≤ 255) }
{
    match outdents {
        Some(unit) => {
            let count = outdent_columns(ranges, tab_length, row, line);
            unless_zero(whole_columns(unit, ranges, row, line, count))
        }
        None => indent_columns(tab_length, line),
    }
}

// Returns so many columns or, by clusters, the most of them after which the cursor can be.
fn whole_columns(
    unit: CursorUnit,
    ranges: &[AtomicRange],
    row: usize,
    line: &str,
    count: usize,
) -> usize
    requires apart { AreApart ranges.now }
    requires within { count ≤ length (chars line.now) }
    ensures value { result ≡ whole_columns unit ranges.now row (chars line.now) count }
    ensures within { result ≤ count }
{
    match unit {
        CursorUnit::Character => count,
        CursorUnit::Cluster => column_back(line, ranges, (row, count)),
    }
}

// Returns how many characters outdenting removes from the start of the row's line.
fn outdent_columns(ranges: &[AtomicRange], tab_length: u8, row: usize, line: &str) -> usize
    requires { AreApart ranges.now }
    ensures value { result ≡ outdent_columns ranges.now tab_length row (chars line.now) }
    ensures short { result ≤ 255 }
{
    if begins_with_tab(line) && is_free(ranges, (row, 0)) {
        return 1;
    }
    free_spaces(ranges, tab_length, row, line)
}

fn begins_with_tab(line: &str) -> bool
    ensures { result ≡ begins_with_tab (chars line.now) }
{
    match line.chars().next() {
        Some(c) => c == '\t',
        None => false,
    }
}

// Returns the number of spaces at the line's start, at most the tab length, up to the first that a
// range has.
fn free_spaces(ranges: &[AtomicRange], tab_length: u8, row: usize, line: &str) -> usize
    requires { AreApart ranges.now }
    ensures value { result ≡ free_spaces ranges.now row 0 (take tab_length (chars line.now)) }
    ensures within { result ≤ 255 }
{
    let mut count = 0;
    for c in line.chars().take(usize::from(tab_length)) {
        if !is_free_space(ranges, (row, count), c) {
            return count;
        }
        count += 1;
    }
    count
}

fn is_free_space(ranges: &[AtomicRange], place: (usize, usize), c: char) -> bool
    requires { AreApart ranges.now }
    ensures { result ≡ is_free_space ranges.now place c }
{
    c == ' ' && is_free(ranges, place)
}

fn is_free(ranges: &[AtomicRange], place: (usize, usize)) -> bool
    requires { AreApart ranges.now }
    ensures { result ≡ is_free ranges.now place }
{
    range_at_place(ranges, place, AtomicDeleteDirection::Forward).is_none()
}

// Returns a tab character, or as many spaces as the tab length.
fn tab_characters(hard: bool, tab_length: u8) -> &'static str
    ensures value { chars result.now ≡ tab_characters hard tab_length }
    ensures short { length (chars result.now) ≤ 255 }
{
    if hard {
        return "\t";
    }
    spaces(tab_length)
}

// Returns a fragment of this one line.
fn line_as_fragment(alloc: Global, line: &str) -> Result<Arc<Vec<String>>, AllocError>
    ensures { IfOk result (λ fragment_lines.
        text_of (arc_value fragment_lines).items ≡ characters (chars line.now)) }
{
    let mut fragment_lines = Vec::new(alloc);
    fragment_lines.push(String::from_str(alloc, line)?)?;
    Ok(Arc::new(alloc, fragment_lines)?)
}
