//! What a text area leaves out: all edits while it is read only, line breaks while it has a single
//! line, and what doesn't fit while it has a greatest number of characters.
ghost use Rattle.std.specs.Prelude.{◌≡◌, ◌<◌, ◌≤◌, ◌&&◌, IfOk, length, map, nat_le, not, string_bytes};
ghost use Rattle.std.specs.Arc.{arc_value};
ghost use Rattle.std.specs.Str.{chars};
ghost use Rattle.textarea_text.specs.Text.{characters};
ghost use Rattle.tui_textarea.specs.Fitting.{beginning, fits_duplicate, fits_each, fits_for, fits_indent, fitting_beside, fitting_count, has_no_room, removed_by};
ghost use Rattle.tui_textarea.specs.Guards.{spaced};
ghost use Rattle.tui_textarea.specs.Prelude.{admitted, bars_break, bars_character, bars_lines, has_several_lines, single_line_set, bars_duplicate, bars_tab, lines, lines_of, size_limit, size_of, text_of};

use crate::textarea::TextArea;
use std::alloc::{AllocError, Global};
use std::sync::Arc;
use textarea_clusters::edges::edge_back;
use textarea_document::Document;
use textarea_text::places::{ahead, line_of};
use textarea_text::rows::column_count;
use textarea_text::text_slice::between;

impl TextArea<'_> {
    /// Sets whether the text area is read only. Then no call but `set_lines` changes the text: every
    /// other call that edits, and an undo and a redo, changes nothing, neither what is yanked nor
    /// the selection, takes no memory, and returns false, 0 or `None`. But `cut` does what `copy`
    /// does, and returns whether a text was selected. An input that would edit returns false. Moves,
    /// selections, searches and settings work as ever. A new text area can be edited.
    pub fn set_read_only(&mut self, read_only: bool)
        ensures { self.new
            ≡ record self.old
            { settings = record self.old.settings { read_only = read_only } } }
    {
        self.settings.read_only = read_only;
    }

    /// Returns whether the text area is read only.
    pub fn read_only(&self) -> bool
        ensures { result ≡ self.now.settings.read_only }
    {
        self.settings.read_only
    }

    /// Sets whether the text is kept in a single line, and returns whether it could be set. Then
    /// `insert_newline`, `duplicate_line`, and `insert_char` of a line feed or a carriage return do
    /// nothing, an input for them returns false, each break of a text that is inserted or pasted
    /// becomes a space, and `set_lines` of several lines does nothing. Setting it forgets all edits,
    /// since they may have had breaks. A text of several lines can't be kept in one: then nothing
    /// changes, and the result is false. A new text area may have several lines.
    pub fn set_single_line(&mut self, single_line: bool) -> bool
        ensures set { result ≡ not (single_line && has_several_lines self.old) }
        ensures new { self.new ≡ single_line_set self.old single_line }
    {
        if !single_line {
            self.settings.single_line = false;
            return true;
        }
        if 1 < self.document.lines().len() {
            return false;
        }
        self.document
            .set_max_histories(self.document.max_histories());
        self.settings.single_line = true;
        true
    }

    /// Sets the greatest number of characters of the text, a line break counted as one, or none for
    /// `None`, as at first. Then a character or a break that is typed does nothing if it doesn't fit;
    /// one that replaces a selected text always fits. A text that is inserted or pasted, or that
    /// replaces another one, is cut at the end of the last of its own grapheme clusters that fits.
    /// `duplicate_line`, `indent_lines` and `replace_all` do nothing unless all that they insert fits.
    /// Undo, redo and `set_lines` are never cut, and a longer text stays as it is. While there is a
    /// greatest number, each insertion counts the characters of the text.
    pub fn set_max_chars(&mut self, maximum: Option<usize>)
        ensures { self.new
            ≡ record self.old
            { settings = record self.old.settings { max_chars = maximum } } }
    {
        self.settings.max_chars = maximum;
    }

    /// Returns the greatest number of characters of the text; `None` for any number.
    pub fn max_chars(&self) -> Option<usize>
        ensures { result ≡ self.now.settings.max_chars }
    {
        self.settings.max_chars
    }

    /// Returns whether the text is kept in a single line.
    pub fn single_line(&self) -> bool
        ensures { result ≡ self.now.settings.single_line }
    {
        self.settings.single_line
    }

    // Returns whether a line break is left out.
    pub(super) fn bars_break(&self) -> bool
        ensures { result ≡ bars_break self.now }
    {
        self.settings.single_line || self.bars_tab()
    }

    // Returns whether a typed character is left out.
    pub(super) fn bars_character(&self, c: char) -> bool
        ensures { result ≡ bars_character self.now c }
    {
        ((c == '\n' || c == '\r') && self.settings.single_line) || self.bars_tab()
    }

    // Returns whether a tab is left out.
    pub(super) fn bars_tab(&self) -> bool
        ensures { result ≡ bars_tab self.now }
    {
        self.has_no_room() || self.settings.read_only
    }

    // Returns whether other lines are left out.
    pub(super) fn bars_lines(&self, lines: &[String]) -> bool
        ensures { result ≡ bars_lines self.now (lines_of lines.now) }
    {
        self.settings.single_line && 1 < lines.len()
    }

    // Returns whether no typed character fits.
    fn has_no_room(&self) -> bool
        ensures { result ≡ has_no_room self.now }
    {
        self.document.filled_selection().is_none() && !self.fits(1)
    }

    // Returns whether so many more symbols fit.
    pub(super) fn fits(&self, count: usize) -> bool
        ensures { result ≡ fits_for self.now 0 count }
    {
        match self.settings.max_chars {
            Some(maximum) => count == 0
                || count <= maximum && self.symbol_count() <= maximum - count,
            None => true,
        }
    }

    // Returns whether a duplicate of the lines is left out.
    pub(super) fn bars_duplicate(&self) -> bool
        ensures { result ≡ bars_duplicate self.now }
    {
        self.settings.single_line || !self.fits_duplicate() || self.settings.read_only
    }

    // Returns whether the selection's lines, or the cursor's line, fit once more.
    fn fits_duplicate(&self) -> bool
        ensures { result ≡ fits_duplicate self.now }
    {
        let (first, last) = self.document.selected_rows();
        let lines = &self.document.lines()[first..=last];
        self.fits(symbol_count(lines) + 1)
    }

    // Returns whether a tab fits at the start of each of these lines.
    pub(super) fn fits_indent(&self) -> Result<bool, AllocError>
        ensures { IfOk result (λ fits. fits ≡ fits_indent self.now) }
    {
        let stretches = self.document.line_stretches(None)?;
        let columns = if self.settings.hard_tab_indent {
            1
        } else {
            self.document.layout_settings().tab_len
        };
        lines_are_few(&self.document);
        Ok(self.fits(stretches.len() * usize::from(columns)))
    }

    // Returns whether the fragment fits in place of each of these stretches.
    pub(super) fn fits_each(&self, stretches: &[(usize, usize)], fragment_lines: &[String]) -> bool
        requires some { 0 < length stretches.now }
        ensures { result ≡ fits_each self.now stretches.now (text_of fragment_lines.now) }
    {
        let Some(maximum) = self.settings.max_chars else {
            return true;
        };
        let removed = removed_by(stretches);
        let others = (self.symbol_count() as u128).saturating_sub(removed);
        let room = (maximum as u128).saturating_sub(others).max(removed);
        has_at_most(fragment_lines, room / stretches.len() as u128)
    }

    // Returns the number of symbols of the text.
    pub(super) fn symbol_count(&self) -> usize
        ensures { result ≡ length self.now.document.text }
    {
        symbol_count(self.document.lines())
    }

    // Returns how many of so many spaces fit.
    pub(super) fn fitting_count(&self, count: u8) -> u8
        ensures { result ≡ fitting_count self.now.settings.max_chars
            (length self.now.document.text) count }
    {
        let Some(maximum) = self.settings.max_chars else {
            return count;
        };
        let room = maximum.saturating_sub(self.symbol_count());
        if room < usize::from(count) {
            room as u8
        } else {
            count
        }
    }

    // Returns what fits of the fragment beside so many other symbols.
    pub(super) fn fitting(
        &self,
        fragment_lines: Arc<Vec<String>>,
        others: usize,
    ) -> Result<Arc<Vec<String>>, AllocError>
        ensures { IfOk result (λ fitting. text_of (arc_value fitting).items ≡ fitting_beside
            self.now.settings.max_chars others (text_of (arc_value fragment_lines).items)) }
    {
        let Some(maximum) = self.settings.max_chars else {
            return Ok(fragment_lines);
        };
        let alloc = self.allocator();
        let kept = beginning(
            alloc,
            fragment_lines.as_slice(),
            maximum.saturating_sub(others),
        )?;
        Ok(Arc::new(alloc, kept)?)
    }

    // Returns what is inserted of a fragment.
    pub(super) fn admitted(
        &self,
        fragment_lines: Arc<Vec<String>>,
    ) -> Result<Arc<Vec<String>>, AllocError>
        ensures { IfOk result (λ admitted_lines. text_of (arc_value admitted_lines).items
            ≡ admitted self.now (text_of (arc_value fragment_lines).items)) }
    {
        if !self.settings.single_line {
            return Ok(fragment_lines);
        }
        let mut line_alone = Vec::new(self.allocator());
        line_alone.push(join_with_spaces(self.allocator(), fragment_lines.as_slice())?)?;
        Ok(Arc::new(self.allocator(), line_alone)?)
    }
}

// A document has at most as many lines as the size limit.
fn lines_are_few(document: &Document)
    ensures { length (lines document.now.text) ≤ size_limit }
{
    document.lines();
}

// Joins the lines of a fragment by spaces.
fn join_with_spaces(alloc: Global, fragment_lines: &[String]) -> Result<String, AllocError>
    ensures { IfOk result (λ s. characters (chars (string_bytes s))
        ≡ map spaced (text_of fragment_lines.now)) }
{
    let Some((first, rest)) = fragment_lines.split_first() else {
        return Ok(String::new(alloc));
    };
    let mut text = String::from_str(alloc, first.as_str())?;
    for fragment_line in rest {
        text.push(' ')?;
        text.push_str(fragment_line.as_str())?;
    }
    Ok(text)
}

// Returns the number of symbols of the lines of a text.
pub(super) fn symbol_count(lines: &[String]) -> usize
    requires some { 0 < length lines.now }
    requires limit { size_of lines.now ≤ size_limit }
    ensures { result ≡ length (text_of lines.now) }
{
    let mut count = lines.len() - 1;
    for line in lines {
        count += column_count(line.as_str());
    }
    count
}

// Returns the longest beginning of a fragment that has so many symbols at most and ends with a
// grapheme cluster of the fragment.
fn beginning(
    alloc: Global,
    fragment_lines: &[String],
    most: usize,
) -> Result<Vec<String>, AllocError>
    ensures { IfOk result (λ kept. text_of kept.items
        ≡ beginning (text_of fragment_lines.now) most) }
{
    if fragment_lines.is_empty() {
        return Ok(Vec::new(alloc));
    }
    let (row, column) = ahead(fragment_lines, (0, 0), most);
    let end = edge_back(line_of(fragment_lines, row), column);
    between(alloc, fragment_lines, (0, 0), (row, end))
}

// Returns the number of symbols in all these stretches, for which a `usize` may be too small.
fn removed_by(stretches: &[(usize, usize)]) -> u128
    ensures { result ≡ removed_by stretches.now }
{
    let mut removed = 0u128;
    for stretch in stretches {
        removed += stretch.1.saturating_sub(stretch.0) as u128;
    }
    removed
}

// Returns whether the fragment has so many symbols at most.
fn has_at_most(fragment_lines: &[String], most: u128) -> bool
    ensures { result ≡ nat_le (length (text_of fragment_lines.now)) most }
{
    let Some((first, rest)) = fragment_lines.split_first() else {
        return true;
    };
    let count = column_count(first.as_str()) as u128;
    if most < count {
        return false;
    }
    let mut left = most - count;
    for fragment_line in rest {
        let count = column_count(fragment_line.as_str()) as u128 + 1;
        if left < count {
            return false;
        }
        left -= count;
    }
    true
}
