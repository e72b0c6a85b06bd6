//! Replacements of text, each one group of edits.
ghost use Rattle.std.specs.Prelude.{◌≡◌, ◌<◌, None, OnOk, OnErr, IsOk, IfOk, is_some, length, string_bytes, ◌&&◌, false, if◌then◌else◌};
ghost use Rattle.std.specs.Arc.{arc_value};
ghost use Rattle.std.specs.Str.{chars};
ghost use Rattle.textarea_data.specs.declared.range.AtomicCursorBias.TheVariants.{Forward};
ghost use Rattle.textarea_document.specs.Replacing.{stretch_symbols};
ghost use Rattle.tui_textarea.specs.Prelude.{fragment_symbols, fragment_text, text_of, admitted, admitted_between, admitted_for, bars_each, is_editable, replaces_whole, settled, unless_read_only, whole_range_replaced};
ghost use Rattle.tui_textarea.specs.Fitting.{fits_each};
ghost use Rattle.tui_textarea.specs.Replacing.{match_at_cursor, match_replaced, match_replaced_by, matches_replaced, replaceable, stretches_replaced};

use crate::matches::{match_at, replaceable_in};
use crate::textarea::TextArea;
use crate::textarea::guards::symbol_count;
use std::alloc::AllocError;
use std::sync::Arc;
use textarea_data::range::AtomicCursorBias;
use textarea_search::search::{Direction, TextMatch};
use textarea_text::fragment::fragment_of;
use textarea_text::text_slice::between;

impl TextArea<'_> {
    /// Returns the text between two positions, in either order, with a line feed for each line
    /// break. Positions beyond the text count as the nearest ones in it.
    pub fn text_range(&self, from: (usize, usize), to: (usize, usize)) -> Result<String, AllocError>
        ensures { IfOk result (λ text. chars (string_bytes text)
            ≡ fragment_text (stretch_symbols self.now.document.text from to)) }
    {
        self.document.text_range(from, to)
    }

    /// Replaces the text between two positions, in either order, by this one, and returns whether
    /// it removed or inserted something. Positions beyond the text count as the nearest ones in it.
    /// Each atomic range that the replaced text overlaps is removed, and so is each cluster, if the
    /// cursor goes by clusters. Each line feed of the text breaks the line, as for `insert_str`. The
    /// cursor is then after what was inserted, and nothing is selected. The removal and the insertion
    /// are one group of two edits: if no group was open, and two edits are remembered, one undo takes
    /// both back (`laws::calls_are_undone_at_once`).
    pub fn replace_range(
        &mut self,
        from: (usize, usize),
        to: (usize, usize),
        text: &str,
    ) -> Result<bool, AllocError>
        ensures replaced { IfOk result (λ replaced. replaced ≡ (is_editable self.old && replaces_whole
            self.old from to (fragment_symbols (chars text.now)))) }
        ensures ok { OnOk result (self.new ≡ unless_read_only self.old (settled Forward
            (whole_range_replaced self.old from to (fragment_symbols (chars text.now))))) }
        ensures err { OnErr result (self.new ≡ self.old) }
        ensures nothing { is_editable self.old ≡ false → IsOk result }
    {
        if self.read_only() {
            return Ok(false);
        }
        let replaced = self.replace_range_unguarded(from, to, text)?;
        self.settle(AtomicCursorBias::Forward);
        Ok(replaced)
    }

    // The same, whether the text area is read only or not.
    fn replace_range_unguarded(
        &mut self,
        from: (usize, usize),
        to: (usize, usize),
        text: &str,
    ) -> Result<bool, AllocError>
        ensures replaced { IfOk result (λ replaced. replaced
            ≡ replaces_whole self.old from to (fragment_symbols (chars text.now))) }
        ensures ok { OnOk result (self.new
            ≡ whole_range_replaced self.old from to (fragment_symbols (chars text.now))) }
        ensures err { OnErr result (self.new ≡ self.old) }
    {
        let (start, stop) = self.whole_stretch(from, to);
        let fragment_lines = self.fragment_between(start, stop, text)?;
        self.document
            .replace_range(start, stop, fragment_lines, self.time)
    }

    /// Replaces the match of the search pattern that begins at the cursor by this text, as
    /// `replace_range` does, and moves the cursor to the next match at or after what was inserted;
    /// after an empty match at least one character later. Returns whether there was such a match.
    /// Without one, or if an end of it is strictly inside an atomic range or, if the cursor goes by
    /// clusters, a cluster, it only searches as `search_forward(false)` does.
    pub fn replace_match(&mut self, text: &str) -> Result<bool, AllocError>
        ensures replaced { IfOk result (λ replaced. replaced ≡ (is_editable self.old && is_some
            (match_at_cursor self.old))) }
        ensures ok { OnOk result (self.new ≡ unless_read_only self.old (settled Forward
            (match_replaced self.old (admitted_for (match_at_cursor self.old) self.old
            (fragment_symbols (chars text.now)))))) }
        ensures err { OnErr result (self.new ≡ self.old) }
        ensures no_pattern { self.old.pattern ≡ None → IsOk result }
        ensures read_only { is_editable self.old ≡ false → IsOk result }
    {
        if self.read_only() {
            return Ok(false);
        }
        let replaced = self.replace_match_unguarded(text)?;
        self.settle(AtomicCursorBias::Forward);
        Ok(replaced)
    }

    // The same, whether the text area is read only or not.
    fn replace_match_unguarded(&mut self, text: &str) -> Result<bool, AllocError>
        ensures replaced { IfOk result
            (λ replaced. replaced ≡ is_some (match_at_cursor self.old)) }
        ensures ok { OnOk result
            (self.new ≡ match_replaced self.old
            (admitted_for (match_at_cursor self.old) self.old (fragment_symbols (chars text.now)))) }
        ensures err { OnErr result (self.new ≡ self.old) }
        ensures no_pattern { self.old.pattern ≡ None → IsOk result }
    {
        let Some(found) = self.match_at_cursor()? else {
            let next = self.found_match(Direction::Forward, false)?;
            self.go_to_match(next);
            return Ok(false);
        };
        self.replace_found(found, text)?;
        Ok(true)
    }

    /// Replaces each match of the search pattern in the text as it is now by this text, and returns
    /// their number. Matches in what is inserted are left, and so is a match of which an end is
    /// strictly inside an atomic range, or, if the cursor goes by clusters, a cluster; one that
    /// contains a range removes it. An empty match inserts
    /// the text. The cursor is then after the last one that was replaced, and nothing is selected;
    /// without matches nothing changes.
    ///
    /// All are one group of edits, at most two for each match. If no group was open, and as many
    /// edits are remembered, one undo takes all back (`laws::calls_are_undone_at_once`). If they are
    /// more than `max_histories`, which is 50 at first, none of them is remembered, and no edit from
    /// before, so nothing can be undone. `set_max_histories` with twice the number of matches makes
    /// room for them; since it forgets all edits, it is best called before the first one.
    pub fn replace_all(&mut self, text: &str) -> Result<usize, AllocError>
        ensures count { IfOk result (λ count. count ≡ (if bars_each self.old text.entry then 0 else
            length (replaceable self.old))) }
        ensures ok { OnOk result (self.new ≡ (if bars_each self.old text.entry then self.old else
            settled Forward (matches_replaced self.old
            (admitted self.old (fragment_symbols (chars text.now)))))) }
        ensures err { OnErr result (self.new ≡ self.old) }
        ensures no_pattern { self.old.pattern ≡ None → IsOk result }
        ensures read_only { is_editable self.old ≡ false → IsOk result }
    {
        if self.read_only() {
            return Ok(0);
        }
        self.replace_all_unguarded(text)
    }

    // The same, whether the text area is read only or not.
    fn replace_all_unguarded(&mut self, text: &str) -> Result<usize, AllocError>
        ensures count { IfOk result (λ count. count ≡ (if fits_each self.old (replaceable self.old)
            (admitted self.old (fragment_symbols (chars text.now))) then
            length (replaceable self.old) else 0)) }
        ensures ok { OnOk result (self.new ≡ (if fits_each self.old (replaceable self.old)
            (admitted self.old (fragment_symbols (chars text.now))) then settled Forward
            (matches_replaced self.old (admitted self.old (fragment_symbols (chars text.now))))
            else self.old)) }
        ensures err { OnErr result (self.new ≡ self.old) }
        ensures no_pattern { self.old.pattern ≡ None → IsOk result }
    {
        let stretches = self.replaceable()?;
        if stretches.is_empty() {
            self.settle(AtomicCursorBias::Forward);
            return Ok(0);
        }
        self.replace_stretches(stretches.as_slice(), text)
    }

    // Replaces each of these stretches by what is inserted of the text, if that fits in place of
    // them; returns how many it replaced.
    fn replace_stretches(
        &mut self,
        stretches: &[(usize, usize)],
        text: &str,
    ) -> Result<usize, AllocError>
        requires some { 0 < length stretches.now }
        ensures count { IfOk result (λ count. count ≡ (if fits_each self.old stretches.now
            (admitted self.old (fragment_symbols (chars text.now))) then length stretches.now
            else 0)) }
        ensures ok { OnOk result (self.new ≡ (if fits_each self.old stretches.now
            (admitted self.old (fragment_symbols (chars text.now))) then settled Forward
            (stretches_replaced self.old stretches.now
            (admitted self.old (fragment_symbols (chars text.now)))) else self.old)) }
        ensures err { OnErr result (self.new ≡ self.old) }
    {
        let fragment_lines = self.admitted_fragment(text)?;
        if !self.fits_each(stretches, fragment_lines.as_slice()) {
            return Ok(0);
        }
        self.document
            .replace_all(stretches, &fragment_lines, self.time)?;
        self.settle(AtomicCursorBias::Forward);
        Ok(stretches.len())
    }

    // Returns what is inserted of the text, as a fragment.
    pub(super) fn admitted_fragment(&self, text: &str) -> Result<Arc<Vec<String>>, AllocError>
        ensures { IfOk result (λ fragment_lines. text_of (arc_value fragment_lines).items
            ≡ admitted self.now (fragment_symbols (chars text.now))) }
    {
        let alloc = self.allocator();
        let fragment_lines = fragment_of(alloc, text)?;
        self.admitted(Arc::new(alloc, fragment_lines)?)
    }

    // Returns what is inserted of the text in place of that between two positions, as a fragment.
    fn fragment_between(
        &self,
        from: (usize, usize),
        to: (usize, usize),
        text: &str,
    ) -> Result<Arc<Vec<String>>, AllocError>
        ensures { IfOk result (λ fragment_lines. text_of (arc_value fragment_lines).items
            ≡ admitted_between self.now from to (fragment_symbols (chars text.now))) }
    {
        let fragment_lines = self.admitted_fragment(text)?;
        if self.settings.max_chars.is_none() {
            return Ok(fragment_lines);
        }
        let removed = self.stretch_length(from, to)?;
        let others = self.symbol_count() - removed;
        self.fitting(fragment_lines, others)
    }

    // Returns the number of symbols between the positions that are nearest to these two.
    fn stretch_length(&self, from: (usize, usize), to: (usize, usize)) -> Result<usize, AllocError>
        ensures { IfOk result
            (λ count. count ≡ length (stretch_symbols self.now.document.text from to)) }
    {
        let (start, end) = self.document.stretch(from, to);
        let removed = between(self.allocator(), self.document.lines(), start, end)?;
        Ok(symbol_count(removed.as_slice()))
    }

    // Returns the numbers of symbols before the start and before the end of each match that can be
    // replaced.
    fn replaceable(&self) -> Result<Vec<(usize, usize)>, AllocError>
        ensures found { IfOk result (λ stretches. stretches.items ≡ replaceable self.now) }
        ensures no_pattern { self.now.pattern ≡ None → IsOk result }
    {
        let ranges = self.document.ranges();
        let lines = self.document.lines();
        let unit = self.settings.cursor_unit;
        replaceable_in(self.allocator(), unit, &self.search, ranges, lines)
    }

    // Returns the match that begins at the cursor, if there is one and it can be replaced.
    fn match_at_cursor(&self) -> Result<Option<TextMatch>, AllocError>
        ensures found { IfOk result (λ found. found ≡ match_at_cursor self.now) }
        ensures no_pattern { self.now.pattern ≡ None → IsOk result }
    {
        let ranges = self.document.ranges();
        let lines = self.document.lines();
        let cursor = self.document.cursor();
        let unit = self.settings.cursor_unit;
        match_at(self.allocator(), unit, &self.search, ranges, lines, cursor)
    }

    // Replaces the match, and moves the cursor to the next one.
    fn replace_found(&mut self, found: TextMatch, text: &str) -> Result<(), AllocError>
        ensures ok { OnOk result (self.new
            ≡ match_replaced_by (Some found) self.old
            (admitted_for (Some found) self.old (fragment_symbols (chars text.now)))) }
        ensures err { OnErr result (self.new ≡ self.old) }
    {
        let (first, last) = found.columns;
        let fragment_lines = self.fragment_between((found.row, first), (found.row, last), text)?;
        let copy = self.document.replaced(
            (found.row, first),
            (found.row, last),
            fragment_lines,
            self.time,
        )?;
        let next = self.next_match_in(&copy, first != last)?;
        self.document.replace_with(copy);
        self.go_to_match(next);
        Ok(())
    }
}
