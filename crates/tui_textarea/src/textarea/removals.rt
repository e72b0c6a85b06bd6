//! Removals. If text is selected, each of them but `clear` removes only that.
ghost use Rattle.std.specs.Prelude.{◌≡◌, ◌<◌, OnOk, OnErr, IsOk, IfOk, IfSome, MatchOption, None, Some, false, is_some, true, ◌&&◌};
ghost use Rattle.textarea_ranges.specs.Lookup.{range_end, range_start};
ghost use Rattle.textarea_data.specs.declared.range.AtomicCursorBias.TheVariants.{Forward};
ghost use Rattle.tui_textarea.specs.Prelude.{IsPlace, index_of, place_of, has_symbols, break_before_removed, text_cleared, has_ahead, has_before, has_after, has_break_before, has_line_before, has_line_after, has_word_before, has_word_after, index_ahead, back_to_word_removed, on_to_word_end_removed, line_end_removed, line_head_removed, removes_or, symbol_before_removed, symbol_after_removed, symbols_ahead_removed, unselected_or, word_before_removed, word_after_removed, yanked, is_editable, unless_read_only, settled, range_at_cursor, cursor_range_removed_or};

use crate::textarea::TextArea;
use std::alloc::AllocError;
use textarea_data::range::{AtomicCursorBias, AtomicDeleteDirection, AtomicRange};
use textarea_document::ends::{word_end_after, word_start_before};
use textarea_text::places::{ahead, line_end, text_end};

impl TextArea<'_> {
    /// Removes the atomic range that ends at the cursor or strictly contains it, or else the
    /// character before the cursor, or at column 0 the line break. A cursor that goes by clusters
    /// removes the cluster, and that is no typed edit if it has several characters. Returns whether
    /// it removed text.
    pub fn delete_char(&mut self) -> Result<bool, AllocError>
        ensures removed { IfOk result (λ removed. removed ≡ (is_editable self.old && removes_or
            self.old (has_before self.old))) }
        ensures ok { OnOk result (self.new ≡ unless_read_only self.old (settled Forward
            (unselected_or self.old (symbol_before_removed self.old)))) }
        ensures err { OnErr result (self.new ≡ self.old) }
        ensures nothing { (is_editable self.old && removes_or self.old (has_before self.old)) ≡
            false → IsOk result }
    {
        if self.read_only() {
            return Ok(false);
        }
        let removed = self.delete_char_unguarded()?;
        self.settle(AtomicCursorBias::Forward);
        Ok(removed)
    }

    // The same, whether the text area is read only or not.
    fn delete_char_unguarded(&mut self) -> Result<bool, AllocError>
        ensures removed { IfOk result
            (λ removed. removed ≡ removes_or self.old (has_before self.old)) }
        ensures ok { OnOk result
            (self.new ≡ unselected_or self.old (symbol_before_removed self.old)) }
        ensures err { OnErr result (self.new ≡ self.old) }
        ensures nothing { removes_or self.old (has_before self.old) ≡ false → IsOk result }
    {
        if self.document.remove_selection(self.time)? {
            return Ok(true);
        }
        self.remove_before()
    }

    /// Removes the atomic range that starts at the cursor or strictly contains it, or else the
    /// character after the cursor, or at a line's end the line break. Returns whether text was
    /// removed.
    pub fn delete_next_char(&mut self) -> Result<bool, AllocError>
        ensures removed { IfOk result (λ removed. removed ≡ (is_editable self.old && removes_or
            self.old (has_after self.old))) }
        ensures ok { OnOk result (self.new ≡ unless_read_only self.old (settled Forward
            (unselected_or self.old (symbol_after_removed self.old)))) }
        ensures err { OnErr result (self.new ≡ self.old) }
        ensures nothing { (is_editable self.old && removes_or self.old (has_after self.old)) ≡ false
            → IsOk result }
    {
        if self.read_only() {
            return Ok(false);
        }
        let removed = self.delete_next_char_unguarded()?;
        self.settle(AtomicCursorBias::Forward);
        Ok(removed)
    }

    // The same, whether the text area is read only or not.
    fn delete_next_char_unguarded(&mut self) -> Result<bool, AllocError>
        ensures removed { IfOk result
            (λ removed. removed ≡ removes_or self.old (has_after self.old)) }
        ensures ok { OnOk result
            (self.new ≡ unselected_or self.old (symbol_after_removed self.old)) }
        ensures err { OnErr result (self.new ≡ self.old) }
        ensures nothing { removes_or self.old (has_after self.old) ≡ false → IsOk result }
    {
        if self.document.remove_selection(self.time)? {
            return Ok(true);
        }
        self.remove_after()
    }

    /// Removes the line break before the cursor's line. Returns whether text was removed.
    pub fn delete_newline(&mut self) -> Result<bool, AllocError>
        ensures removed { IfOk result (λ removed. removed ≡ (is_editable self.old && removes_or
            self.old (has_break_before self.old))) }
        ensures ok { OnOk result (self.new ≡ unless_read_only self.old (settled Forward
            (unselected_or self.old (break_before_removed self.old)))) }
        ensures err { OnErr result (self.new ≡ self.old) }
        ensures nothing { (is_editable self.old && removes_or self.old (has_break_before self.old))
            ≡ false → IsOk result }
    {
        if self.read_only() {
            return Ok(false);
        }
        let removed = self.delete_newline_unguarded()?;
        self.settle(AtomicCursorBias::Forward);
        Ok(removed)
    }

    // The same, whether the text area is read only or not.
    fn delete_newline_unguarded(&mut self) -> Result<bool, AllocError>
        ensures removed { IfOk result
            (λ removed. removed ≡ removes_or self.old (has_break_before self.old)) }
        ensures ok { OnOk result
            (self.new ≡ unselected_or self.old (break_before_removed self.old)) }
        ensures err { OnErr result (self.new ≡ self.old) }
        ensures nothing { removes_or self.old (has_break_before self.old) ≡ false → IsOk result }
    {
        if self.document.remove_selection(self.time)? {
            return Ok(true);
        }
        self.document.remove_break(self.time)
    }

    /// Removes and yanks the next `count` characters after the cursor, or all if there are fewer;
    /// each line break counts as one. Returns whether text was removed.
    pub fn delete_str(&mut self, count: usize) -> Result<bool, AllocError>
        ensures removed { IfOk result (λ removed. removed ≡ (is_editable self.old && removes_or
            self.old (has_ahead self.old count))) }
        ensures ok { OnOk result (self.new ≡ unless_read_only self.old (settled Forward
            (unselected_or self.old (symbols_ahead_removed self.old count)))) }
        ensures err { OnErr result (self.new ≡ self.old) }
        ensures nothing { (is_editable self.old && removes_or self.old (has_ahead self.old count)) ≡
            false → IsOk result }
    {
        if self.read_only() {
            return Ok(false);
        }
        let removed = self.delete_str_unguarded(count)?;
        self.settle(AtomicCursorBias::Forward);
        Ok(removed)
    }

    // The same, whether the text area is read only or not.
    fn delete_str_unguarded(&mut self, count: usize) -> Result<bool, AllocError>
        ensures removed { IfOk result
            (λ removed. removed ≡ removes_or self.old (has_ahead self.old count)) }
        ensures ok { OnOk result
            (self.new ≡ unselected_or self.old (symbols_ahead_removed self.old count)) }
        ensures err { OnErr result (self.new ≡ self.old) }
        ensures nothing { removes_or self.old (has_ahead self.old count) ≡ false → IsOk result }
    {
        if self.document.remove_selection(self.time)? {
            return Ok(true);
        }
        let Some(end) = self.place_ahead(count) else {
            self.document.set_anchor(None);
            return Ok(false);
        };
        let cursor = self.document.cursor();
        self.remove_and_yank(cursor, end)?;
        Ok(true)
    }

    /// Removes and yanks the text from the cursor to its line's end; at the line's end it does what
    /// `delete_next_char` does. Returns whether text was removed.
    pub fn delete_line_by_end(&mut self) -> Result<bool, AllocError>
        ensures removed { IfOk result (λ removed. removed ≡ (is_editable self.old && removes_or
            self.old (has_line_after self.old))) }
        ensures ok { OnOk result (self.new ≡ unless_read_only self.old (settled Forward
            (unselected_or self.old (line_end_removed self.old)))) }
        ensures err { OnErr result (self.new ≡ self.old) }
        ensures nothing { (is_editable self.old && removes_or self.old (has_line_after self.old)) ≡
            false → IsOk result }
    {
        if self.read_only() {
            return Ok(false);
        }
        let removed = self.delete_line_by_end_unguarded()?;
        self.settle(AtomicCursorBias::Forward);
        Ok(removed)
    }

    // The same, whether the text area is read only or not.
    fn delete_line_by_end_unguarded(&mut self) -> Result<bool, AllocError>
        ensures removed { IfOk result
            (λ removed. removed ≡ removes_or self.old (has_line_after self.old)) }
        ensures ok { OnOk result (self.new ≡ unselected_or self.old (line_end_removed self.old)) }
        ensures err { OnErr result (self.new ≡ self.old) }
        ensures nothing { removes_or self.old (has_line_after self.old) ≡ false → IsOk result }
    {
        if self.document.remove_selection(self.time)? {
            return Ok(true);
        }
        let cursor = self.document.cursor();
        let end = line_end(self.document.lines(), cursor.0);
        if cursor.1 == end.1 {
            return self.remove_after();
        }
        self.remove_and_yank(cursor, end)?;
        Ok(true)
    }

    /// Removes and yanks the text from the line's start to the cursor; at the line's start it does
    /// what `delete_newline` does. Returns whether text was removed.
    pub fn delete_line_by_head(&mut self) -> Result<bool, AllocError>
        ensures removed { IfOk result (λ removed. removed ≡ (is_editable self.old && removes_or
            self.old (has_line_before self.old))) }
        ensures ok { OnOk result (self.new ≡ unless_read_only self.old (settled Forward
            (unselected_or self.old (line_head_removed self.old)))) }
        ensures err { OnErr result (self.new ≡ self.old) }
        ensures nothing { (is_editable self.old && removes_or self.old (has_line_before self.old)) ≡
            false → IsOk result }
    {
        if self.read_only() {
            return Ok(false);
        }
        let removed = self.delete_line_by_head_unguarded()?;
        self.settle(AtomicCursorBias::Forward);
        Ok(removed)
    }

    // The same, whether the text area is read only or not.
    fn delete_line_by_head_unguarded(&mut self) -> Result<bool, AllocError>
        ensures removed { IfOk result
            (λ removed. removed ≡ removes_or self.old (has_line_before self.old)) }
        ensures ok { OnOk result (self.new ≡ unselected_or self.old (line_head_removed self.old)) }
        ensures err { OnErr result (self.new ≡ self.old) }
        ensures nothing { removes_or self.old (has_line_before self.old) ≡ false → IsOk result }
    {
        if self.document.remove_selection(self.time)? {
            return Ok(true);
        }
        let cursor = self.document.cursor();
        if cursor.1 == 0 {
            return self.document.remove_break(self.time);
        }
        self.remove_and_yank((cursor.0, 0), cursor)?;
        Ok(true)
    }

    /// Removes the atomic range that ends at the cursor or strictly contains it. Otherwise removes
    /// and yanks the text from the start of the word before the cursor, or from the line's start,
    /// to the cursor; at column 0 it does what `delete_newline` does. Returns whether text was
    /// removed.
    pub fn delete_word(&mut self) -> Result<bool, AllocError>
        ensures removed { IfOk result (λ removed. removed ≡ (is_editable self.old && removes_or
            self.old (has_word_before self.old))) }
        ensures ok { OnOk result (self.new ≡ unless_read_only self.old (settled Forward
            (unselected_or self.old (word_before_removed self.old)))) }
        ensures err { OnErr result (self.new ≡ self.old) }
        ensures nothing { (is_editable self.old && removes_or self.old (has_word_before self.old)) ≡
            false → IsOk result }
    {
        if self.read_only() {
            return Ok(false);
        }
        let removed = self.delete_word_unguarded()?;
        self.settle(AtomicCursorBias::Forward);
        Ok(removed)
    }

    // The same, whether the text area is read only or not.
    fn delete_word_unguarded(&mut self) -> Result<bool, AllocError>
        ensures removed { IfOk result
            (λ removed. removed ≡ removes_or self.old (has_word_before self.old)) }
        ensures ok { OnOk result
            (self.new ≡ unselected_or self.old (word_before_removed self.old)) }
        ensures err { OnErr result (self.new ≡ self.old) }
        ensures nothing { removes_or self.old (has_word_before self.old) ≡ false → IsOk result }
    {
        if self.document.remove_selection(self.time)? {
            return Ok(true);
        }
        let hit = self.remove_cursor_range(AtomicDeleteDirection::Backward)?;
        if hit {
            return Ok(true);
        }
        self.remove_to_word_start()
    }

    /// Removes the atomic range that starts at the cursor or strictly contains it. Otherwise
    /// removes and yanks the text from the cursor to the word's end, or to the line's end; at the
    /// line's end it does what `delete_next_char` does. Returns whether text was removed.
    pub fn delete_next_word(&mut self) -> Result<bool, AllocError>
        ensures removed { IfOk result (λ removed. removed ≡ (is_editable self.old && removes_or
            self.old (has_word_after self.old))) }
        ensures ok { OnOk result (self.new ≡ unless_read_only self.old (settled Forward
            (unselected_or self.old (word_after_removed self.old)))) }
        ensures err { OnErr result (self.new ≡ self.old) }
        ensures nothing { (is_editable self.old && removes_or self.old (has_word_after self.old)) ≡
            false → IsOk result }
    {
        if self.read_only() {
            return Ok(false);
        }
        let removed = self.delete_next_word_unguarded()?;
        self.settle(AtomicCursorBias::Forward);
        Ok(removed)
    }

    // The same, whether the text area is read only or not.
    fn delete_next_word_unguarded(&mut self) -> Result<bool, AllocError>
        ensures removed { IfOk result
            (λ removed. removed ≡ removes_or self.old (has_word_after self.old)) }
        ensures ok { OnOk result
            (self.new ≡ unselected_or self.old (word_after_removed self.old)) }
        ensures err { OnErr result (self.new ≡ self.old) }
        ensures nothing { removes_or self.old (has_word_after self.old) ≡ false → IsOk result }
    {
        if self.document.remove_selection(self.time)? {
            return Ok(true);
        }
        let hit = self.remove_cursor_range(AtomicDeleteDirection::Forward)?;
        if hit {
            return Ok(true);
        }
        self.remove_to_word_end()
    }

    /// Removes and yanks the whole text, as one edit, and returns whether there was any. An empty
    /// text area stays unchanged.
    pub fn clear(&mut self) -> Result<bool, AllocError>
        ensures removed { IfOk result (λ removed. removed ≡ (is_editable self.old && has_symbols
            self.old.document.text)) }
        ensures ok { OnOk result
            (self.new ≡ unless_read_only self.old (settled Forward (text_cleared self.old))) }
        ensures err { OnErr result (self.new ≡ self.old) }
        ensures nothing { (is_editable self.old && has_symbols self.old.document.text) ≡ false →
            IsOk result }
    {
        if self.read_only() {
            return Ok(false);
        }
        let removed = self.clear_unguarded()?;
        self.settle(AtomicCursorBias::Forward);
        Ok(removed)
    }

    // The same, whether the text area is read only or not.
    fn clear_unguarded(&mut self) -> Result<bool, AllocError>
        ensures removed { IfOk result (λ removed. removed ≡ has_symbols self.old.document.text) }
        ensures ok { OnOk result (self.new ≡ text_cleared self.old) }
        ensures err { OnErr result (self.new ≡ self.old) }
        ensures nothing { has_symbols self.old.document.text ≡ false → IsOk result }
    {
        if self.document.is_empty() {
            return Ok(false);
        }
        let end = text_end(self.document.lines());
        self.remove_and_yank((0, 0), end)?;
        Ok(true)
    }

    // Removes the character before the cursor, with all of the cluster and the range that have it if
    // the cursor goes by clusters; returns whether text was.
    fn remove_before(&mut self) -> Result<bool, AllocError>
        ensures removed { IfOk result (λ removed. removed ≡ has_before self.old) }
        ensures ok { OnOk result (self.new ≡ symbol_before_removed self.old) }
        ensures err { OnErr result (self.new ≡ self.old) }
        ensures nothing { has_before self.old ≡ false → IsOk result }
    {
        let Some(start) = self.earlier_start() else {
            return self
                .document
                .remove_before(self.settings.undo_coalescing, self.time);
        };
        self.document
            .remove(start, self.document.cursor(), self.time)?;
        Ok(true)
    }

    // The same for the character after the cursor.
    fn remove_after(&mut self) -> Result<bool, AllocError>
        ensures removed { IfOk result (λ removed. removed ≡ has_after self.old) }
        ensures ok { OnOk result (self.new ≡ symbol_after_removed self.old) }
        ensures err { OnErr result (self.new ≡ self.old) }
        ensures nothing { has_after self.old ≡ false → IsOk result }
    {
        let Some(stop) = self.later_end() else {
            return self
                .document
                .remove_after(self.settings.undo_coalescing, self.time);
        };
        self.document
            .remove(self.document.cursor(), stop, self.time)?;
        Ok(true)
    }

    // Removes the atomic range at the cursor, with the clusters that it shares; returns whether there
    // was one.
    fn remove_cursor_range(&mut self, direction: AtomicDeleteDirection) -> Result<bool, AllocError>
        ensures removed { IfOk result
            (λ removed. removed ≡ is_some (range_at_cursor self.old.document direction)) }
        ensures ok { OnOk result (self.new
            ≡ cursor_range_removed_or (range_at_cursor self.old.document direction) self.old
            self.old) }
        ensures err { OnErr result (self.new ≡ self.old) }
        ensures nothing { range_at_cursor self.old.document direction ≡ None → IsOk result }
    {
        let Some(range) = self.document.range_at_cursor(direction) else {
            return Ok(false);
        };
        self.remove_range(range)?;
        Ok(true)
    }

    // Removes an atomic range of the text, with the clusters that it shares.
    pub(super) fn remove_range(&mut self, range: AtomicRange) -> Result<(), AllocError>
        requires start { IsPlace self.old.document.text (range_start range) }
        requires stop { IsPlace self.old.document.text (range_end range) }
        requires ordered { index_of self.old.document.text (range_start range)
            < index_of self.old.document.text (range_end range) }
        ensures ok { OnOk result (self.new ≡ cursor_range_removed_or (Some range) self.old self.old) }
        ensures err { OnErr result (self.new ≡ self.old) }
    {
        let start = self.whole_start((range.row, range.start_col));
        let stop = self.whole_end((range.row, range.end_col));
        self.document.remove(start, stop, self.time)
    }

    // Returns where the next `count` symbols end, or all if there are fewer; `None` without any.
    fn place_ahead(&self, count: usize) -> Option<(usize, usize)>
        ensures found { MatchOption result (has_ahead self.now count ≡ false)
            (λ end. has_ahead self.now count ≡ true) }
        ensures end { IfSome result
            (λ end. end ≡ place_of self.now.document.text (index_ahead self.now.document count)) }
        ensures place { IfSome result (IsPlace self.now.document.text) }
        ensures ordered { IfSome result
            (λ end. index_of self.now.document.text self.now.document.cursor
            < index_of self.now.document.text end) }
    {
        let (row, column) = self.document.cursor();
        let (end_row, end_column) = ahead(self.document.lines(), (row, column), count);
        if end_row == row && end_column == column {
            None
        } else {
            Some((end_row, end_column))
        }
    }

    // Removes back to the word's start, or the break before the line; returns whether text was.
    #[tactic(auto, unfolding(crate::specs::Removals::back_to_word_removed))]
    fn remove_to_word_start(&mut self) -> Result<bool, AllocError>
        ensures removed { IfOk result (λ removed. removed ≡ has_line_before self.old) }
        ensures ok { OnOk result (self.new ≡ back_to_word_removed self.old) }
        ensures err { OnErr result (self.new ≡ self.old) }
        ensures nothing { has_line_before self.old ≡ false → IsOk result }
    {
        let cursor = self.document.cursor();
        if cursor.1 == 0 {
            return self.document.remove_break(self.time);
        }
        let start = word_start_before(self.document.lines()[cursor.0].as_str(), cursor.1);
        let whole = self.whole_start((cursor.0, start));
        self.remove_and_yank(whole, cursor)?;
        Ok(true)
    }

    // Removes up to the word's end, or the symbol after the line; returns whether text was.
    #[tactic(auto, unfolding(crate::specs::Removals::on_to_word_end_removed))]
    fn remove_to_word_end(&mut self) -> Result<bool, AllocError>
        ensures removed { IfOk result (λ removed. removed ≡ has_line_after self.old) }
        ensures ok { OnOk result (self.new ≡ on_to_word_end_removed self.old) }
        ensures err { OnErr result (self.new ≡ self.old) }
        ensures nothing { has_line_after self.old ≡ false → IsOk result }
    {
        let cursor = self.document.cursor();
        let line = self.document.lines()[cursor.0].as_str();
        if cursor.1 == line_end(self.document.lines(), cursor.0).1 {
            return self.remove_after();
        }
        let end = word_end_after(line, cursor.1);
        let whole = self.whole_end((cursor.0, end));
        self.remove_and_yank(cursor, whole)?;
        Ok(true)
    }

    // Removes and yanks the text between two positions, with the atomic ranges that it overlaps.
    #[tactic(auto, unfolding(crate::specs::Removals::yanked))]
    fn remove_and_yank(
        &mut self,
        from: (usize, usize),
        to: (usize, usize),
    ) -> Result<(), AllocError>
        requires from { IsPlace self.old.document.text from }
        requires to { IsPlace self.old.document.text to }
        requires ordered { index_of self.old.document.text from
            < index_of self.old.document.text to }
        ensures ok { OnOk result (self.new ≡ yanked self.old from to) }
        ensures err { OnErr result (self.new ≡ self.old) }
    {
        self.yank = self.document.take(from, to, self.time)?;
        Ok(())
    }
}
