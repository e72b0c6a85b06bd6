//! Removals from a document.
ghost use Rattle.std.specs.Prelude.{◌≡◌, ◌<◌, OnOk, OnErr, IsOk, IfOk, IfSome, not, true, false, ◌==◌, None};
ghost use Rattle.std.specs.Arc.{arc_value};
ghost use Rattle.textarea_document.specs.Prelude.{as_nanos, text_of, IsPlace, index_of, symbols_between, Backward, Forward, TakesWhole, widened, range_at_cursor, range_before, range_after, cursor_range_removed, is_at_end, is_at_start, removal, removed_symbols, removed_before, removed_after, break_removed, between_removed, symbol_removed_before, symbol_removed_after, after_edit};

use crate::document::Document;
use crate::document::edits::edit_of;
use std::alloc::AllocError;
use std::sync::Arc;
use std::time::Duration;
use textarea_data::range::{AtomicDeleteDirection, AtomicRange};
use textarea_history::edit::{Edit, EditKind, deletion_of};
use textarea_ranges::lookup;
use textarea_text::places::line_end;
use textarea_text::rows;
use textarea_text::text_slice::between;

impl Document {
    /// Removes the text between two positions, and each range that it overlaps.
    #[tactic(auto, unfolding(crate::specs::Edits::between_removed))]
    pub fn remove(
        &mut self,
        from: (usize, usize),
        to: (usize, usize),
        now: Duration,
    ) -> Result<(), AllocError>
        requires from { IsPlace self.old.text from }
        requires to { IsPlace self.old.text to }
        requires ordered { index_of self.old.text from < index_of self.old.text to }
        ensures ok { OnOk result (self.new ≡ between_removed self.old from to (as_nanos now)) }
        ensures err { OnErr result (self.new ≡ self.old) }
    {
        let (start, end) = self.widen(from, to);
        let removed = between(self.allocator(), self.lines(), start, end)?;
        self.remove_whole(Arc::new(self.allocator(), removed)?, start, end, now)
    }

    /// Removes the text between two positions, and each range that it overlaps, and returns it as a
    /// fragment, with a line break between each two of its strings. The history shares it.
    #[tactic(auto, unfolding(crate::specs::Edits::between_removed))]
    pub fn take(
        &mut self,
        from: (usize, usize),
        to: (usize, usize),
        now: Duration,
    ) -> Result<Arc<Vec<String>>, AllocError>
        requires from { IsPlace self.old.text from }
        requires to { IsPlace self.old.text to }
        requires ordered { index_of self.old.text from < index_of self.old.text to }
        ensures removed_symbols { IfOk result (λ fragment_lines.
            text_of (arc_value fragment_lines).items ≡ removed_symbols self.old from to) }
        ensures ok { OnOk result (self.new ≡ between_removed self.old from to (as_nanos now)) }
        ensures err { OnErr result (self.new ≡ self.old) }
    {
        let (start, end) = self.widen(from, to);
        let removed = between(self.allocator(), self.lines(), start, end)?;
        let fragment_lines = Arc::new(self.allocator(), removed)?;
        self.remove_whole(fragment_lines.clone()?, start, end, now)?;
        Ok(fragment_lines)
    }

    // Removes this fragment, which is between two positions of the text. It covers each range
    // completely or not at all.
    fn remove_whole(
        &mut self,
        fragment_lines: Arc<Vec<String>>,
        from: (usize, usize),
        to: (usize, usize),
        now: Duration,
    ) -> Result<(), AllocError>
        requires from { IsPlace self.old.text from }
        requires to { IsPlace self.old.text to }
        requires ordered { index_of self.old.text from < index_of self.old.text to }
        requires fragment_lines { text_of (arc_value fragment_lines).items
            ≡ symbols_between self.old.text from to }
        requires whole { TakesWhole self.old.ranges from to }
        ensures ok { OnOk result (self.new
            ≡ after_edit self.old (removal self.old.text from to) false (as_nanos now)) }
        ensures err { OnErr result (self.new ≡ self.old) }
    {
        self.edit(edit_of(fragment_lines, false, from, to)?, false, now)
    }

    // Returns the two ends of a removal, widened over each range that it overlaps.
    fn widen(&self, from: (usize, usize), to: (usize, usize)) -> ((usize, usize), (usize, usize))
        requires from { IsPlace self.now.text from }
        requires to { IsPlace self.now.text to }
        requires ordered { index_of self.now.text from < index_of self.now.text to }
        ensures value { result ≡ widened self.now.ranges from to }
        ensures start { IsPlace self.now.text result.0 }
        ensures end { IsPlace self.now.text result.1 }
        ensures ordered { index_of self.now.text result.0 < index_of self.now.text result.1 }
        ensures whole { TakesWhole self.now.ranges result.0 result.1 }
    {
        let stored = self.ranges();
        lookup::widen(stored, from, to)
    }

    /// Removes the atomic range at the cursor in this direction, and returns it; nothing is
    /// selected then. Without such a range returns `None`, and nothing changes.
    pub fn remove_cursor_range(
        &mut self,
        direction: AtomicDeleteDirection,
        now: Duration,
    ) -> Result<Option<AtomicRange>, AllocError>
        ensures removed { IfOk result (λ range. range ≡ range_at_cursor self.old direction) }
        ensures ok { OnOk result
            (self.new ≡ cursor_range_removed self.old direction (as_nanos now)) }
        ensures err { OnErr result (self.new ≡ self.old) }
        ensures nothing { range_at_cursor self.old direction ≡ None → IsOk result }
        ensures before { direction ≡ Backward →
            IfOk result (λ range. IfSome range (λ _. is_at_start self.old ≡ false)) }
        ensures after { direction ≡ Forward →
            IfOk result (λ range. IfSome range (λ _. is_at_end self.old ≡ false)) }
        ensures start { direction ≡ Backward → is_at_start self.old ≡ true → IsOk result }
        ensures end { direction ≡ Forward → is_at_end self.old ≡ true → IsOk result }
    {
        let Some(range) = self.range_at_cursor(direction) else {
            return Ok(None);
        };
        let start = (range.row, range.start_col);
        self.remove(start, (range.row, range.end_col), now)?;
        Ok(Some(range))
    }

    /// Removes the atomic range at the cursor, backward, or else the character before the cursor,
    /// or at column 0 the line break there, as typed or not. Returns whether there was one.
    #[tactic(auto, unfolding(crate::specs::Edits::removed_before))]
    pub fn remove_before(&mut self, typed: bool, now: Duration) -> Result<bool, AllocError>
        ensures removed { IfOk result (λ removed. removed ≡ not (is_at_start self.old)) }
        ensures ok { OnOk result (self.new ≡ removed_before self.old typed (as_nanos now)) }
        ensures err { OnErr result (self.new ≡ self.old) }
        ensures nothing { is_at_start self.old ≡ true → IsOk result }
    {
        match self.remove_cursor_range(AtomicDeleteDirection::Backward, now)? {
            Some(_) => Ok(true),
            None => self.remove_symbol_before(typed, now),
        }
    }

    /// Removes the atomic range at the cursor, forward, or else the character after the cursor, or
    /// at a line's end the line break there, as typed or not. Returns whether there was one.
    #[tactic(auto, unfolding(crate::specs::Edits::removed_after))]
    pub fn remove_after(&mut self, typed: bool, now: Duration) -> Result<bool, AllocError>
        ensures removed { IfOk result (λ removed. removed ≡ not (is_at_end self.old)) }
        ensures ok { OnOk result (self.new ≡ removed_after self.old typed (as_nanos now)) }
        ensures err { OnErr result (self.new ≡ self.old) }
        ensures nothing { is_at_end self.old ≡ true → IsOk result }
    {
        match self.remove_cursor_range(AtomicDeleteDirection::Forward, now)? {
            Some(_) => Ok(true),
            None => self.remove_symbol_after(typed, now),
        }
    }

    // Removes the character before the cursor, or at column 0 the line break there, as typed or
    // not. Returns whether there was one.
    fn remove_symbol_before(&mut self, typed: bool, now: Duration) -> Result<bool, AllocError>
        requires none_at_place { range_before self.old ≡ None }
        ensures removed { IfOk result (λ removed. removed ≡ not (is_at_start self.old)) }
        ensures ok { OnOk result (self.new ≡ symbol_removed_before self.old typed (as_nanos now)) }
        ensures err { OnErr result (self.new ≡ self.old) }
        ensures nothing { is_at_start self.old ≡ true → IsOk result }
    {
        let cursor = self.cursor();
        let offset = self.text_layout.offset_of(cursor);
        let Some(before) = rows::symbol_before(self.lines(), cursor, offset) else {
            self.set_anchor(None);
            return Ok(false);
        };
        let kind = deletion_of(before.character);
        self.edit(Edit::between(kind, cursor, before.start), typed, now)?;
        Ok(true)
    }

    // Removes the character after the cursor, or at a line's end the line break there, as typed or
    // not. Returns whether there was one.
    fn remove_symbol_after(&mut self, typed: bool, now: Duration) -> Result<bool, AllocError>
        requires none_at_place { range_after self.old ≡ None }
        ensures removed { IfOk result (λ removed. removed ≡ not (is_at_end self.old)) }
        ensures ok { OnOk result (self.new ≡ symbol_removed_after self.old typed (as_nanos now)) }
        ensures err { OnErr result (self.new ≡ self.old) }
        ensures nothing { is_at_end self.old ≡ true → IsOk result }
    {
        let cursor = self.cursor();
        let Some(after) = self.symbol_after_cursor() else {
            self.set_anchor(None);
            return Ok(false);
        };
        let kind = deletion_of(after.character);
        self.edit(Edit::between(kind, after.end, cursor), typed, now)?;
        Ok(true)
    }

    /// Removes the line break before the cursor's line. Returns whether there was one.
    pub fn remove_break(&mut self, now: Duration) -> Result<bool, AllocError>
        ensures removed { IfOk result (λ removed. removed ≡ not (self.old.cursor.0 == 0)) }
        ensures ok { OnOk result (self.new ≡ break_removed self.old (as_nanos now)) }
        ensures err { OnErr result (self.new ≡ self.old) }
        ensures nothing { self.old.cursor.0 ≡ 0 → IsOk result }
    {
        let (row, _) = self.cursor();
        if row == 0 {
            self.set_anchor(None);
            return Ok(false);
        }
        let start = line_end(self.lines(), row - 1);
        let edit = Edit::between(EditKind::DeleteNewline, (row, 0), start);
        self.edit(edit, false, now)?;
        Ok(true)
    }
}
