//! Atomic ranges: spans of characters in a line that are edited as a whole.
ghost use Rattle.std.specs.Prelude.{◌≡◌, IfOk, IsOk, MatchResult, None, OnErr, OnOk, is_some};
ghost use Rattle.textarea_data.specs.declared.range.AtomicCursorBias.TheVariants.{Forward};
ghost use Rattle.tui_textarea.specs.Prelude.{lines, range_around, AreInOrder, AreRejected, AreValid, range_at_cursor, cursor_normalized, atomic_range_removed, ranges_accepted, ranges_cleared, removable_range, settled, undo_ranges_set, unless_read_only, with_document};

use crate::textarea::TextArea;
use std::alloc::AllocError;
use textarea_data::range::{
    AtomicCursorBias, AtomicDeleteDirection, AtomicRange, AtomicRangeError,
};

impl TextArea<'_> {
    /// Replaces the atomic ranges; they are sorted by row and start. Each has at least one
    /// character, within one line, and no two share a character. A cursor strictly inside a range
    /// moves to its end, a selection's beginning to its start, and a selection that is empty after
    /// that is dropped. Ranges move with the text at each edit, undo and redo: a removal drops
    /// those that it removes, an undo or redo also those that it splits, unless ranges are
    /// remembered (`set_undo_ranges`). None are remembered from before.
    pub fn set_atomic_ranges(&mut self, ranges: Vec<AtomicRange>) -> Result<(), AllocError>
        requires valid { AreValid (lines self.old.document.text) ranges.items }
        ensures ok { OnOk result
            (self.new ≡ settled Forward (ranges_accepted self.old ranges.items)) }
        ensures err { OnErr result (self.new ≡ self.old) }
    {
        match self.document.try_set_ranges(ranges)? {
            Ok(()) => {
                self.settle(AtomicCursorBias::Forward);
                Ok(())
            }
            // Valid ranges are not rejected.
            Err(_) => unreachable!(),
        }
    }

    /// Replaces the atomic ranges as `set_atomic_ranges` does, if they are valid for the text.
    /// Otherwise changes nothing, and returns the rejected ones, sorted by row and start, each with
    /// the first reason that applies: it is empty, its row does not exist, its columns do not
    /// exist, or it starts before the end of the last valid range of its row.
    pub fn try_set_atomic_ranges(
        &mut self,
        ranges: Vec<AtomicRange>,
    ) -> Result<Result<(), AtomicRangeError>, AllocError>
        ensures judged { IfOk result (λ outcome. MatchResult outcome
            (λ _. AreValid (lines self.old.document.text) ranges.items)
            (λ error. AreRejected (lines self.old.document.text) ranges.items
            error.rejected.items)) }
        ensures set { IfOk result
            (λ outcome. OnOk outcome
            (self.new ≡ settled Forward (ranges_accepted self.old ranges.items))) }
        ensures unchanged_if_rejected { IfOk result (λ outcome. OnErr outcome (self.new ≡ self.old)) }
        ensures err { OnErr result (self.new ≡ self.old) }
    {
        match self.document.try_set_ranges(ranges)? {
            Ok(()) => {
                self.settle(AtomicCursorBias::Forward);
                Ok(Ok(()))
            }
            Err(error) => Ok(Err(error)),
        }
    }

    /// Drops all atomic ranges, and those that are remembered for undo and redo.
    pub fn clear_atomic_ranges(&mut self)
        ensures { self.new ≡ ranges_cleared self.old }
    {
        self.document.clear_ranges();
    }

    /// Returns the atomic ranges, sorted by row and start. A copy of them can be set again.
    pub fn atomic_ranges(&self) -> &[AtomicRange]
        ensures value { result.now ≡ self.now.document.ranges }
        ensures valid { AreValid (lines self.now.document.text) result.now }
        ensures in_order { AreInOrder result.now }
    {
        self.document.ranges()
    }

    /// Sets whether atomic ranges are remembered for undo and redo. Then an undo of an edit, or of a
    /// group of edits, leaves exactly the ranges that were there before it, and a redo those after it:
    /// a range that was removed is there again. Where ranges were set or cleared since the edit, or
    /// this was off, they move with the text instead. Each edit that joins no other takes a copy of
    /// the ranges. Off at first.
    pub fn set_undo_ranges(&mut self, undo_ranges: bool)
        ensures { self.new
            ≡ with_document self.old (undo_ranges_set self.old.document undo_ranges) }
    {
        self.document.set_undo_ranges(undo_ranges);
    }

    /// Returns whether atomic ranges are remembered for undo and redo.
    pub fn undo_ranges(&self) -> bool
        ensures { result ≡ self.now.document.past_ranges.on }
    {
        self.document.undo_ranges()
    }

    /// Moves a cursor strictly inside an atomic range to its start for Backward, to its end for
    /// Forward, and returns whether it moved. The selection stays, and a run of typing continues.
    pub fn normalize_cursor_around_atomic_ranges(&mut self, bias: AtomicCursorBias) -> bool
        ensures moved { result
            ≡ is_some (range_around self.old.document.ranges self.old.document.cursor) }
        ensures new { self.new ≡ settled bias (cursor_normalized self.old bias) }
    {
        let moved = self.document.normalize_cursor(bias);
        self.settle(bias);
        moved
    }

    /// Returns the atomic range at the cursor: for Backward one that starts before the cursor and
    /// ends at or after it, for Forward one that starts at or before the cursor and ends after it.
    pub fn atomic_range_at_cursor(&self, direction: AtomicDeleteDirection) -> Option<AtomicRange>
        ensures { result ≡ range_at_cursor self.now.document direction }
    {
        self.document.range_at_cursor(direction)
    }

    /// Removes the atomic range at the cursor and returns it; yanks nothing. The selection stays
    /// open; if its beginning is past its line's end after that, it moves to that end. Without a
    /// range at the cursor nothing changes.
    pub fn delete_atomic_range_at_cursor(
        &mut self,
        direction: AtomicDeleteDirection,
    ) -> Result<Option<AtomicRange>, AllocError>
        ensures removed { IfOk result (λ range. range ≡ removable_range self.old direction) }
        ensures ok { OnOk result
            (self.new ≡ unless_read_only self.old
            (settled Forward (atomic_range_removed self.old direction))) }
        ensures err { OnErr result (self.new ≡ self.old) }
        ensures nothing { removable_range self.old direction ≡ None → IsOk result }
    {
        if self.read_only() {
            return Ok(None);
        }
        let removed = self.delete_atomic_range_at_cursor_unguarded(direction)?;
        self.settle(AtomicCursorBias::Forward);
        Ok(removed)
    }

    // The same, whether the text area is read only or not.
    fn delete_atomic_range_at_cursor_unguarded(
        &mut self,
        direction: AtomicDeleteDirection,
    ) -> Result<Option<AtomicRange>, AllocError>
        ensures removed { IfOk result
            (λ range. range ≡ range_at_cursor self.old.document direction) }
        ensures ok { OnOk result (self.new ≡ atomic_range_removed self.old direction) }
        ensures err { OnErr result (self.new ≡ self.old) }
        ensures nothing { range_at_cursor self.old.document direction ≡ None → IsOk result }
    {
        let anchor = self.document.anchor();
        let Some(range) = self.document.range_at_cursor(direction) else {
            return Ok(None);
        };
        self.remove_range(range)?;
        self.document.set_clipped_anchor(anchor);
        Ok(Some(range))
    }
}
