//! Atomic ranges: spans of characters in a line that are edited as a whole.
ghost use Rattle.std.specs.Prelude.{◌≡◌, ◌<◌, IfOk, IfSome, IsOk, MatchResult, None, OnErr, OnOk, false, is_some};
ghost use Rattle.textarea_document.specs.Prelude.{as_nanos, lines, IsPlace, index_of, range_around, range_start, range_end, AreApart, AreInOrder, AreRejected, AreValid, Backward, Forward, range_at_cursor, is_at_end, is_at_start, accepted, anchor_out, anchored, with_ranges, normalized, unless_empty, range_removed, ranges_forgotten};

use crate::document::Document;
use std::alloc::AllocError;
use std::time::Duration;
use textarea_data::range::{
    AtomicCursorBias, AtomicDeleteDirection, AtomicRange, AtomicRangeError,
};
use textarea_ranges::lookup;
use textarea_ranges::validate::validate;
use textarea_text::places::clip;

impl Document {
    /// Returns the atomic ranges, sorted by row and start: each has at least one character, within
    /// one line, and no two share one.
    pub fn ranges(&self) -> &[AtomicRange]
        ensures value { result.now ≡ self.now.ranges }
        ensures valid { AreValid (lines self.now.text) result.now }
        ensures in_order { AreInOrder result.now }
        ensures apart { AreApart result.now }
    {
        self.ranges.as_slice()
    }

    /// Replaces the atomic ranges if they are valid for the text; otherwise returns the rejected
    /// ones, and changes nothing. A cursor strictly inside a range moves to its end, a selection's
    /// beginning to its start, and a selection that is empty after that is dropped. No ranges are
    /// remembered from before.
    pub fn try_set_ranges(
        &mut self,
        ranges: Vec<AtomicRange>,
    ) -> Result<Result<(), AtomicRangeError>, AllocError>
        ensures judged { IfOk result (λ outcome. MatchResult outcome
            (λ _. AreValid (lines self.old.text) ranges.items)
            (λ error. AreRejected (lines self.old.text) ranges.items error.rejected.items)) }
        ensures set { IfOk result (λ outcome.
            OnOk outcome (self.new ≡ accepted self.old ranges.items)) }
        ensures unchanged_if_rejected { IfOk result (λ outcome. OnErr outcome (self.new ≡ self.old)) }
        ensures err { OnErr result (self.new ≡ self.old) }
    {
        match validate(self.allocator(), ranges, self.lines())? {
            Ok(stored) => {
                self.store_ranges(stored);
                Ok(Ok(()))
            }
            Err(error) => Ok(Err(error)),
        }
    }

    // Replaces the atomic ranges by these, which are sorted.
    fn store_ranges(&mut self, ranges: Vec<AtomicRange>)
        requires valid { AreValid (lines self.old.text) ranges.items }
        requires in_order { AreInOrder ranges.items }
        ensures { self.new ≡ with_ranges self.old ranges.items }
    {
        let stored = ranges.as_slice();
        let cursor = lookup::move_out(stored, self.cursor, AtomicCursorBias::Forward);
        let anchor = anchor_out(stored, self.anchor);
        self.cursor = cursor;
        self.anchor = unless_empty(anchor, cursor);
        self.ranges = ranges;
        self.range_history.forget();
    }

    /// Drops all atomic ranges, and those that are remembered; all else stays.
    pub fn clear_ranges(&mut self)
        ensures { self.new ≡ ranges_forgotten self.old }
    {
        self.ranges.clear();
        self.range_history.forget();
    }

    /// Moves a cursor strictly inside an atomic range to its start for Backward, to its end for
    /// Forward, and returns whether it was inside one. The selection and a run of typing stay.
    pub fn normalize_cursor(&mut self, bias: AtomicCursorBias) -> bool
        ensures moved { result ≡ is_some (range_around self.old.ranges self.old.cursor) }
        ensures new { self.new ≡ normalized self.old bias }
    {
        let found = lookup::range_around(self.ranges(), self.cursor).is_some();
        self.cursor = lookup::move_out(self.ranges(), self.cursor, bias);
        found
    }

    /// Returns the atomic range at the cursor in this direction. Its two ends are positions of the
    /// text, the first one first; backward it starts before the cursor, forward it ends after it.
    pub fn range_at_cursor(&self, direction: AtomicDeleteDirection) -> Option<AtomicRange>
        ensures value { result ≡ range_at_cursor self.now direction }
        ensures start { IfSome result (λ range. IsPlace self.now.text (range_start range)) }
        ensures end { IfSome result (λ range. IsPlace self.now.text (range_end range)) }
        ensures ordered { IfSome result (λ range.
            index_of self.now.text (range_start range) < index_of self.now.text (range_end range)) }
        ensures before { direction ≡ Backward → IfSome result (λ _. is_at_start self.now ≡ false) }
        ensures after { direction ≡ Forward → IfSome result (λ _. is_at_end self.now ≡ false) }
    {
        let stored = self.ranges();
        lookup::range_at_place(stored, self.cursor(), direction)
    }

    /// Removes the atomic range at the cursor in this direction, and returns it. The selection
    /// stays open; if its beginning is past the end of its shorter line then, it moves to that end.
    /// Without such a range returns `None`, and nothing changes.
    pub fn remove_range_at_cursor(
        &mut self,
        direction: AtomicDeleteDirection,
        now: Duration,
    ) -> Result<Option<AtomicRange>, AllocError>
        ensures removed { IfOk result (λ range. range ≡ range_at_cursor self.old direction) }
        ensures ok { OnOk result (self.new
            ≡ range_removed (range_at_cursor self.old direction) self.old (as_nanos now)) }
        ensures err { OnErr result (self.new ≡ self.old) }
        ensures nothing { range_at_cursor self.old direction ≡ None → IsOk result }
    {
        let anchor = self.anchor();
        let Some(range) = self.remove_cursor_range(direction, now)? else {
            return Ok(None);
        };
        self.set_clipped_anchor(anchor);
        Ok(Some(range))
    }

    /// Sets the selection's beginning to the nearest position of the text.
    pub fn set_clipped_anchor(&mut self, anchor: Option<(usize, usize)>)
        ensures { self.new ≡ anchored self.old anchor }
    {
        self.anchor = anchor.map(|place| clip(self.lines(), place));
    }
}

// Returns the selection's beginning; if it is strictly inside a range, that range's start.
fn anchor_out(ranges: &[AtomicRange], anchor: Option<(usize, usize)>) -> Option<(usize, usize)>
    requires { AreApart ranges.now }
    ensures { result ≡ anchor_out ranges.now anchor }
{
    Some(lookup::move_out(ranges, anchor?, AtomicCursorBias::Backward))
}

// Returns the selection's beginning, or `None` if it is the cursor.
fn unless_empty(anchor: Option<(usize, usize)>, cursor: (usize, usize)) -> Option<(usize, usize)>
    ensures { result ≡ unless_empty anchor cursor }
{
    match anchor {
        Some(place) if place.0 == cursor.0 && place.1 == cursor.1 => None,
        other => other,
    }
}
