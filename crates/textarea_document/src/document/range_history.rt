//! The atomic ranges that are remembered for undo and redo: those before each of the newest edits.
ghost use Rattle.std.specs.Prelude.{◌≡◌, ◌≤◌, IfOk, IfSome, drop, map, slice_get};
ghost use Rattle.std.specs.VecDeque.{deque_capacity, deque_len};
ghost use Rattle.textarea_document.specs.Prelude.{as_nanos, IsWellFormed, no_past_ranges, past_ranges_set, ranges_before_newest, ranges_before_next, ranges_to_remember, undo_ranges_set, with_newest};
ghost use Rattle.textarea_document.specs.RangeHistory.{HasRoomForRanges, past_of, ranges_of};

use crate::document::Document;
use std::alloc::{AllocError, Global};
use std::collections::VecDeque;
use std::time::Duration;
use textarea_data::range::AtomicRange;
use textarea_history::edit::Edit;
use textarea_history::history::History;

/// Whether ranges are remembered, and the ranges before each of the newest edits of a history, done
/// or undone, the newest edit first.
#[derive(Drop)]
pub(crate) struct RangeHistory {
    on: bool,
    before: VecDeque<Vec<AtomicRange>>,
}

impl RangeHistory {
    /// Returns a list that remembers ranges or not, and has none yet.
    pub(crate) fn new(alloc: Global, on: bool) -> RangeHistory
        ensures { past_of result ≡ no_past_ranges on }
    {
        RangeHistory {
            on,
            before: VecDeque::new(alloc),
        }
    }

    /// Returns whether ranges are remembered.
    pub(crate) fn is_on(&self) -> bool
        ensures { result ≡ (past_of self.now).on }
    {
        self.on
    }

    /// Sets whether ranges are remembered from now on; if not, forgets all.
    pub(crate) fn set_on(&mut self, on: bool)
        ensures { past_of self.new ≡ past_ranges_set (past_of self.old) on }
    {
        if !on {
            self.before.clear();
        }
        self.on = on;
    }

    /// Forgets all ranges.
    pub(crate) fn forget(&mut self)
        ensures { past_of self.new ≡ no_past_ranges (past_of self.old).on }
    {
        self.before.clear();
    }

    /// Returns a copy.
    pub(crate) fn copied(&self) -> Result<RangeHistory, AllocError>
        ensures { IfOk result (λ copy. past_of copy ≡ past_of self.now) }
    {
        Ok(RangeHistory {
            on: self.on,
            before: self.before.clone()?,
        })
    }

    /// Returns a copy of the ranges, if they are to be remembered before this edit, and reserves room
    /// for it.
    pub(crate) fn prepare(
        &mut self,
        ranges: &Vec<AtomicRange>,
        history: &History,
        edit: &Edit,
        typed: bool,
        now: Duration,
    ) -> Result<Option<Vec<AtomicRange>>, AllocError>
        requires { IsWellFormed edit.now }
        ensures same { past_of self.new ≡ past_of self.old }
        ensures kept { IfOk result (λ kept. ranges_of kept ≡ ranges_to_remember (past_of self.old)
            ranges.now.items history.now.log edit.now.splice typed (as_nanos now)) }
        ensures room { IfOk result (λ kept. IfSome kept (λ _. HasRoomForRanges self.new)) }
    {
        if !self.on || history.joins(edit, typed, now) {
            return Ok(None);
        }
        self.before.reserve(1)?;
        Ok(Some(ranges.clone()?))
    }

    /// Remembers what was prepared: the lists of the undone edits, `undone` in number, are dropped,
    /// and at most `done` lists stay.
    pub(crate) fn remember(&mut self, kept: Option<Vec<AtomicRange>>, undone: usize, done: usize)
        requires { IfSome kept (λ _. HasRoomForRanges self.old) }
        ensures { past_of self.new ≡ with_newest (past_of self.old) (ranges_of kept) undone done }
    {
        if let Some(ranges) = kept {
            drop_newest(&mut self.before, undone);
            self.before.push_front_reserved(ranges);
            self.before.truncate(done);
        }
    }

    /// Returns a copy of the ranges before the newest done edit, if they are remembered.
    pub(crate) fn before_newest(
        &self,
        history: &History,
    ) -> Result<Option<Vec<AtomicRange>>, AllocError>
        ensures { IfOk result (λ ranges.
            ranges_of ranges ≡ ranges_before_newest (past_of self.now) history.now.log) }
    {
        copy_at(&self.before, history.undone_len())
    }

    /// Returns a copy of the ranges before the edit that was undone last, if they are remembered.
    pub(crate) fn before_next(
        &self,
        history: &History,
    ) -> Result<Option<Vec<AtomicRange>>, AllocError>
        ensures { IfOk result (λ ranges.
            ranges_of ranges ≡ ranges_before_next (past_of self.now) history.now.log) }
    {
        copy_at(&self.before, history.undone_len().saturating_sub(1))
    }
}

// Returns a copy of the list at the index, if there is one.
fn copy_at(
    before: &VecDeque<Vec<AtomicRange>>,
    index: usize,
) -> Result<Option<Vec<AtomicRange>>, AllocError>
    ensures { IfOk result (λ ranges. ranges_of ranges
        ≡ slice_get (map (λ ranges. ranges.items) before.now.items) index) }
{
    let Some(ranges) = before.get(index) else {
        return Ok(None);
    };
    Ok(Some(ranges.clone()?))
}

fn drop_newest(before: &mut VecDeque<Vec<AtomicRange>>, count: usize)
    ensures items { before.new.items ≡ drop count before.old.items }
    ensures capacity { deque_capacity before.new ≡ deque_capacity before.old }
    ensures fewer { deque_len before.new ≤ deque_len before.old }
{
    for _ in 0..count {
        before.pop_front();
    }
}

impl Document {
    /// Returns whether ranges are remembered for undo and redo.
    pub fn undo_ranges(&self) -> bool
        ensures { result ≡ self.now.past_ranges.on }
    {
        self.range_history.is_on()
    }

    /// Sets whether ranges are remembered from now on. An undo of an edit since then leaves exactly
    /// the ranges that were there before the edit, and a redo those after it, unless ranges were set
    /// or cleared in between. Each list of ranges takes memory, and each such edit a copy.
    pub fn set_undo_ranges(&mut self, on: bool)
        ensures { self.new ≡ undo_ranges_set self.old on }
    {
        self.range_history.set_on(on);
    }
}
