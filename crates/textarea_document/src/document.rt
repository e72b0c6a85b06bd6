//! The document: lines, a cursor, an anchor, atomic ranges and a history.
mod changes;
mod draft;
mod edits;
mod groups;
mod indenting;
pub mod insertions;
mod laws;
mod moving;
mod next_symbol;
mod range_history;
mod ranges;
mod removals;
mod replacing;
mod rows;
mod selection;
mod target;
mod undo;

ghost use Rattle.std.specs.Prelude.{◌≡◌, ◌<◌, ◌≤◌, ◌+◌, ◌↔◌, length, OnOk, OnErr, IsOk, IfOk, IfSome, None, IsTrue, is_some, [], vec_len};
ghost use Rattle.textarea_document.specs.ChangeLog.{changes_of};
ghost use Rattle.textarea_document.specs.Prelude.{history_forgotten, as_nanos, size_limit, lines, lines_of, text_of, IsPlace, size_of, Fits, place_after, IsWellFormed, newest, next, lines_numbered, new_document, lines_replaced, after_edit, after_move, after_redo, run_ended, after_undo, applied_to, moved_ranges, with_splice, AreInOrder, AreValid, SplitsNoRange};

use crate::document::changes::ChangeLog;
use crate::document::range_history::RangeHistory;
use std::alloc::{AllocError, Global};
use std::marker::Model;
use std::time::Duration;
use textarea_data::range::AtomicRange;
use textarea_history::edit::{Change, Edit};
use textarea_history::history::History;
use textarea_lines::settings::LayoutSettings;
use textarea_lines::text_layout::TextLayout;
use textarea_ranges::moved::move_ranges;
use textarea_text::places::clip;

/// Lines of text with a cursor, an anchor of a selection, atomic ranges, and an undo history.
///
/// Rows and columns count from 0, columns in characters. Out of memory, a call changes nothing.
#[derive(Drop)]
pub struct Document {
    text_layout: TextLayout,
    cursor: (usize, usize),
    anchor: Option<(usize, usize)>,
    ranges: Vec<AtomicRange>,
    history: History,
    changes: ChangeLog,
    range_history: RangeHistory,
}

impl Model for Document {
    ghost use Rattle.textarea_document.specs.ChangeLog.{changes_of};
    ghost use Rattle.textarea_document.specs.RangeHistory.{past_of};
    ghost use Rattle.textarea_document.specs.DocumentState.{DocumentState, document_of};

    ghost Value = { DocumentState };

    ghost use Rattle.textarea_document.specs.Sound.{IsSound};

    ghost view = { λ document.
        document_of document.text_layout document.cursor document.anchor document.ranges.items
        document.history.log (changes_of document.changes) (past_of document.range_history) };

    ghost invariant = { λ document. IsSound
        (document_of document.text_layout document.cursor document.anchor document.ranges.items
        document.history.log (changes_of document.changes) (past_of document.range_history)) };
}

impl Clone for Document {
    ghost use Rattle.textarea_document.specs.DocumentState.{changes_taken};

    ghost is_clone = { λ document copy. copy ≡ changes_taken document };

    /// Returns a copy of the document with its history and an empty log of changes, or an error if
    /// memory runs out.
    fn clone(&self) -> Result<Document, AllocError> {
        let text_layout = self.text_layout.clone()?;
        let ranges = self.ranges.clone()?;
        let history = self.history.clone()?;
        let changes = self.changes.emptied();
        let range_history = self.range_history.copied()?;
        Ok(Document {
            text_layout,
            cursor: self.cursor,
            anchor: self.anchor,
            ranges,
            history,
            changes,
            range_history,
        })
    }
}

impl Document {
    // Returns a copy with the log of changes.
    fn copied(&self) -> Result<Document, AllocError>
        ensures { IfOk result (λ copy. copy ≡ self.now) }
    {
        let changes = self.changes.copied()?;
        let mut copy = self.clone()?;
        copy.changes = changes;
        Ok(copy)
    }

    // Returns a copy with the log of changes, in which edits can be made that wrap at once: its lines
    // are numbered and not wrapped.
    fn with_lines_numbered(&self) -> Result<Document, AllocError>
        ensures { IfOk result (λ copy. copy ≡ lines_numbered self.now) }
    {
        let text_layout = self.text_layout.numbered()?;
        let ranges = self.ranges.clone()?;
        let history = self.history.clone()?;
        let changes = self.changes.copied()?;
        let range_history = self.range_history.copied()?;
        Ok(Document {
            text_layout,
            cursor: self.cursor,
            anchor: self.anchor,
            ranges,
            history,
            changes,
            range_history,
        })
    }

    /// Returns a document with these lines, layout settings and maximum of remembered edits, and
    /// the cursor at the start. An empty list becomes one empty line. A line feed inside a line
    /// stays a character of that line.
    pub fn new(
        alloc: Global,
        lines: Vec<String>,
        settings: LayoutSettings,
        max_histories: usize,
    ) -> Result<Self, AllocError>
        ensures { IfOk result (λ document.
            document ≡ new_document (text_of lines.items) settings max_histories) }
    {
        let text_layout = TextLayout::new(alloc, lines, settings)?;
        let ranges = Vec::new(alloc);
        let history = History::new(alloc, max_histories);
        let changes = ChangeLog::new(alloc, None);
        let range_history = RangeHistory::new(alloc, false);
        Ok(Document {
            text_layout,
            cursor: (0, 0),
            anchor: None,
            ranges,
            history,
            changes,
            range_history,
        })
    }

    /// Returns the lines, at least one. The atomic ranges are valid for them. Their bytes and their
    /// number together are at most 2^48.
    pub fn lines(&self) -> &[String]
        ensures value { text_of result.now ≡ self.now.text }
        ensures lines { lines_of result.now ≡ lines self.now.text }
        ensures some { 0 < length result.now }
        ensures limit { size_of result.now ≤ size_limit }
        ensures ranges { AreValid (lines self.now.text) self.now.ranges }
    {
        self.text_layout.lines()
    }

    /// Returns the allocator of all the document's memory.
    pub fn allocator(&self) -> Global {
        self.text_layout.allocator()
    }

    /// Returns the cursor's (row, column), which is always a position of the text.
    pub fn cursor(&self) -> (usize, usize)
        ensures value { result ≡ self.now.cursor }
        ensures place { IsPlace self.now.text result }
        ensures small { (result.0 < size_limit) × (result.1 ≤ size_limit) }
    {
        self.text_layout.places_are_small();
        self.cursor
    }

    /// Returns where the selection began, if there is one; always a position of the text.
    pub fn anchor(&self) -> Option<(usize, usize)>
        ensures value { result ≡ self.now.anchor }
        ensures place { IfSome result (IsPlace self.now.text) }
    {
        self.anchor
    }

    /// Returns whether the text is one empty line.
    pub fn is_empty(&self) -> bool
        ensures { IsTrue result ↔ (self.now.text ≡ []) }
    {
        self.text_layout.is_empty()
    }

    /// Undoes the newest group of edits, and returns whether there was an edit. The cursor is then
    /// after the text that was restored last, or where text was removed last, and nothing is selected.
    /// The ranges are those before the group, if these are remembered, as for `set_undo_ranges`; else
    /// the remaining ones have moved with the text. An open group is closed. The edits of a group are
    /// undone in a copy of the document, so that out of memory changes nothing, and each line that
    /// they touch is wrapped once.
    pub fn undo(&mut self) -> Result<bool, AllocError>
        ensures undone { IfOk result (λ found. found ≡ is_some (newest self.old.log)) }
        ensures ok { OnOk result (self.new ≡ after_undo self.old) }
        ensures err { OnErr result (self.new ≡ self.old) }
        ensures nothing { newest self.old.log ≡ None → IsOk result }
    {
        let count = self.history.newest_group();
        if 1 < count {
            return self.undo_group(count);
        }
        self.undo_edit()
    }

    /// Redoes the group of edits that was undone last, and returns whether there was an edit. The
    /// cursor is then where its last edit left it, and nothing is selected. The ranges are those after
    /// the group, if these are remembered; else the other ones have moved with the text. An open group
    /// is closed. Out of memory changes nothing, and each line is wrapped once at most, as for `undo`.
    pub fn redo(&mut self) -> Result<bool, AllocError>
        ensures redone { IfOk result (λ found. found ≡ is_some (next self.old.log)) }
        ensures ok { OnOk result (self.new ≡ after_redo self.old) }
        ensures err { OnErr result (self.new ≡ self.old) }
        ensures nothing { next self.old.log ≡ None → IsOk result }
    {
        let count = self.history.next_group();
        if 1 < count {
            return self.redo_group(count);
        }
        self.redo_edit()
    }

    /// Makes an edit that fits the text and splits no range, and records it as typed or not. The
    /// ranges that it does not remove move with the text. It allocates its memory first.
    pub fn edit(&mut self, edit: Edit, typed: bool, now: Duration) -> Result<(), AllocError>
        requires well_formed { IsWellFormed edit }
        requires fits { Fits self.old.text edit.splice }
        requires splits_none { SplitsNoRange self.old.ranges edit.splice }
        ensures ok { OnOk result (self.new ≡ after_edit self.old edit.splice typed (as_nanos now)) }
        ensures err { OnErr result (self.new ≡ self.old) }
    {
        self.history.reserve()?;
        let kept = self
            .range_history
            .prepare(&self.ranges, &self.history, &edit, typed, now)?;
        let cursor = make_change(
            &mut self.text_layout,
            &mut self.ranges,
            &mut self.changes,
            edit.change(),
        )?;
        self.cursor = cursor;
        let undone = self.history.undone_len();
        self.history.put(edit, typed, now);
        self.range_history
            .remember(kept, undone, self.history.done_len());
        self.anchor = None;
        Ok(())
    }

    /// Moves the cursor and the anchor to positions of the text, and ends a run of typing.
    pub fn move_to(&mut self, cursor: (usize, usize), anchor: Option<(usize, usize)>)
        requires cursor { IsPlace self.old.text cursor }
        requires anchor { IfSome anchor (IsPlace self.old.text) }
        ensures { self.new ≡ after_move self.old cursor anchor }
    {
        self.cursor = cursor;
        self.anchor = anchor;
        self.history.break_run();
    }

    /// Moves the cursor to a position of the text. The anchor and a run of typing stay.
    pub fn set_cursor(&mut self, cursor: (usize, usize))
        requires { IsPlace self.old.text cursor }
        ensures { self.new ≡ record self.old { cursor = cursor } }
    {
        self.cursor = cursor;
    }

    /// Sets where the selection began, or `None` for no selection.
    pub fn set_anchor(&mut self, anchor: Option<(usize, usize)>)
        requires { IfSome anchor (IsPlace self.old.text) }
        ensures { self.new ≡ record self.old { anchor = anchor } }
    {
        self.anchor = anchor;
    }

    /// Ends a run of typing: the next edit is recorded separately.
    pub fn break_run(&mut self)
        ensures { self.new ≡ record self.old { log = run_ended self.old.log } }
    {
        self.history.break_run();
    }

    /// Returns the greatest number of edits that are remembered, done and undone together. A group
    /// of more edits is forgotten, with all edits before it.
    pub fn max_histories(&self) -> usize
        ensures value { result ≡ self.now.log.maximum }
        ensures bound { length self.now.log.done + length self.now.log.undone ≤ result }
    {
        self.history.max_items()
    }

    /// Replaces all lines, forgets all edits and an open group, and moves the cursor to the nearest
    /// position; the maximum of remembered edits stays. It is a change of the whole text.
    pub fn set_lines(
        &mut self,
        lines: Vec<String>,
        cursor: (usize, usize),
    ) -> Result<(), AllocError>
        requires some { 0 < vec_len lines }
        ensures ok { OnOk result
            (self.new ≡ lines_replaced self.old (lines_of lines.items) cursor) }
        ensures err { OnErr result (self.new ≡ self.old) }
    {
        let place = clip(lines.as_slice(), cursor);
        let history = History::new(*lines.allocator(), self.history.max_items());
        let change = self
            .changes
            .prepare_lines(self.text_layout.lines(), lines.as_slice())?;
        self.text_layout.set_lines(lines)?;
        self.cursor = place;
        self.anchor = None;
        self.ranges.clear();
        self.range_history.forget();
        self.history = history;
        self.changes.put(change);
        Ok(())
    }

    /// Drops everything but the lines, and returns these.
    pub fn into_lines(self) -> Vec<String>
        ensures text { text_of result.items ≡ self.text }
        ensures some { 0 < vec_len result }
    {
        let Document { text_layout, .. } = self;
        text_layout.into_lines()
    }

    /// Forgets all edits, the ranges before them and an open group, and remembers at most this number
    /// of edits from now on.
    pub fn set_max_histories(&mut self, max_histories: usize)
        ensures { self.new ≡ history_forgotten self.old max_histories }
    {
        self.range_history.forget();
        self.history = History::new(self.text_layout.allocator(), max_histories);
    }
}

// Makes a change that fits the text of the lines, moves the ranges with it, adds it to the log of
// changes, and returns the cursor after it. All memory is allocated before the first change.
pub(crate) fn make_change(
    text_layout: &mut TextLayout,
    ranges: &mut Vec<AtomicRange>,
    changes: &mut ChangeLog,
    change: Change<'_>,
) -> Result<(usize, usize), AllocError>
    requires fits { Fits text_layout.old.text change }
    requires valid { AreValid (lines text_layout.old.text) ranges.old.items }
    requires in_order { AreInOrder ranges.old.items }
    ensures cursor { IfOk result (λ cursor. cursor ≡ place_after change.entry) }
    ensures text_layout { OnOk result (text_layout.new ≡ applied_to text_layout.old change.entry) }
    ensures ranges { OnOk result
        (ranges.new.items ≡ moved_ranges ranges.old.items change.entry) }
    ensures layout_stays { OnErr result (text_layout.new ≡ text_layout.old) }
    ensures changes { OnOk result (changes_of changes.new
        ≡ with_splice (changes_of changes.old) text_layout.old.text change.entry) }
    ensures ranges_stay { OnErr result (ranges.new.items ≡ ranges.old.items) }
    ensures changes_stay { OnErr result (changes_of changes.new ≡ changes_of changes.old) }
{
    let start = change.start();
    let old = change.cursor_before();
    let new = change.cursor_after();
    text_layout.places_are_small();
    let kept = changes.prepare(text_layout.lines(), &change)?;
    change_lines(text_layout, change)?;
    move_ranges(ranges, start, old, new);
    changes.put(kept);
    Ok(new)
}

// Makes a change that fits the text of the lines. The row and the column of the cursor after it are
// small, as those of all positions.
fn change_lines(text_layout: &mut TextLayout, change: Change<'_>) -> Result<(), AllocError>
    requires { Fits text_layout.old.text change }
    ensures ok { OnOk result (text_layout.new ≡ applied_to text_layout.old change.entry) }
    ensures err { OnErr result (text_layout.new ≡ text_layout.old) }
    ensures small { OnOk result (((place_after change.entry).0 ≤ size_limit)
        × ((place_after change.entry).1 ≤ size_limit)) }
{
    text_layout.apply(change)?;
    text_layout.places_are_small();
    Ok(())
}
