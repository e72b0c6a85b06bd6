//! Undoing and redoing one edit, in a document or in a draft of one.
ghost use Rattle.std.specs.Prelude.{◌≡◌, IfOk, IsOk, None, OnErr, OnOk, is_some};
ghost use Rattle.textarea_document.specs.ChangeLog.{changes_of};
ghost use Rattle.textarea_document.specs.RangeHistory.{past_of, ranges_of};
ghost use Rattle.textarea_document.specs.Prelude.{AreInOrder, AreValid, Fits, applied_to, lines, moved_ranges, place_after, ranges_or, with_splice, IsSoundInside, after_redo, after_undo, document_of, edit_redone, edit_undone, newest, newest_group, next, next_group};

use crate::document::changes::ChangeLog;
use crate::document::range_history::RangeHistory;
use crate::document::{Document, make_change};
use std::alloc::AllocError;
use textarea_data::range::AtomicRange;
use textarea_history::edit::Change;
use textarea_history::history::History;
use textarea_lines::text_layout::TextLayout;

impl Document {
    // Undoes the newest edit, if there is one, which is a group by itself.
    pub(super) fn undo_edit(&mut self) -> Result<bool, AllocError>
        requires { newest_group self.old.log ≡ 1 }
        ensures undone { IfOk result (λ found. found ≡ is_some (newest self.old.log)) }
        ensures ok { OnOk result (self.new ≡ after_undo self.old) }
        ensures err { OnErr result (self.new ≡ self.old) }
        ensures nothing { newest self.old.log ≡ None → IsOk result }
    {
        undo_edit(
            &mut self.text_layout,
            &mut self.cursor,
            &mut self.anchor,
            &mut self.ranges,
            &mut self.history,
            &mut self.changes,
            &self.range_history,
        )
    }

    // Redoes the edit that was undone last, if there is one, which is a group by itself.
    pub(super) fn redo_edit(&mut self) -> Result<bool, AllocError>
        requires { next_group self.old.log ≡ 1 }
        ensures redone { IfOk result (λ found. found ≡ is_some (next self.old.log)) }
        ensures ok { OnOk result (self.new ≡ after_redo self.old) }
        ensures err { OnErr result (self.new ≡ self.old) }
        ensures nothing { next self.old.log ≡ None → IsOk result }
    {
        redo_edit(
            &mut self.text_layout,
            &mut self.cursor,
            &mut self.anchor,
            &mut self.ranges,
            &mut self.history,
            &mut self.changes,
            &self.range_history,
        )
    }
}

// Undoes the newest edit of a document's parts, and returns whether there was one. Out of memory
// changes nothing.
pub(crate) fn undo_edit(
    text_layout: &mut TextLayout,
    cursor: &mut (usize, usize),
    anchor: &mut Option<(usize, usize)>,
    ranges: &mut Vec<AtomicRange>,
    history: &mut History,
    changes: &mut ChangeLog,
    range_history: &RangeHistory,
) -> Result<bool, AllocError>
    requires { IsSoundInside (document_of text_layout.old cursor.old anchor.old ranges.old.items
        history.old.log (changes_of changes.old) (past_of range_history.now)) }
    ensures undone { IfOk result (λ found. found ≡ is_some (newest history.old.log)) }
    ensures ok { OnOk result (document_of text_layout.new cursor.new anchor.new ranges.new.items
        history.new.log (changes_of changes.new) (past_of range_history.now)
        ≡ edit_undone (document_of text_layout.old cursor.old anchor.old ranges.old.items
        history.old.log (changes_of changes.old) (past_of range_history.now))) }
    ensures err { OnErr result (document_of text_layout.new cursor.new anchor.new ranges.new.items
        history.new.log (changes_of changes.new) (past_of range_history.now)
        ≡ document_of text_layout.old cursor.old anchor.old ranges.old.items
        history.old.log (changes_of changes.old) (past_of range_history.now)) }
    ensures nothing { newest history.old.log ≡ None → IsOk result }
{
    let Some(edit) = history.newest() else {
        return Ok(false);
    };
    let past = range_history.before_newest(history)?;
    let after = make_change(text_layout, ranges, changes, edit.inverse())?;
    *cursor = after;
    put_past(ranges, past);
    history.step_back();
    *anchor = None;
    Ok(true)
}

// Redoes the edit that was undone last, and returns whether there was one. Out of memory changes
// nothing.
pub(crate) fn redo_edit(
    text_layout: &mut TextLayout,
    cursor: &mut (usize, usize),
    anchor: &mut Option<(usize, usize)>,
    ranges: &mut Vec<AtomicRange>,
    history: &mut History,
    changes: &mut ChangeLog,
    range_history: &RangeHistory,
) -> Result<bool, AllocError>
    requires { IsSoundInside (document_of text_layout.old cursor.old anchor.old ranges.old.items
        history.old.log (changes_of changes.old) (past_of range_history.now)) }
    ensures redone { IfOk result (λ found. found ≡ is_some (next history.old.log)) }
    ensures ok { OnOk result (document_of text_layout.new cursor.new anchor.new ranges.new.items
        history.new.log (changes_of changes.new) (past_of range_history.now)
        ≡ edit_redone (document_of text_layout.old cursor.old anchor.old ranges.old.items
        history.old.log (changes_of changes.old) (past_of range_history.now))) }
    ensures err { OnErr result (document_of text_layout.new cursor.new anchor.new ranges.new.items
        history.new.log (changes_of changes.new) (past_of range_history.now)
        ≡ document_of text_layout.old cursor.old anchor.old ranges.old.items
        history.old.log (changes_of changes.old) (past_of range_history.now)) }
    ensures nothing { next history.old.log ≡ None → IsOk result }
{
    let Some(edit) = history.next() else {
        return Ok(false);
    };
    let past = range_history.before_next(history)?;
    let after = make_change_from(past, text_layout, ranges, changes, edit.change())?;
    *cursor = after;
    history.step_forward();
    *anchor = None;
    Ok(true)
}

// Replaces the ranges by the remembered ones, if there are any.
fn put_past(ranges: &mut Vec<AtomicRange>, past: Option<Vec<AtomicRange>>)
    ensures { ranges.new.items ≡ ranges_or (ranges_of past) ranges.old.items }
{
    if let Some(past) = past {
        *ranges = past;
    }
}

// Makes a change as `make_change` does. Before it the ranges are replaced by the remembered ones, if
// there are any. Out of memory changes nothing.
fn make_change_from(
    past: Option<Vec<AtomicRange>>,
    text_layout: &mut TextLayout,
    ranges: &mut Vec<AtomicRange>,
    changes: &mut ChangeLog,
    change: Change<'_>,
) -> Result<(usize, usize), AllocError>
    requires fits { Fits text_layout.old.text change }
    requires valid { AreValid (lines text_layout.old.text)
        (ranges_or (ranges_of past) ranges.old.items) }
    requires in_order { AreInOrder (ranges_or (ranges_of past) ranges.old.items) }
    ensures cursor { IfOk result (λ cursor. cursor ≡ place_after change.entry) }
    ensures text_layout { OnOk result (text_layout.new ≡ applied_to text_layout.old change.entry) }
    ensures ranges { OnOk result (ranges.new.items
        ≡ moved_ranges (ranges_or (ranges_of past) ranges.old.items) change.entry) }
    ensures layout_stays { OnErr result (text_layout.new ≡ text_layout.old) }
    ensures changes { OnOk result (changes_of changes.new
        ≡ with_splice (changes_of changes.old) text_layout.old.text change.entry) }
    ensures ranges_stay { OnErr result (ranges.new.items ≡ ranges.old.items) }
    ensures changes_stay { OnErr result (changes_of changes.new ≡ changes_of changes.old) }
{
    let Some(mut past) = past else {
        return make_change(text_layout, ranges, changes, change);
    };
    let after = make_change(text_layout, &mut past, changes, change)?;
    *ranges = past;
    Ok(after)
}
