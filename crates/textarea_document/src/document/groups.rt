//! Groups of edits, which are undone and redone together, and wrap at once.
ghost use Rattle.std.specs.Prelude.{◌≡◌, ◌<◌, length, OnOk, OnErr, IfOk, is_some, true, false};
ghost use Rattle.textarea_document.specs.Prelude.{changes_taken, lines_numbered, text_and_layout, with_changes_after, wrapped_at_once, IsChangedFrom, after_redo, after_undo, group_begun, group_closed, group_ended, group_opened, is_grouped, is_open, newest, newest_group, next, next_group};

use crate::document::Document;
use crate::document::draft::Draft;
use std::alloc::AllocError;

impl Document {
    /// Returns whether a group of edits is open.
    pub fn has_open_group(&self) -> bool
        ensures { result ≡ is_open self.now.log.group }
    {
        self.history.has_open_group()
    }

    /// Begins a group, if none is open, and ends a run of typing. The edits until `end_group` are
    /// undone and redone together. An undo, a redo and new lines close the group too. A group
    /// without edits leaves none. If a group has more edits than are remembered, none of them is
    /// remembered, and no edit from before.
    pub fn begin_group(&mut self)
        ensures { self.new ≡ record self.old { log = group_begun self.old.log } }
    {
        self.history.begin_group();
    }

    /// Ends the open group, if one is open, and a run of typing.
    pub fn end_group(&mut self)
        ensures { self.new ≡ record self.old { log = group_ended self.old.log } }
    {
        self.history.end_group();
    }

    /// Opens a group, if none is open. Unlike at `begin_group`, a run of typing goes on.
    pub fn open_group(&mut self)
        ensures { self.new ≡ record self.old { log = group_opened self.old.log } }
    {
        self.history.open_group();
    }

    /// Closes the open group, if one is open. Unlike at `end_group`, a run of typing goes on.
    pub fn close_group(&mut self)
        ensures { self.new ≡ record self.old { log = group_closed self.old.log } }
    {
        self.history.close_group();
    }

    // Undoes the newest group, which has several edits.
    pub(super) fn undo_group(&mut self, count: usize) -> Result<bool, AllocError>
        requires count { count ≡ newest_group self.old.log }
        requires several { 1 < count }
        ensures undone { IfOk result (λ found. found ≡ is_some (newest self.old.log)) }
        ensures ok { OnOk result (self.new ≡ after_undo self.old) }
        ensures err { OnErr result (self.new ≡ self.old) }
    {
        self.is_sound();
        let mut draft = self.draft()?;
        draft.undo_edits(count)?;
        self.put(draft)?;
        Ok(true)
    }

    // Redoes the group that was undone last, which has several edits.
    pub(super) fn redo_group(&mut self, count: usize) -> Result<bool, AllocError>
        requires count { count ≡ next_group self.old.log }
        requires several { 1 < count }
        ensures redone { IfOk result (λ found. found ≡ is_some (next self.old.log)) }
        ensures ok { OnOk result (self.new ≡ after_redo self.old) }
        ensures err { OnErr result (self.new ≡ self.old) }
    {
        self.is_sound();
        let mut draft = self.draft()?;
        draft.redo_edits(count)?;
        self.put(draft)?;
        Ok(true)
    }

    // A copy in which edits can be undone and redone one by one, with an empty log of changes. Its
    // lines are numbered and not wrapped.
    fn draft(&self) -> Result<Draft, AllocError>
        ensures { IfOk result (λ draft. draft ≡ changes_taken (lines_numbered self.now)) }
    {
        let text_layout = self.text_layout.numbered()?;
        let ranges = self.ranges.clone()?;
        let history = self.history.clone()?;
        let changes = self.changes.emptied();
        let range_history = self.range_history.copied()?;
        Ok(Draft {
            text_layout,
            cursor: self.cursor,
            anchor: self.anchor,
            ranges,
            history,
            changes,
            range_history,
        })
    }

    // Replaces the document by the draft, in which no group is undone partly, and wraps each line that
    // an edit of the draft touched. The changes in the log stay before those of the draft.
    fn put(&mut self, draft: Draft) -> Result<(), AllocError>
        requires whole { is_grouped draft.log.marks (length draft.log.done) ≡ false }
        requires changed { IsChangedFrom (text_and_layout self.old) (text_and_layout draft) }
        ensures ok { OnOk result
            (self.new ≡ with_changes_after self.old.changes (wrapped_at_once self.old draft)) }
        ensures err { OnErr result (self.new ≡ self.old) }
    {
        let Draft {
            text_layout,
            cursor,
            anchor,
            ranges,
            history,
            changes,
            range_history,
        } = draft;
        let wrapped = self.text_layout.wrapped_once(text_layout)?;
        self.changes.append(changes)?;
        self.text_layout = wrapped;
        self.cursor = cursor;
        self.anchor = anchor;
        self.ranges = ranges;
        self.history = history;
        self.range_history = range_history;
        Ok(())
    }
}
