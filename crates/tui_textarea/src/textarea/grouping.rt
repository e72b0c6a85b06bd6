//! Groups of edits, which are undone and redone together.
ghost use Rattle.std.specs.Prelude.{◌≡◌};
ghost use Rattle.tui_textarea.specs.Prelude.{call_begun, closed_if, opens_group, typing_ended, undo_group_begun, undo_group_ended};

use crate::textarea::TextArea;

impl TextArea<'_> {
    /// Sets whether all edits of one call are one group, which is undone and redone at once. So an
    /// undo of a text that was typed or pasted over a selection brings the selected text back. Edits
    /// that were made before, and an open group, stay as they are.
    pub fn set_undo_grouping(&mut self, undo_grouping: bool)
        ensures { self.new
            ≡ record self.old
            { settings = record self.old.settings { undo_grouping = undo_grouping } } }
    {
        self.settings.undo_grouping = undo_grouping;
    }

    /// Returns whether all edits of one call are one group.
    pub fn undo_grouping(&self) -> bool
        ensures { result ≡ self.now.settings.undo_grouping }
    {
        self.settings.undo_grouping
    }

    /// Begins a group, if none is open, and ends a run of typing. The edits until `end_undo_group`
    /// are undone and redone together. An undo or a redo of something, `set_lines` and
    /// `set_max_histories` close the group too. A group without edits leaves none. If a group has
    /// more edits than are remembered, none of them is remembered, and no edit from before.
    pub fn begin_undo_group(&mut self)
        ensures { self.new ≡ undo_group_begun self.old }
    {
        self.document.begin_group();
    }

    /// Ends the open group, if one is open, and a run of typing.
    pub fn end_undo_group(&mut self)
        ensures { self.new ≡ undo_group_ended self.old }
    {
        self.document.end_group();
    }

    /// Ends a run of typing: the next edit is recorded separately.
    pub fn end_run(&mut self)
        ensures { self.new ≡ typing_ended self.old }
    {
        self.document.break_run();
    }

    // Opens a group for the edits of one call, with grouping on and if none is open, and returns
    // whether it did. A run of typing goes on.
    pub(super) fn begin_call(&mut self) -> bool
        ensures opens { result ≡ opens_group self.old }
        ensures begun { self.new ≡ call_begun self.old }
    {
        let opens = self.settings.undo_grouping && !self.document.has_open_group();
        if opens {
            self.document.open_group();
        }
        opens
    }

    // Closes the group that a call opened, if it did. A run of typing goes on.
    pub(super) fn end_call(&mut self, opens: bool)
        ensures { self.new ≡ closed_if opens self.old }
    {
        if opens {
            self.document.close_group();
        }
    }
}
