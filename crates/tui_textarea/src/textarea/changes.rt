//! What changed in the text.
ghost use Rattle.std.specs.Prelude.{◌≡◌, map};
ghost use Rattle.tui_textarea.specs.Prelude.{change_view, with_change_log, with_changes_taken};

use crate::textarea::TextArea;
use textarea_change::{ChangeUnit, TextChange};

impl TextArea<'_> {
    /// Begins a log of what changes in the text, with columns in this unit, or ends it for `None`.
    /// The changes in the log before are forgotten. Without a log, as at first, nothing is kept. A
    /// call that edits then needs memory for its changes too, before its first change.
    pub fn set_change_log(&mut self, unit: Option<ChangeUnit>)
        ensures { self.new ≡ with_change_log self.old unit }
    {
        self.document.set_change_log(unit);
    }

    /// Returns what changed in the text since this was last called, or since the log began; nothing
    /// without a log. The changes, one after another, lead from the text then to the text now, over
    /// every call, undo and redo included (`outcomes::laws::changes_follow_each_run`). A replaced
    /// selection is a change of its own, and `set_lines` is a change of the whole text.
    pub fn take_changes(&mut self) -> Vec<TextChange>
        ensures taken { map change_view result.items ≡ self.old.document.changes.made }
        ensures new { self.new ≡ with_changes_taken self.old }
    {
        self.document.take_changes()
    }
}
