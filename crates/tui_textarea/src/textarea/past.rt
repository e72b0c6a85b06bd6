//! Undo and redo.
ghost use Rattle.std.specs.Prelude.{◌≡◌, OnOk, OnErr, IsOk, IfOk, None, is_some, ◌&&◌, false};
ghost use Rattle.textarea_data.specs.declared.range.AtomicCursorBias.TheVariants.{Forward};
ghost use Rattle.tui_textarea.specs.Prelude.{newest, next, after_redo, after_undo, with_document, is_editable, settled, unless_read_only};

use crate::textarea::TextArea;
use std::alloc::AllocError;
use textarea_data::range::AtomicCursorBias;

impl TextArea<'_> {
    /// Undoes the newest edit, with all of its group, and returns whether there was one. The cursor
    /// is then after the restored text, or where the removed text began, and nothing is selected.
    /// An undo of something closes an open group.
    pub fn undo(&mut self) -> Result<bool, AllocError>
        ensures undone { IfOk result (λ found. found ≡ (is_editable self.old && is_some (newest
            self.old.document.log))) }
        ensures ok { OnOk result (self.new ≡ unless_read_only self.old (settled Forward
            (with_document self.old (after_undo self.old.document)))) }
        ensures err { OnErr result (self.new ≡ self.old) }
        ensures nothing { (is_editable self.old && is_some (newest self.old.document.log)) ≡ false
            → IsOk result }
    {
        if self.read_only() {
            return Ok(false);
        }
        let undone = self.undo_unguarded()?;
        self.settle(AtomicCursorBias::Forward);
        Ok(undone)
    }

    // The same, whether the text area is read only or not.
    fn undo_unguarded(&mut self) -> Result<bool, AllocError>
        ensures undone { IfOk result (λ found. found ≡ is_some (newest self.old.document.log)) }
        ensures ok { OnOk result
            (self.new ≡ with_document self.old (after_undo self.old.document)) }
        ensures err { OnErr result (self.new ≡ self.old) }
        ensures nothing { newest self.old.document.log ≡ None → IsOk result }
    {
        self.document.undo()
    }

    /// Redoes the edit that was undone last, with all of its group, and returns whether there was
    /// one. The cursor is then where the last of them left it, and nothing is selected. A redo of
    /// something closes an open group.
    pub fn redo(&mut self) -> Result<bool, AllocError>
        ensures redone { IfOk result (λ found. found ≡ (is_editable self.old && is_some (next
            self.old.document.log))) }
        ensures ok { OnOk result (self.new ≡ unless_read_only self.old (settled Forward
            (with_document self.old (after_redo self.old.document)))) }
        ensures err { OnErr result (self.new ≡ self.old) }
        ensures nothing { (is_editable self.old && is_some (next self.old.document.log)) ≡ false
            → IsOk result }
    {
        if self.read_only() {
            return Ok(false);
        }
        let redone = self.redo_unguarded()?;
        self.settle(AtomicCursorBias::Forward);
        Ok(redone)
    }

    // The same, whether the text area is read only or not.
    fn redo_unguarded(&mut self) -> Result<bool, AllocError>
        ensures redone { IfOk result (λ found. found ≡ is_some (next self.old.document.log)) }
        ensures ok { OnOk result
            (self.new ≡ with_document self.old (after_redo self.old.document)) }
        ensures err { OnErr result (self.new ≡ self.old) }
        ensures nothing { next self.old.document.log ≡ None → IsOk result }
    {
        self.document.redo()
    }
}
