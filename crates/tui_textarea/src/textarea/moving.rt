//! Lines that change places with the line above or below them, each call one group of edits.
ghost use Rattle.std.specs.Prelude.{◌≡◌, ◌&&◌, false, if◌then◌else◌, IfOk, IsOk, OnErr, OnOk};
ghost use Rattle.textarea_document.specs.Moving.{has_line_above, has_line_below, lines_moved_down, lines_moved_up, with_lines_down, with_lines_up};
ghost use Rattle.textarea_document.specs.Selection.{first_selected_row, last_selected_row};
ghost use Rattle.textarea_data.specs.declared.range.AtomicCursorBias.TheVariants.{Forward};
ghost use Rattle.tui_textarea.specs.Prelude.{is_editable, lines, settled, unless_read_only, with_document};

use crate::textarea::TextArea;
use std::alloc::AllocError;
use textarea_data::range::AtomicCursorBias;

impl TextArea<'_> {
    /// Moves the cursor's line, or the selection's lines, up by one row, so that the line above is
    /// below them, and returns whether there was one. The selection's lines are those of which it
    /// holds a character or the break. One undo takes all back. The selection stays on the same
    /// text, and a run of typing ends. Atomic ranges of these lines move along; those of the line
    /// that they pass go with its removal. In the first row nothing changes.
    pub fn move_lines_up(&mut self) -> Result<bool, AllocError>
        ensures moved { IfOk result
            (λ moved. moved ≡ (is_editable self.old && has_line_above self.old.document)) }
        ensures ok { OnOk result (self.new ≡ unless_read_only self.old (settled Forward
            (with_document self.old (lines_moved_up self.old.document self.old.time)))) }
        ensures err { OnErr result (self.new ≡ self.old) }
        ensures nothing { (is_editable self.old && has_line_above self.old.document) ≡ false
            → IsOk result }
        ensures lines { OnOk result (lines self.new.document.text
            ≡ (if self.old.settings.read_only then lines self.old.document.text
            else with_lines_up (lines self.old.document.text)
            (first_selected_row self.old.document) (last_selected_row self.old.document))) }
    {
        if self.read_only() {
            return Ok(false);
        }
        let moved = self.move_lines_up_unguarded()?;
        self.settle(AtomicCursorBias::Forward);
        Ok(moved)
    }

    // The same, whether the text area is read only or not.
    fn move_lines_up_unguarded(&mut self) -> Result<bool, AllocError>
        ensures moved { IfOk result (λ moved. moved ≡ has_line_above self.old.document) }
        ensures ok { OnOk result (self.new ≡ with_document self.old
            (lines_moved_up self.old.document self.old.time)) }
        ensures err { OnErr result (self.new ≡ self.old) }
        ensures nothing { has_line_above self.old.document ≡ false → IsOk result }
        ensures lines { OnOk result (lines self.new.document.text
            ≡ with_lines_up (lines self.old.document.text)
            (first_selected_row self.old.document) (last_selected_row self.old.document)) }
    {
        self.document.move_lines_up(self.time)
    }

    /// Moves the cursor's line, or the selection's lines, down by one row, so that the line below
    /// is above them, and returns whether there was one. A selection that ends at column 0 of the
    /// text's last line then ends at the end of the last of its lines. All else is as for
    /// `move_lines_up`.
    pub fn move_lines_down(&mut self) -> Result<bool, AllocError>
        ensures moved { IfOk result
            (λ moved. moved ≡ (is_editable self.old && has_line_below self.old.document)) }
        ensures ok { OnOk result (self.new ≡ unless_read_only self.old (settled Forward
            (with_document self.old (lines_moved_down self.old.document self.old.time)))) }
        ensures err { OnErr result (self.new ≡ self.old) }
        ensures nothing { (is_editable self.old && has_line_below self.old.document) ≡ false
            → IsOk result }
        ensures lines { OnOk result (lines self.new.document.text
            ≡ (if self.old.settings.read_only then lines self.old.document.text
            else with_lines_down (lines self.old.document.text)
            (first_selected_row self.old.document) (last_selected_row self.old.document))) }
    {
        if self.read_only() {
            return Ok(false);
        }
        let moved = self.move_lines_down_unguarded()?;
        self.settle(AtomicCursorBias::Forward);
        Ok(moved)
    }

    // The same, whether the text area is read only or not.
    fn move_lines_down_unguarded(&mut self) -> Result<bool, AllocError>
        ensures moved { IfOk result (λ moved. moved ≡ has_line_below self.old.document) }
        ensures ok { OnOk result (self.new ≡ with_document self.old
            (lines_moved_down self.old.document self.old.time)) }
        ensures err { OnErr result (self.new ≡ self.old) }
        ensures nothing { has_line_below self.old.document ≡ false → IsOk result }
        ensures lines { OnOk result (lines self.new.document.text
            ≡ with_lines_down (lines self.old.document.text)
            (first_selected_row self.old.document) (last_selected_row self.old.document)) }
    {
        self.document.move_lines_down(self.time)
    }
}
