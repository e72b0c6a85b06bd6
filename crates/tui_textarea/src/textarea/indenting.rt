//! Lines that are indented and outdented, each call one group of edits.
ghost use Rattle.std.specs.Prelude.{◌≡◌, IfOk, OnErr, OnOk, [], None, Some, false, ◌&&◌, not, IsOk, if◌then◌else◌};
ghost use Rattle.textarea_document.specs.Indenting.{lines_indented, lines_outdented, shifts_lines, tab_of, with_starts};
ghost use Rattle.textarea_data.specs.declared.range.AtomicCursorBias.TheVariants.{Forward};
ghost use Rattle.tui_textarea.specs.Prelude.{lines, with_document, bars_indent, is_editable, settled, unless_read_only};

use crate::textarea::TextArea;
use std::alloc::AllocError;
use textarea_data::range::AtomicCursorBias;

impl TextArea<'_> {
    /// Inserts a tab at the start of each line of the selection, or of the cursor's line without
    /// one, and returns whether it inserted one. With hard tabs that is a tab character, otherwise
    /// as many spaces as the tab length. Empty lines are left, and at tab length 0 all lines. The
    /// selection's lines are those of which it holds a character or the break. One undo takes all
    /// back. The selection stays on the same text, and a run of typing ends: cursor and selection
    /// move with the characters after them, but a selection that begins at column 0 still does.
    /// Atomic ranges move along. Without such a line nothing changes.
    pub fn indent_lines(&mut self) -> Result<bool, AllocError>
        ensures indented { IfOk result (λ indented. indented ≡ (not (bars_indent self.old) &&
            shifts_lines self.old.document None)) }
        ensures ok { OnOk result (self.new ≡ (if bars_indent self.old then self.old else
            settled Forward (with_document self.old (lines_indented self.old.document
            self.old.settings.hard_tab_indent self.old.time)))) }
        ensures err { OnErr result (self.new ≡ self.old) }
        ensures lines { OnOk result (lines self.new.document.text ≡ (if bars_indent self.old
            then lines self.old.document.text else with_starts self.old.document None (tab_of
            self.old.document self.old.settings.hard_tab_indent) 0 (lines self.old.document.text))) }
        ensures nothing { is_editable self.old ≡ false → IsOk result }
    {
        if self.read_only() || !self.fits_indent()? {
            return Ok(false);
        }
        let indented = self.indent_lines_unguarded()?;
        self.settle(AtomicCursorBias::Forward);
        Ok(indented)
    }

    // The same, whether the text area is read only or not.
    fn indent_lines_unguarded(&mut self) -> Result<bool, AllocError>
        ensures indented { IfOk result
            (λ indented. indented ≡ shifts_lines self.old.document None) }
        ensures ok { OnOk result (self.new ≡ with_document self.old (lines_indented
            self.old.document self.old.settings.hard_tab_indent self.old.time)) }
        ensures err { OnErr result (self.new ≡ self.old) }
        ensures lines { OnOk result (lines self.new.document.text
            ≡ with_starts self.old.document None
            (tab_of self.old.document self.old.settings.hard_tab_indent) 0
            (lines self.old.document.text)) }
    {
        self.document
            .indent_lines(self.settings.hard_tab_indent, self.time)
    }

    /// Removes a tab character from the start of each line of the selection, or of the cursor's
    /// line without one, or the spaces there, at most as many as the tab length, and returns
    /// whether there were any. No character of an atomic range is removed, and nothing after the
    /// first one; if the cursor goes by clusters, no part of one. All else is as for `indent_lines`.
    pub fn outdent_lines(&mut self) -> Result<bool, AllocError>
        ensures outdented { IfOk result (λ outdented. outdented ≡ (is_editable self.old &&
            shifts_lines self.old.document (Some self.old.settings.cursor_unit))) }
        ensures ok { OnOk result (self.new ≡ unless_read_only self.old (settled Forward
            (with_document self.old (lines_outdented self.old.document
            self.old.settings.cursor_unit self.old.time)))) }
        ensures err { OnErr result (self.new ≡ self.old) }
        ensures lines { OnOk result (lines self.new.document.text ≡ (if self.old.settings.read_only
            then lines self.old.document.text else with_starts self.old.document
            (Some self.old.settings.cursor_unit) [] 0 (lines self.old.document.text))) }
        ensures nothing { is_editable self.old ≡ false → IsOk result }
    {
        if self.read_only() {
            return Ok(false);
        }
        let outdented = self.outdent_lines_unguarded()?;
        self.settle(AtomicCursorBias::Forward);
        Ok(outdented)
    }

    // The same, whether the text area is read only or not.
    fn outdent_lines_unguarded(&mut self) -> Result<bool, AllocError>
        ensures outdented { IfOk result (λ outdented. outdented ≡ shifts_lines self.old.document
            (Some self.old.settings.cursor_unit)) }
        ensures ok { OnOk result (self.new ≡ with_document self.old
            (lines_outdented self.old.document self.old.settings.cursor_unit self.old.time)) }
        ensures err { OnErr result (self.new ≡ self.old) }
        ensures lines { OnOk result (lines self.new.document.text
            ≡ with_starts self.old.document (Some self.old.settings.cursor_unit) [] 0
            (lines self.old.document.text)) }
    {
        self.document
            .outdent_lines(self.settings.cursor_unit, self.time)
    }
}
