//! Line breaks that keep the indent.
ghost use Rattle.std.specs.Prelude.{◌≡◌, IfOk, OnErr, OnOk, string_bytes};
ghost use Rattle.textarea_editor.specs.Draft.{FailsIn, Makes};
ghost use Rattle.textarea_editor.specs.EventCalls.{break_calls};
ghost use Rattle.textarea_editor.specs.Indents.{edit_start, line_break};

use crate::draft::Draft;
use crate::indent::line_break_at;
use std::alloc::AllocError;
use textarea_calls::Call;

impl Draft {
    /// Breaks the line at the cursor, or in place of the selected text. The new line begins with the
    /// spaces and tabs that the broken one begins with, up to the break.
    pub fn break_line(&mut self) -> Result<bool, AllocError>
        ensures ok { OnOk result (Makes self.old (break_calls self.old.area.document) self.new) }
        ensures err { OnErr result
            (FailsIn self.old (break_calls self.old.area.document) self.new) }
    {
        let text = self.line_break()?;
        self.make(&[Call::InsertStr(text.as_str())])
    }

    // Returns what breaks the line.
    fn line_break(&self) -> Result<String, AllocError>
        ensures { IfOk result
            (λ text. string_bytes text ≡ line_break self.now.area.document) }
    {
        let place = self.edit_start();
        line_break_at(self.allocator(), self.area.lines(), place)
    }

    // Returns where an edit begins: at the start of the selection, if one is open, or at the cursor.
    fn edit_start(&self) -> (usize, usize)
        ensures { result ≡ edit_start self.now.area.document }
    {
        match self.area.selection_range() {
            Some(ends) => ends.0,
            None => self.area.cursor(),
        }
    }
}
