// Written by tools/calls from crates/textarea_calls/calls.txt.
//! Which calls may change the text.
ghost use Rattle.std.specs.Prelude.{◌≡◌};
ghost use Rattle.textarea_calls.specs.Edits.{edits};

use crate::call::Call;
use crate::keys::{action_of, action_without_shortcuts};

impl Call<'_> {
    /// Returns whether the call may change the text. Every other call leaves it as it is, and makes
    /// no edit (`tui_textarea::outcomes::laws::others_edit_nothing`).
    pub fn edits(&self) -> bool
        ensures { result ≡ edits self.now }
    {
        match self {
            Call::Input(input) => action_of(input).may_change_text(),
            Call::InputWithoutShortcuts(input) => action_without_shortcuts(input).may_change_text(),
            Call::InsertChar(_)
            | Call::InsertNewline
            | Call::InsertStr(_)
            | Call::InsertPasted(_)
            | Call::InsertTab
            | Call::Paste
            | Call::DuplicateLine
            | Call::IndentLines
            | Call::OutdentLines
            | Call::MoveLinesUp
            | Call::MoveLinesDown
            | Call::ReplaceRange { .. }
            | Call::SetLines { .. }
            | Call::DeleteChar
            | Call::DeleteNextChar
            | Call::DeleteNewline
            | Call::DeleteStr(_)
            | Call::DeleteLineByEnd
            | Call::DeleteLineByHead
            | Call::DeleteWord
            | Call::DeleteNextWord
            | Call::Clear
            | Call::Cut
            | Call::Undo
            | Call::Redo
            | Call::ReplaceMatch(_)
            | Call::ReplaceAll(_)
            | Call::DeleteAtomicRangeAtCursor(_) => true,
            _ => false,
        }
    }
}
