//! What an input asks for.

ghost use Rattle.std.specs.Prelude.{◌≡◌};
ghost use Rattle.textarea_calls.specs.FlagRule.{flag_rule_of, may_change_text, result_flag};

use textarea_data::cursor::CursorMove;
use textarea_data::scroll::Scrolling;

/// What an input asks for: a call of the text area, with its arguments.
#[derive(Clone, Copy, Debug, PartialEq, Eq)]
pub enum Action {
    /// No call.
    Nothing,
    /// `TextArea::insert_char`
    InsertChar(char),
    /// `TextArea::insert_newline`
    InsertNewline,
    /// `TextArea::insert_tab`
    InsertTab,
    /// `TextArea::paste`
    Paste,
    /// `TextArea::delete_char`
    DeleteChar,
    /// `TextArea::delete_next_char`
    DeleteNextChar,
    /// `TextArea::delete_line_by_end`
    DeleteLineByEnd,
    /// `TextArea::delete_line_by_head`
    DeleteLineByHead,
    /// `TextArea::delete_word`
    DeleteWord,
    /// `TextArea::delete_next_word`
    DeleteNextWord,
    /// `TextArea::cut`
    Cut,
    /// `TextArea::copy`
    Copy,
    /// `TextArea::undo`
    Undo,
    /// `TextArea::redo`
    Redo,
    /// A move of the cursor. With Shift (`true`) it selects; without Shift it drops the selection.
    MoveWithShift(CursorMove, bool),
    /// A scroll. The cursor then moves into the visible rows, with or without Shift.
    ScrollWithShift(Scrolling, bool),
    /// `TextArea::scroll`, which keeps an open selection and ignores Shift.
    Scroll(Scrolling),
}

impl Action {
    /// Returns whether an input that asks for this action changes the text. `called` is the result
    /// of the call; it is ignored where the call has none.
    pub fn flag(self, called: bool) -> bool
        ensures { result ≡ result_flag (flag_rule_of self) called }
    {
        match self {
            Action::InsertChar(_) | Action::InsertNewline => true,
            _ => called && self.may_change_text(),
        }
    }

    /// Returns whether the action may change the text. Every other action leaves it as it is.
    pub fn may_change_text(self) -> bool
        ensures { result ≡ may_change_text self }
    {
        !matches!(
            self,
            Action::Nothing
                | Action::Copy
                | Action::MoveWithShift(..)
                | Action::ScrollWithShift(..)
                | Action::Scroll(_)
        )
    }
}
