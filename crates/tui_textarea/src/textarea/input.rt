//! Keys: each input asks for one of the calls, by one of the two key tables of `textarea_calls`.
ghost use Rattle.std.specs.Prelude.{◌≡◌, IfOk, OnErr, OnOk};
ghost use Rattle.tui_textarea.specs.Prelude.{IsAfterAction, IsInputOutOfMemory, ActMayRunOutOfMemory, action_flag, asked_by, asked_without_shortcuts};

use crate::textarea::TextArea;
use std::alloc::AllocError;
use textarea_calls::action::Action;
use textarea_calls::keys::{action_of, action_without_shortcuts};
use textarea_data::input::Input;

impl TextArea<'_> {
    /// Makes the call that the key table with shortcuts has for the input, and returns whether the
    /// text changed: true for a character or a line break, unless it is left out; the result of the
    /// call for any other edit, undo and redo; false for `copy`, a move, a scroll, and an input that
    /// is not in the table, which changes nothing. With Shift, a move or scroll extends the
    /// selection, or begins one; without Shift it drops the selection. A move without a target
    /// changes nothing.
    pub fn input(&mut self, input: Input) -> Result<bool, AllocError>
        ensures returned { IfOk result
            (λ changed. changed ≡ action_flag self.old (asked_by input)) }
        ensures ok { OnOk result (IsAfterAction self.old (asked_by input) self.new) }
        ensures err { OnErr result (IsInputOutOfMemory self.old (asked_by input) self.new) }
        ensures may { OnErr result (ActMayRunOutOfMemory self.old (asked_by input)) }
    {
        self.act(action_of(&input))
    }

    /// As `input`, but by the table without shortcuts, for a caller that has its own: only
    /// characters, Tab, Backspace, Delete, Enter and the mouse wheel. The wheel scrolls as `scroll`
    /// does: an open selection stays open, and the input's Shift is ignored.
    pub fn input_without_shortcuts(&mut self, input: Input) -> Result<bool, AllocError>
        ensures returned { IfOk result
            (λ changed. changed ≡ action_flag self.old (asked_without_shortcuts input)) }
        ensures ok { OnOk result (IsAfterAction self.old (asked_without_shortcuts input) self.new) }
        ensures err { OnErr result
            (IsInputOutOfMemory self.old (asked_without_shortcuts input) self.new) }
        ensures may { OnErr result (ActMayRunOutOfMemory self.old (asked_without_shortcuts input)) }
    {
        self.act(action_without_shortcuts(&input))
    }

    /// Makes the call of an action that was found in a key table, and returns whether the text
    /// changed, as `input` does for the inputs of that action. So `input(input)` is
    /// `act(action_of(&input))`, and a caller that looks at the action first looks it up only once.
    pub fn act(&mut self, action: Action) -> Result<bool, AllocError>
        ensures returned { IfOk result (λ changed. changed ≡ action_flag self.old action) }
        ensures ok { OnOk result (IsAfterAction self.old action self.new) }
        ensures err { OnErr result (IsInputOutOfMemory self.old action self.new) }
        ensures may { OnErr result (ActMayRunOutOfMemory self.old action) }
    {
        match action {
            Action::Nothing => Ok(false),
            Action::InsertChar(c) => {
                let inserts = !self.bars_character(c);
                self.insert_char(c).map(|()| inserts)
            }
            Action::InsertNewline => {
                let inserts = !self.bars_break();
                self.insert_newline().map(|()| inserts)
            }
            Action::InsertTab => self.insert_tab(),
            Action::Paste => self.paste(),
            Action::DeleteChar => self.delete_char(),
            Action::DeleteNextChar => self.delete_next_char(),
            Action::DeleteLineByEnd => self.delete_line_by_end(),
            Action::DeleteLineByHead => self.delete_line_by_head(),
            Action::DeleteWord => self.delete_word(),
            Action::DeleteNextWord => self.delete_next_word(),
            Action::Cut => {
                let editable = !self.read_only();
                self.cut().map(|selected| editable && selected)
            }
            Action::Copy => self.copy().map(|()| false),
            Action::Undo => self.undo(),
            Action::Redo => self.redo(),
            Action::MoveWithShift(cursor_move, shift) => {
                self.move_with_shift(cursor_move, shift);
                Ok(false)
            }
            Action::ScrollWithShift(scrolling, shift) => {
                self.scroll_with_shift(scrolling, shift);
                Ok(false)
            }
            Action::Scroll(scrolling) => {
                self.scroll(scrolling);
                Ok(false)
            }
        }
    }
}
