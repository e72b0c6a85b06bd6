//! What a key does: its calls on a text area, and the mode after them.
ghost use Rattle.std.specs.Prelude.{◌≡◌, false, map};
ghost use Rattle.std.specs.List.{list_any};
ghost use Rattle.textarea_calls.specs.Edits.{edits};
ghost use Rattle.textarea_calls.specs.Possible.{CanBeMade};
ghost use Rattle.textarea_calls.specs.Topics.{draws};
ghost use Rattle.textarea_modal.specs.Calls.{OfStep, key_call, key_edits, step_calls};
ghost use Rattle.textarea_modal.specs.Table.{calls_then};

use crate::mode::Mode;
use textarea_calls::{Action, Call};
use textarea_data::cursor::CursorMove;
use textarea_data::scroll::Scrolling;

/// A call of a key on a text area, named as in `Call`. It borrows nothing, so that the steps of keys
/// are constants.
#[derive(Clone, Copy)]
pub enum KeyCall {
    InsertNewline,
    Paste,
    DeleteNextChar,
    DeleteLineByEnd,
    Cut,
    Copy,
    Undo,
    Redo,
    StartSelection,
    CancelSelection,
    Move(CursorMove),
    Scroll(Scrolling),
    SearchForward(bool),
    SearchBack(bool),
}

impl KeyCall {
    /// Returns the call on the text area. It can be made in any state, and draws nothing.
    pub fn call(self) -> Call<'static>
        ensures call { result ≡ key_call self }
        ensures can { CanBeMade result }
        ensures undrawn { draws result ≡ false }
    {
        match self {
            KeyCall::InsertNewline => Call::InsertNewline,
            KeyCall::Paste => Call::Paste,
            KeyCall::DeleteNextChar => Call::DeleteNextChar,
            KeyCall::DeleteLineByEnd => Call::DeleteLineByEnd,
            KeyCall::Cut => Call::Cut,
            KeyCall::Copy => Call::Copy,
            KeyCall::Undo => Call::Undo,
            KeyCall::Redo => Call::Redo,
            KeyCall::StartSelection => Call::StartSelection,
            KeyCall::CancelSelection => Call::CancelSelection,
            KeyCall::Move(cursor_move) => Call::Move(cursor_move),
            KeyCall::Scroll(scrolling) => Call::Scroll(scrolling),
            KeyCall::SearchForward(at_cursor) => Call::SearchForward(at_cursor),
            KeyCall::SearchBack(at_cursor) => Call::SearchBack(at_cursor),
        }
    }

    /// Returns whether the call may change the text.
    pub fn edits(self) -> bool
        ensures { result ≡ key_edits self }
    {
        self.call().edits()
    }
}

/// What a key does: a motion, then calls, then a mode; and whether it quits.
#[derive(Clone, Copy)]
pub struct Step {
    /// The move that it makes first, if the key is a motion.
    pub motion: Option<CursorMove>,
    /// The calls that it makes after the motion, in their order.
    pub calls: &'static [KeyCall],
    /// The mode after the calls.
    pub mode: Mode,
    /// Whether it ends the run.
    pub quits: bool,
}

impl Step {
    /// A step that makes these calls and enters this mode.
    pub fn calls_then(calls: &'static [KeyCall], mode: Mode) -> Step
        ensures { step_calls result ≡ calls_then (map key_call calls.now) mode }
    {
        Step {
            motion: None,
            calls,
            mode,
            quits: false,
        }
    }
}

/// What an input does in a mode.
#[derive(Clone, Copy)]
pub enum Reaction {
    /// The step that the table has for it.
    Step(Step),
    /// In Insert, what the text area does for it, by its own key table.
    PassOn(Action),
}

impl Reaction {
    /// Returns whether it may change the text.
    pub fn edits(&self) -> bool
        ensures { (mode : Mode) →
            OfStep mode self.now (λ step. result ≡ list_any edits step.calls) }
    {
        match self {
            Reaction::Step(step) => any_edits(step.calls),
            Reaction::PassOn(action) => action.may_change_text(),
        }
    }
}

fn any_edits(calls: &[KeyCall]) -> bool
    ensures { result ≡ list_any key_edits calls.now }
{
    calls.iter().any(|call| call.edits())
}
