//! The two key tables of a text area.

ghost use Rattle.std.specs.Prelude.{◌≡◌};
ghost use Rattle.textarea_calls.specs.Keys.{keys_with_shortcuts, keys_without_shortcuts};
ghost use Rattle.textarea_calls.specs.Table.{action_by};

use crate::action::Action;
use textarea_data::input::{Input, Key};
use textarea_data::scroll::Scrolling;

mod groups;

/// The scroll by one notch of the mouse wheel.
const ONE_DOWN: Scrolling = Scrolling::Delta { rows: 1, cols: 0 };

const ONE_UP: Scrolling = Scrolling::Delta { rows: -1, cols: 0 };

/// Returns what an input asks for by the key table with shortcuts.
pub fn action_of(input: &Input) -> Action
    ensures { result ≡ action_by keys_with_shortcuts input.now }
{
    match (input.ctrl, input.alt) {
        (false, false) => groups::plain(input.key, input.shift),
        (true, false) => groups::with_ctrl(input.key, input.shift),
        (false, true) => groups::with_alt(input.key, input.shift),
        (true, true) => groups::with_ctrl_and_alt(input.key, input.shift),
    }
}

/// Returns what an input asks for by the key table without shortcuts, for callers with their own.
#[tactic(auto, unfolding(crate::specs::Keys::keys_without_shortcuts, crate::specs::Table::action_by))]
pub fn action_without_shortcuts(input: &Input) -> Action
    ensures { result ≡ action_by keys_without_shortcuts input.now }
{
    match (input.key, input.ctrl, input.alt) {
        (Key::Char(character), false, false) => Action::InsertChar(character),
        (Key::Tab, false, false) => Action::InsertTab,
        (Key::Backspace, ..) => Action::DeleteChar,
        (Key::Delete, ..) => Action::DeleteNextChar,
        (Key::Enter, ..) => Action::InsertNewline,
        (Key::MouseScrollDown, ..) => Action::Scroll(ONE_DOWN),
        (Key::MouseScrollUp, ..) => Action::Scroll(ONE_UP),
        _ => Action::Nothing,
    }
}
