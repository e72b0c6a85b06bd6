//! The key table with shortcuts, by the modifier keys that are held.
#![tactic(auto, unfolding(crate::specs::Keys::keys_with_shortcuts, crate::specs::Table::action_by))]

ghost use Rattle.std.specs.Prelude.{◌≡◌, true, false};
ghost use Rattle.textarea_data.specs.declared.input.Key.TheVariants.{Char};
ghost use Rattle.textarea_calls.specs.Keys.{keys_with_shortcuts};
ghost use Rattle.textarea_calls.specs.Table.{action_by, pressed, any_modifiers};

use super::{ONE_DOWN, ONE_UP};
use crate::action::Action;
use textarea_data::cursor::CursorMove;
use textarea_data::input::Key;
use textarea_data::scroll::Scrolling;

/// Returns what a key asks for with neither Ctrl nor Alt.
pub(super) fn plain(key: Key, shift: bool) -> Action
    ensures { result ≡ action_by keys_with_shortcuts (pressed key false false shift) }
{
    match key {
        Key::Char('\n' | '\r') => Action::InsertNewline,
        Key::Char(character) => Action::InsertChar(character),
        Key::Tab => Action::InsertTab,
        Key::Backspace => Action::DeleteChar,
        Key::Delete => Action::DeleteNextChar,
        Key::Down => Action::MoveWithShift(CursorMove::Down, shift),
        Key::Up => Action::MoveWithShift(CursorMove::Up, shift),
        Key::Right => Action::MoveWithShift(CursorMove::Forward, shift),
        Key::Left => Action::MoveWithShift(CursorMove::Back, shift),
        _ => action_with_modifiers(key, shift),
    }
}

/// Returns what a key asks for with Ctrl but not Alt.
pub(super) fn with_ctrl(key: Key, shift: bool) -> Action
    ensures { result ≡ action_by keys_with_shortcuts (pressed key true false shift) }
{
    match key {
        Key::Char(character) => character_with_ctrl(character, shift),
        Key::Right => Action::MoveWithShift(CursorMove::WordForward, shift),
        Key::Left => Action::MoveWithShift(CursorMove::WordBack, shift),
        Key::Down => Action::MoveWithShift(CursorMove::ParagraphForward, shift),
        Key::Up => Action::MoveWithShift(CursorMove::ParagraphBack, shift),
        _ => action_with_modifiers(key, shift),
    }
}

/// Returns what a character asks for with Ctrl but not Alt.
fn character_with_ctrl(character: char, shift: bool) -> Action
    ensures { result ≡ action_by keys_with_shortcuts (pressed (Char character) true false shift) }
{
    match character {
        'm' => Action::InsertNewline,
        'h' => Action::DeleteChar,
        'd' => Action::DeleteNextChar,
        'k' => Action::DeleteLineByEnd,
        'j' => Action::DeleteLineByHead,
        'w' => Action::DeleteWord,
        'n' => Action::MoveWithShift(CursorMove::Down, shift),
        'p' => Action::MoveWithShift(CursorMove::Up, shift),
        'f' => Action::MoveWithShift(CursorMove::Forward, shift),
        'b' => Action::MoveWithShift(CursorMove::Back, shift),
        'a' => Action::MoveWithShift(CursorMove::Head, shift),
        'e' => Action::MoveWithShift(CursorMove::End, shift),
        'u' => Action::Undo,
        'r' => Action::Redo,
        'y' => Action::Paste,
        'x' => Action::Cut,
        'c' => Action::Copy,
        'v' => Action::ScrollWithShift(Scrolling::PageDown, shift),
        _ => Action::Nothing,
    }
}

/// Returns what a key asks for with Alt but not Ctrl.
pub(super) fn with_alt(key: Key, shift: bool) -> Action
    ensures { result ≡ action_by keys_with_shortcuts (pressed key false true shift) }
{
    match key {
        Key::Char(character) => character_with_alt(character, shift),
        Key::Backspace => Action::DeleteWord,
        Key::Delete => Action::DeleteNextWord,
        _ => action_with_modifiers(key, shift),
    }
}

/// Returns what a character asks for with Alt but not Ctrl.
fn character_with_alt(character: char, shift: bool) -> Action
    ensures { result ≡ action_by keys_with_shortcuts (pressed (Char character) false true shift) }
{
    match character {
        'h' => Action::DeleteWord,
        'd' => Action::DeleteNextWord,
        '<' => Action::MoveWithShift(CursorMove::Top, shift),
        '>' => Action::MoveWithShift(CursorMove::Bottom, shift),
        'f' => Action::MoveWithShift(CursorMove::WordForward, shift),
        'b' => Action::MoveWithShift(CursorMove::WordBack, shift),
        ']' | 'n' => Action::MoveWithShift(CursorMove::ParagraphForward, shift),
        '[' | 'p' => Action::MoveWithShift(CursorMove::ParagraphBack, shift),
        'v' => Action::ScrollWithShift(Scrolling::PageUp, shift),
        _ => Action::Nothing,
    }
}

/// Returns what a key asks for with both Ctrl and Alt.
pub(super) fn with_ctrl_and_alt(key: Key, shift: bool) -> Action
    ensures { result ≡ action_by keys_with_shortcuts (pressed key true true shift) }
{
    match key {
        Key::Left | Key::Char('b') => Action::MoveWithShift(CursorMove::Head, shift),
        Key::Right | Key::Char('f') => Action::MoveWithShift(CursorMove::End, shift),
        Key::Up | Key::Char('p') => Action::MoveWithShift(CursorMove::Top, shift),
        Key::Down | Key::Char('n') => Action::MoveWithShift(CursorMove::Bottom, shift),
        _ => action_with_modifiers(key, shift),
    }
}

/// Returns what a key asks for by the cases of the table that ignore Ctrl and Alt.
fn action_with_modifiers(key: Key, shift: bool) -> Action
    ensures { result ≡ action_by (any_modifiers keys_with_shortcuts)
        (pressed key false false shift) }
{
    match key {
        Key::Enter => Action::InsertNewline,
        Key::Home => Action::MoveWithShift(CursorMove::Head, shift),
        Key::End => Action::MoveWithShift(CursorMove::End, shift),
        Key::Paste => Action::Paste,
        Key::Cut => Action::Cut,
        Key::Copy => Action::Copy,
        Key::PageDown => Action::ScrollWithShift(Scrolling::PageDown, shift),
        Key::PageUp => Action::ScrollWithShift(Scrolling::PageUp, shift),
        Key::MouseScrollDown => Action::ScrollWithShift(ONE_DOWN, shift),
        Key::MouseScrollUp => Action::ScrollWithShift(ONE_UP, shift),
        _ => Action::Nothing,
    }
}
