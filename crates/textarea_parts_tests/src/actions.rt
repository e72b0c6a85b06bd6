// The actions of keys, with shortcuts and without, and the results of `Action::flag`.
use crate::cases::check_each;
use crate::keys::pressed;
use std::collections::HashMap;
use std::process::Abort;
use std::test::Fail;
use textarea_calls::action::Action;
use textarea_calls::action::Action::*;
use textarea_calls::keys::{action_of, action_without_shortcuts};
use textarea_data::cursor::CursorMove::*;
use textarea_data::input::{Input, Key};
use textarea_data::scroll::Scrolling;

/// Whether Ctrl and Alt are pressed.
type ModifierFlags = (bool, bool);

const PLAIN: ModifierFlags = (false, false);

const CTRL: ModifierFlags = (true, false);

const ALT: ModifierFlags = (false, true);

const BOTH: ModifierFlags = (true, true);

const ROW_DOWN: Scrolling = Scrolling::Delta { rows: 1, cols: 0 };

const ROW_UP: Scrolling = Scrolling::Delta { rows: -1, cols: 0 };

/// A key, and its action without Shift. With Shift, only the action's field for it differs.
type Asked = (Key, Action);

const NO_MODIFIERS: [Asked; 14] = [
    (Key::Char('a'), InsertChar('a')),
    (Key::Char('m'), InsertChar('m')),
    (Key::Char(' '), InsertChar(' ')),
    (Key::Char('\t'), InsertChar('\t')),
    (Key::Char('あ'), InsertChar('あ')),
    (Key::Char('\n'), InsertNewline),
    (Key::Char('\r'), InsertNewline),
    (Key::Tab, InsertTab),
    (Key::Backspace, DeleteChar),
    (Key::Delete, DeleteNextChar),
    (Key::Down, MoveWithShift(Down, false)),
    (Key::Up, MoveWithShift(Up, false)),
    (Key::Right, MoveWithShift(Forward, false)),
    (Key::Left, MoveWithShift(Back, false)),
];

const WITH_CTRL: [Asked; 33] = [
    (Key::Char('m'), InsertNewline),
    (Key::Char('h'), DeleteChar),
    (Key::Char('d'), DeleteNextChar),
    (Key::Char('k'), DeleteLineByEnd),
    (Key::Char('j'), DeleteLineByHead),
    (Key::Char('w'), DeleteWord),
    (Key::Char('n'), MoveWithShift(Down, false)),
    (Key::Char('p'), MoveWithShift(Up, false)),
    (Key::Char('f'), MoveWithShift(Forward, false)),
    (Key::Char('b'), MoveWithShift(Back, false)),
    (Key::Char('a'), MoveWithShift(Head, false)),
    (Key::Char('e'), MoveWithShift(End, false)),
    (Key::Char('u'), Undo),
    (Key::Char('r'), Redo),
    (Key::Char('y'), Paste),
    (Key::Char('x'), Cut),
    (Key::Char('c'), Copy),
    (Key::Char('v'), ScrollWithShift(Scrolling::PageDown, false)),
    (Key::Right, MoveWithShift(WordForward, false)),
    (Key::Left, MoveWithShift(WordBack, false)),
    (Key::Down, MoveWithShift(ParagraphForward, false)),
    (Key::Up, MoveWithShift(ParagraphBack, false)),
    (Key::Char('M'), Nothing),
    (Key::Char('H'), Nothing),
    (Key::Char('g'), Nothing),
    (Key::Char('z'), Nothing),
    (Key::Char('<'), Nothing),
    (Key::Char(']'), Nothing),
    (Key::Char('\n'), Nothing),
    (Key::Char('あ'), Nothing),
    (Key::Tab, Nothing),
    (Key::Backspace, Nothing),
    (Key::Delete, Nothing),
];

const WITH_ALT: [Asked; 23] = [
    (Key::Char('h'), DeleteWord),
    (Key::Backspace, DeleteWord),
    (Key::Char('d'), DeleteNextWord),
    (Key::Delete, DeleteNextWord),
    (Key::Char('<'), MoveWithShift(Top, false)),
    (Key::Char('>'), MoveWithShift(Bottom, false)),
    (Key::Char('f'), MoveWithShift(WordForward, false)),
    (Key::Char('b'), MoveWithShift(WordBack, false)),
    (Key::Char(']'), MoveWithShift(ParagraphForward, false)),
    (Key::Char('n'), MoveWithShift(ParagraphForward, false)),
    (Key::Char('['), MoveWithShift(ParagraphBack, false)),
    (Key::Char('p'), MoveWithShift(ParagraphBack, false)),
    (Key::Char('v'), ScrollWithShift(Scrolling::PageUp, false)),
    (Key::Char('m'), Nothing),
    (Key::Char('a'), Nothing),
    (Key::Char('u'), Nothing),
    (Key::Char('x'), Nothing),
    (Key::Char('\r'), Nothing),
    (Key::Tab, Nothing),
    (Key::Left, Nothing),
    (Key::Right, Nothing),
    (Key::Up, Nothing),
    (Key::Down, Nothing),
];

const WITH_CTRL_AND_ALT: [Asked; 16] = [
    (Key::Left, MoveWithShift(Head, false)),
    (Key::Char('b'), MoveWithShift(Head, false)),
    (Key::Right, MoveWithShift(End, false)),
    (Key::Char('f'), MoveWithShift(End, false)),
    (Key::Up, MoveWithShift(Top, false)),
    (Key::Char('p'), MoveWithShift(Top, false)),
    (Key::Down, MoveWithShift(Bottom, false)),
    (Key::Char('n'), MoveWithShift(Bottom, false)),
    (Key::Char('m'), Nothing),
    (Key::Char('h'), Nothing),
    (Key::Char('v'), Nothing),
    (Key::Char('<'), Nothing),
    (Key::Char('\n'), Nothing),
    (Key::Tab, Nothing),
    (Key::Backspace, Nothing),
    (Key::Delete, Nothing),
];

const ANY_MODIFIERS: [Asked; 13] = [
    (Key::Enter, InsertNewline),
    (Key::Home, MoveWithShift(Head, false)),
    (Key::End, MoveWithShift(End, false)),
    (Key::Paste, Paste),
    (Key::Cut, Cut),
    (Key::Copy, Copy),
    (Key::PageDown, ScrollWithShift(Scrolling::PageDown, false)),
    (Key::PageUp, ScrollWithShift(Scrolling::PageUp, false)),
    (Key::MouseScrollDown, ScrollWithShift(ROW_DOWN, false)),
    (Key::MouseScrollUp, ScrollWithShift(ROW_UP, false)),
    (Key::F(1), Nothing),
    (Key::Esc, Nothing),
    (Key::Null, Nothing),
];

const NO_MODIFIERS_WITHOUT_SHORTCUTS: [Asked; 4] = [
    (Key::Char('a'), InsertChar('a')),
    (Key::Char('\n'), InsertChar('\n')),
    (Key::Char('\r'), InsertChar('\r')),
    (Key::Tab, InsertTab),
];

const MODIFIERS_WITHOUT_SHORTCUTS: [Asked; 4] = [
    (Key::Char('a'), Nothing),
    (Key::Char('\n'), Nothing),
    (Key::Char('\r'), Nothing),
    (Key::Tab, Nothing),
];

const ANY_MODIFIERS_WITHOUT_SHORTCUTS: [Asked; 11] = [
    (Key::Backspace, DeleteChar),
    (Key::Delete, DeleteNextChar),
    (Key::Enter, InsertNewline),
    (Key::MouseScrollDown, Scroll(ROW_DOWN)),
    (Key::MouseScrollUp, Scroll(ROW_UP)),
    (Key::Left, Nothing),
    (Key::Home, Nothing),
    (Key::PageDown, Nothing),
    (Key::Paste, Nothing),
    (Key::F(1), Nothing),
    (Key::Null, Nothing),
];

/// Whether there are shortcuts, each combination of Ctrl and Alt, and keys.
type Keys = (bool, &'static [ModifierFlags], &'static [Asked]);

static KEYS: [Keys; 8] = [
    (true, &[PLAIN], &NO_MODIFIERS),
    (true, &[CTRL], &WITH_CTRL),
    (true, &[ALT], &WITH_ALT),
    (true, &[BOTH], &WITH_CTRL_AND_ALT),
    (true, &[PLAIN, CTRL, ALT, BOTH], &ANY_MODIFIERS),
    (false, &[PLAIN], &NO_MODIFIERS_WITHOUT_SHORTCUTS),
    (false, &[CTRL, ALT, BOTH], &MODIFIERS_WITHOUT_SHORTCUTS),
    (
        false,
        &[PLAIN, CTRL, ALT, BOTH],
        &ANY_MODIFIERS_WITHOUT_SHORTCUTS,
    ),
];

fn with_shift(action: Action) -> Action {
    match action {
        MoveWithShift(cursor_move, _) => MoveWithShift(cursor_move, true),
        ScrollWithShift(scrolling, _) => ScrollWithShift(scrolling, true),
        _ => action,
    }
}

fn action(has_shortcuts: bool, input: &Input) -> Action {
    if has_shortcuts {
        action_of(input)
    } else {
        action_without_shortcuts(input)
    }
}

// Checks the keys with each combination of Ctrl and Alt, with and without Shift.
fn check_keys(rt: &impl Abort, (has_shortcuts, all_modifiers, asked): &Keys) {
    for modifiers in *all_modifiers {
        for (key, wanted) in *asked {
            let single = action(
                *has_shortcuts,
                &pressed(*key, (modifiers.0, modifiers.1, false)),
            );
            let shifted = action(
                *has_shortcuts,
                &pressed(*key, (modifiers.0, modifiers.1, true)),
            );
            let wanted = (*wanted, with_shift(*wanted));
            assert_eq!(rt;
                (single, shifted),
                wanted,
                "{has_shortcuts}, {modifiers:?}, {key:?}"
            );
        }
    }
}

/// An action, and its results for a call that returned false and for one that returned true.
static FLAGS: [(Action, [bool; 2]); 18] = [
    (InsertChar('a'), [true, true]),
    (InsertNewline, [true, true]),
    (InsertTab, [false, true]),
    (DeleteChar, [false, true]),
    (DeleteNextChar, [false, true]),
    (DeleteLineByEnd, [false, true]),
    (DeleteLineByHead, [false, true]),
    (DeleteWord, [false, true]),
    (DeleteNextWord, [false, true]),
    (Undo, [false, true]),
    (Redo, [false, true]),
    (Paste, [false, true]),
    (Cut, [false, true]),
    (Copy, [false, false]),
    (MoveWithShift(Jump(1, 2), true), [false, false]),
    (ScrollWithShift(Scrolling::PageDown, false), [false, false]),
    (Scroll(Scrolling::HalfPageUp), [false, false]),
    (Nothing, [false, false]),
];

#[test]
fn keys_and_flags(rt: HostRuntime) -> Result<(), Fail> {
    for keys in &KEYS {
        check_keys(&rt, keys);
    }
    assert!(rt; action_of(&Input::default()) == Nothing);
    check_each(&rt, &FLAGS, |_, (action, wanted)| {
        Ok([action.flag(false), action.flag(true)] == *wanted)
    })
}

/// A character with the pressed modifiers, Shift last, and its action.
type Shortcut = (char, ModifierFlags, bool, Action);

/// Two shortcuts of a program's own; the second is set again.
static SET: [Shortcut; 3] = [
    ('z', CTRL, false, Undo),
    ('z', CTRL, true, Redo),
    ('z', CTRL, true, Paste),
];

static OWN: [Shortcut; 4] = [
    ('z', CTRL, false, Undo),
    ('z', CTRL, true, Paste),
    ('z', ALT, true, Nothing),
    ('z', PLAIN, false, InsertChar('z')),
];

/// Returns the action of an input in a program with shortcuts of its own.
fn own_action(own: &HashMap<Input, Action>, input: Input) -> Action {
    own.get(&input)
        .copied()
        .unwrap_or(action_without_shortcuts(&input))
}

#[test]
fn shortcuts_of_ones_own(rt: HostRuntime) -> Result<(), Fail> {
    let mut own = HashMap::new(rt.alloc());
    for (c, modifiers, shift, action) in &SET {
        own.insert(
            pressed(Key::Char(*c), (modifiers.0, modifiers.1, *shift)),
            *action,
        )?;
    }
    assert_eq!(rt; own.len(), 2);
    check_each(&rt, &OWN, |_, (c, modifiers, shift, wanted)| {
        Ok(
            own_action(
                &own,
                pressed(Key::Char(*c), (modifiers.0, modifiers.1, *shift)),
            ) == *wanted,
        )
    })
}

#[test]
fn printed_by_debug(rt: HostRuntime) -> Result<(), Fail> {
    let action = MoveWithShift(Down, true);
    let displayed = format!(in rt.alloc(); "{action:?}")?;
    assert!(rt; displayed.as_str() == "MoveWithShift(Down, true)");
    Ok(())
}
