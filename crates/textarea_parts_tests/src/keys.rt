// The written forms of keys and inputs.
use crate::cases::check_each;
use crate::written::{check_forms, check_rejected, is_form};
use std::process::Abort;
use std::test::Fail;
use textarea_data::input::{Input, Key};

/// Different keys, and their forms.
pub static KEYS: [(Key, &str); 27] = [
    (Key::Char('a'), r#"{"Char":"a"}"#),
    (Key::Char('b'), r#"{"Char":"b"}"#),
    (Key::Char('"'), r#"{"Char":"\""}"#),
    (Key::Char('犬'), r#"{"Char":"犬"}"#),
    (Key::F(0), r#"{"F":0}"#),
    (Key::F(97), r#"{"F":97}"#),
    (Key::F(98), r#"{"F":98}"#),
    (Key::F(255), r#"{"F":255}"#),
    (Key::Backspace, r#""Backspace""#),
    (Key::Enter, r#""Enter""#),
    (Key::Left, r#""Left""#),
    (Key::Right, r#""Right""#),
    (Key::Up, r#""Up""#),
    (Key::Down, r#""Down""#),
    (Key::Tab, r#""Tab""#),
    (Key::Delete, r#""Delete""#),
    (Key::Home, r#""Home""#),
    (Key::End, r#""End""#),
    (Key::PageUp, r#""PageUp""#),
    (Key::PageDown, r#""PageDown""#),
    (Key::Esc, r#""Esc""#),
    (Key::Copy, r#""Copy""#),
    (Key::Cut, r#""Cut""#),
    (Key::Paste, r#""Paste""#),
    (Key::MouseScrollDown, r#""MouseScrollDown""#),
    (Key::MouseScrollUp, r#""MouseScrollUp""#),
    (Key::Null, r#""Null""#),
];

static NO_KEYS: [&str; 11] = [
    "",
    "null",
    "13",
    r#""Enters""#,
    r#""enter""#,
    r#""Char""#,
    r#""F""#,
    r#"{"Char":""}"#,
    r#"{"Char":"ab"}"#,
    r#"{"F":256}"#,
    r#"{"F":1,"Char":"a"}"#,
];

/// Whether Ctrl, Alt and Shift are pressed.
pub type ModifierFlags = (bool, bool, bool);

pub fn pressed(key: Key, (ctrl, alt, shift): ModifierFlags) -> Input {
    Input {
        key,
        ctrl,
        alt,
        shift,
    }
}

/// A key, the pressed modifiers, and the form of that input.
static INPUTS: [(Key, ModifierFlags, &str); 4] = [
    (
        Key::Esc,
        (true, false, false),
        r#"{"key":"Esc","ctrl":true,"alt":false,"shift":false}"#,
    ),
    (
        Key::Char('x'),
        (false, true, false),
        r#"{"key":{"Char":"x"},"ctrl":false,"alt":true,"shift":false}"#,
    ),
    (
        Key::F(12),
        (false, false, true),
        r#"{"key":{"F":12},"ctrl":false,"alt":false,"shift":true}"#,
    ),
    (
        Key::Null,
        (false, false, false),
        r#"{"key":"Null","ctrl":false,"alt":false,"shift":false}"#,
    ),
];

static NO_INPUTS: [&str; 5] = [
    r#""Esc""#,
    "{}",
    r#"{"key":"Esc","ctrl":true,"alt":false}"#,
    r#"{"key":"Escape","ctrl":true,"alt":false,"shift":true}"#,
    r#"{"key":"Esc","ctrl":1,"alt":false,"shift":true}"#,
];

pub fn check(rt: &(impl Abort + AllocGlobal)) -> Result<(), Fail> {
    check_forms(rt, &KEYS, &NO_KEYS);
    check_rejected::<Input>(rt, &NO_INPUTS);
    check_each(rt, &INPUTS, |alloc, (key, modifiers, form)| {
        Ok(is_form(alloc, &pressed(*key, *modifiers), form))
    })
}
