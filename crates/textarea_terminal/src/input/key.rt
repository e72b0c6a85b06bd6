//! The keys of a terminal.

ghost use Rattle.std.specs.Prelude.{◌≡◌, ◌<◌};
ghost use Rattle.textarea_terminal.specs.InputEvent.{unit_value};
ghost use Rattle.textarea_data.specs.Input.{input_of_key};
ghost use Rattle.textarea_terminal.specs.InputKey.{ctrl_input, with_alt, has_modifier_bits, input_with, key_event, entry, letter_keys, numbered_keys, small_letter_keys, console_keys, keypad_keys, coded_keys, or_key, byte_input, single_event, is_typed_code, character_of_code, typed_event, coded_event};

use crate::input::event::Unit;
use textarea_data::input::{Input, Key};

/// The input of a key with no modifier.
#[inline]
pub fn plain_input(key: Key) -> Input
    ensures { result ≡ input_of_key key }
{
    Input {
        key,
        ctrl: false,
        alt: false,
        shift: false,
    }
}

fn control_input(character: u8) -> Input
    ensures { result ≡ ctrl_input character }
{
    Input {
        key: Key::Char(char::from(character)),
        ctrl: true,
        alt: false,
        shift: false,
    }
}

/// The same input with Alt.
#[inline]
pub fn alt_input(input: Input) -> Input
    ensures { result ≡ with_alt input }
{
    Input { alt: true, ..input }
}

// Whether a parameter of modifiers has some of these.
#[inline]
fn has_modifier_bits(parameter: u32, bits: u32) -> bool
    ensures { result ≡ has_modifier_bits parameter bits }
{
    parameter.saturating_sub(1) & bits != 0
}

/// The input of a key with the modifiers of a parameter, which is 1 plus 1 for Shift, 2 for Alt, 4
/// for Ctrl, and 8 and 32 for Meta and Super, which count as Alt. Parameter 0 is no modifier.
#[inline]
pub fn modified_input(key: Key, parameter: u32) -> Input
    ensures { result ≡ input_with key parameter }
{
    Input {
        key,
        ctrl: has_modifier_bits(parameter, 4),
        alt: has_modifier_bits(parameter, 42),
        shift: has_modifier_bits(parameter, 1),
    }
}

/// A key, if there is one, with the modifiers of a parameter.
pub fn pressed_key(key: Option<Key>, parameter: u32) -> Unit
    ensures { unit_value result ≡ key_event key parameter }
{
    match key {
        Some(key) => Unit::Input(modified_input(key, parameter)),
        None => Unit::Unknown,
    }
}

/// The key of a letter that ends a sequence.
pub fn letter_key(letter: u8) -> Option<Key>
    ensures { result ≡ entry letter_keys letter }
{
    match letter {
        b'A' => Some(Key::Up),
        b'B' => Some(Key::Down),
        b'C' => Some(Key::Right),
        b'D' => Some(Key::Left),
        b'F' => Some(Key::End),
        b'H' => Some(Key::Home),
        b'P' => Some(Key::F(1)),
        b'Q' => Some(Key::F(2)),
        b'R' => Some(Key::F(3)),
        b'S' => Some(Key::F(4)),
        _ => None,
    }
}

/// The key of a number before a final `~`.
pub fn numbered_key(number: u32) -> Option<Key>
    ensures { result ≡ entry numbered_keys number }
{
    match number {
        1 => Some(Key::Home),
        2 => Some(Key::Null),
        3 => Some(Key::Delete),
        4 => Some(Key::End),
        5 => Some(Key::PageUp),
        6 => Some(Key::PageDown),
        7 => Some(Key::Home),
        8 => Some(Key::End),
        11 => Some(Key::F(1)),
        12 => Some(Key::F(2)),
        13 => Some(Key::F(3)),
        14 => Some(Key::F(4)),
        15 => Some(Key::F(5)),
        17 => Some(Key::F(6)),
        18 => Some(Key::F(7)),
        19 => Some(Key::F(8)),
        20 => Some(Key::F(9)),
        21 => Some(Key::F(10)),
        23 => Some(Key::F(11)),
        24 => Some(Key::F(12)),
        25 => Some(Key::F(13)),
        26 => Some(Key::F(14)),
        28 => Some(Key::F(15)),
        29 => Some(Key::F(16)),
        31 => Some(Key::F(17)),
        32 => Some(Key::F(18)),
        33 => Some(Key::F(19)),
        34 => Some(Key::F(20)),
        _ => None,
    }
}

/// The arrow of a small letter (rxvt).
pub fn small_letter_key(letter: u8) -> Option<Key>
    ensures { result ≡ entry small_letter_keys letter }
{
    match letter {
        b'a' => Some(Key::Up),
        b'b' => Some(Key::Down),
        b'c' => Some(Key::Right),
        b'd' => Some(Key::Left),
        _ => None,
    }
}

/// The function key of a letter after `ESC [ [` (Linux console).
pub fn console_key(letter: u8) -> Option<Key>
    ensures { result ≡ entry console_keys letter }
{
    match letter {
        b'A' => Some(Key::F(1)),
        b'B' => Some(Key::F(2)),
        b'C' => Some(Key::F(3)),
        b'D' => Some(Key::F(4)),
        b'E' => Some(Key::F(5)),
        _ => None,
    }
}

/// The input of a byte below 128 that begins no sequence (C0 of ECMA-48, and ASCII).
#[inline]
pub fn single_byte(byte: u8) -> Input
    requires { byte < 128 }
    ensures { result ≡ byte_input byte }
{
    match byte {
        0 => control_input(b' '),
        8 => plain_input(Key::Backspace),
        9 => plain_input(Key::Tab),
        13 => plain_input(Key::Enter),
        127 => plain_input(Key::Backspace),
        1..=26 => control_input(byte + 96),
        27..=31 => control_input(byte + 64),
        _ => plain_input(Key::Char(char::from(byte))),
    }
}

/// The key of a letter of the keypad.
pub fn keypad_key(letter: u8) -> Option<Key>
    ensures { result ≡ entry keypad_keys letter }
{
    match letter {
        b' ' => Some(Key::Char(' ')),
        b'I' => Some(Key::Tab),
        b'M' => Some(Key::Enter),
        b'X' => Some(Key::Char('=')),
        b'j' => Some(Key::Char('*')),
        b'k' => Some(Key::Char('+')),
        b'l' => Some(Key::Char(',')),
        b'm' => Some(Key::Char('-')),
        b'n' => Some(Key::Char('.')),
        b'o' => Some(Key::Char('/')),
        b'p' => Some(Key::Char('0')),
        b'q' => Some(Key::Char('1')),
        b'r' => Some(Key::Char('2')),
        b's' => Some(Key::Char('3')),
        b't' => Some(Key::Char('4')),
        b'u' => Some(Key::Char('5')),
        b'v' => Some(Key::Char('6')),
        b'w' => Some(Key::Char('7')),
        b'x' => Some(Key::Char('8')),
        b'y' => Some(Key::Char('9')),
        _ => None,
    }
}

/// The key of a letter of the keypad, or of one that ends a sequence.
pub fn letter_or_keypad_key(letter: u8) -> Option<Key>
    ensures { result ≡ or_key (entry letter_keys letter) (entry keypad_keys letter) }
{
    match letter_key(letter) {
        Some(key) => Some(key),
        None => keypad_key(letter),
    }
}

/// What a byte after `ESC O` is.
pub fn single_letter(letter: u8) -> Unit
    ensures { unit_value result ≡ single_event letter }
{
    match letter {
        b'a'..=b'd' => pressed_key(small_letter_key(letter), 5),
        b'E' => Unit::Input(plain_input(Key::Char('5'))),
        _ => pressed_key(letter_or_keypad_key(letter), 1),
    }
}

// The key of a code (kitty, "Functional key definitions").
fn coded_key(code: u32) -> Option<Key>
    ensures { result ≡ entry coded_keys code }
{
    match code {
        8 => Some(Key::Backspace),
        9 => Some(Key::Tab),
        13 => Some(Key::Enter),
        27 => Some(Key::Esc),
        127 => Some(Key::Backspace),
        57376 => Some(Key::F(13)),
        57377 => Some(Key::F(14)),
        57378 => Some(Key::F(15)),
        57379 => Some(Key::F(16)),
        57380 => Some(Key::F(17)),
        57381 => Some(Key::F(18)),
        57382 => Some(Key::F(19)),
        57383 => Some(Key::F(20)),
        57384 => Some(Key::F(21)),
        57385 => Some(Key::F(22)),
        57386 => Some(Key::F(23)),
        57387 => Some(Key::F(24)),
        57388 => Some(Key::F(25)),
        57389 => Some(Key::F(26)),
        57390 => Some(Key::F(27)),
        57391 => Some(Key::F(28)),
        57392 => Some(Key::F(29)),
        57393 => Some(Key::F(30)),
        57394 => Some(Key::F(31)),
        57395 => Some(Key::F(32)),
        57396 => Some(Key::F(33)),
        57397 => Some(Key::F(34)),
        57398 => Some(Key::F(35)),
        57399 => Some(Key::Char('0')),
        57400 => Some(Key::Char('1')),
        57401 => Some(Key::Char('2')),
        57402 => Some(Key::Char('3')),
        57403 => Some(Key::Char('4')),
        57404 => Some(Key::Char('5')),
        57405 => Some(Key::Char('6')),
        57406 => Some(Key::Char('7')),
        57407 => Some(Key::Char('8')),
        57408 => Some(Key::Char('9')),
        57409 => Some(Key::Char('.')),
        57410 => Some(Key::Char('/')),
        57411 => Some(Key::Char('*')),
        57412 => Some(Key::Char('-')),
        57413 => Some(Key::Char('+')),
        57414 => Some(Key::Enter),
        57415 => Some(Key::Char('=')),
        57416 => Some(Key::Char(',')),
        57417 => Some(Key::Left),
        57418 => Some(Key::Right),
        57419 => Some(Key::Up),
        57420 => Some(Key::Down),
        57421 => Some(Key::PageUp),
        57422 => Some(Key::PageDown),
        57423 => Some(Key::Home),
        57424 => Some(Key::End),
        57425 => Some(Key::Null),
        57426 => Some(Key::Delete),
        _ => None,
    }
}

fn is_typed_code(code: u32) -> bool
    ensures { result ≡ is_typed_code code }
{
    (32 <= code && code <= 126)
        || (160 <= code && code <= 55_295)
        || (63_744 <= code && code <= 1_114_111)
}

// The character of a key by its code, its character with Shift, and its text, or 0 for each that
// isn't told.
fn character_of_code(code: u32, shifted: u32, text: u32, shift: bool) -> u32
    ensures { result ≡ character_of_code code shifted text shift }
{
    if text != 0 {
        text
    } else if !shift {
        code
    } else if shifted != 0 {
        shifted
    } else if 97 <= code && code <= 122 {
        code - 32
    } else {
        code
    }
}

// A character with modifiers.
fn typed(code: u32, modifiers: Input) -> Unit
    ensures { unit_value result ≡ typed_event code modifiers }
{
    if !is_typed_code(code) {
        return Unit::Unknown;
    }
    match char::from_u32(code) {
        Some(character) => Unit::Input(Input {
            key: Key::Char(character),
            ctrl: modifiers.ctrl,
            alt: modifiers.alt,
            shift: modifiers.shift && (modifiers.ctrl || modifiers.alt),
        }),
        None => Unit::Unknown,
    }
}

/// A key by its code, its character with Shift and its text, which are 0 if they aren't told, and a
/// parameter of modifiers (kitty, "CSI u"; xterm, "modifyOtherKeys").
#[tactic(auto, unfolding(crate::specs::InputKey::coded_event))]
pub fn coded_input(code: u32, shifted: u32, text: u32, parameter: u32) -> Unit
    ensures { unit_value result ≡ coded_event code shifted text parameter }
{
    match coded_key(code) {
        Some(key) => Unit::Input(modified_input(key, parameter)),
        None => {
            let shift = has_modifier_bits(parameter, 1);
            let character = character_of_code(code, shifted, text, shift);
            typed(character, modified_input(Key::Null, parameter))
        }
    }
}
