//! What is at the front of bytes.

ghost use Rattle.std.specs.Prelude.{◌≡◌, ◌≢◌, ◌≤◌, ◌∷◌, length, take, Some, None};
ghost use Rattle.textarea_terminal.specs.InputReading.{Reads};
ghost use Rattle.textarea_terminal.specs.InputEvent.{unit_value, input};
ghost use Rattle.textarea_terminal.specs.InputStream.{found_value};
ghost use Rattle.textarea_terminal.specs.InputUnit.{key_at, character_event, single_at, with_escape, second_escape_at, alt_event, begins_string, escape_at, key_or_sequence, unit_at};

use crate::input::character::read_character;
use crate::input::event::Unit;
use crate::input::key::{alt_input, plain_input, single_byte, single_letter};
use crate::input::paste::{after_start, read_paste};
use crate::input::sequence::{read_bracket, read_control, read_string};
use crate::input::short::read_short;
use textarea_data::input::Key;

const ESCAPE: u8 = 0x1b;

/// What is at the front of bytes.
#[derive(Drop)]
pub enum Found<'a> {
    /// A pasted text.
    Paste(&'a [u8]),
    /// Anything else.
    Unit(Unit),
}

// A character from 128 on.
fn character_unit(character: char) -> Unit
    ensures { unit_value result ≡ character_event character }
{
    if u32::from(character) < 160 {
        Unit::Unknown
    } else {
        Unit::Input(plain_input(Key::Char(character)))
    }
}

// What is at a first byte that is not ESC, and the bytes after it.
#[inline]
#[tactic(auto, unfolding(crate::specs::InputUnit::key_at))]
fn read_key(first: u8, bytes: &[u8]) -> Option<(Unit, &[u8])>
    ensures { Reads (λ x. (unit_value x.0, x.1.now)) result (key_at first bytes.now) }
{
    if first < 128 {
        return Some((Unit::Input(single_byte(first)), bytes));
    }
    if first < 160 {
        return Some((Unit::Unknown, bytes));
    }
    let (character, rest) = read_character(first, bytes)?;
    Some((character_unit(character), rest))
}

// What begins with `ESC O`.
#[tactic(auto, unfolding(crate::specs::InputUnit::single_at))]
fn read_single(bytes: &[u8]) -> Option<(Unit, &[u8])>
    ensures { Reads (λ x. (unit_value x.0, x.1.now)) result (single_at bytes.now) }
{
    match bytes {
        [] => None,
        [letter, rest @ ..] => {
            if 48 <= *letter && *letter <= 59 {
                read_control(bytes)
            } else if 32 <= *letter && *letter <= 126 {
                Some((single_letter(*letter), rest))
            } else {
                let letter = alt_input(plain_input(Key::Char('O')));
                Some((Unit::Input(letter), bytes))
            }
        }
    }
}

// The event of a sequence with another ESC before it. Where that is Esc, the sequence is left.
fn escape_before<'a>(sequence: &'a [u8], unit: Unit, rest: &'a [u8]) -> (Unit, &'a [u8])
    ensures { (unit_value result.0, result.1.now)
        ≡ with_escape sequence.now (unit_value unit, rest.now) }
{
    match unit {
        Unit::Input(input) => (Unit::Input(alt_input(input)), rest),
        _ => (Unit::Input(plain_input(Key::Esc)), sequence),
    }
}

// What begins with two ESC. `second` begins at the second one, and `bytes` after it.
#[tactic(auto, unfolding(crate::specs::InputUnit::second_escape_at))]
fn read_twice_escaped<'a>(second: &'a [u8], bytes: &'a [u8]) -> Option<(Unit, &'a [u8])>
    ensures { Reads (λ x. (unit_value x.0, x.1.now)) result
        (second_escape_at second.now bytes.now) }
{
    match bytes {
        [] => None,
        [b'[', rest @ ..] => {
            let (unit, rest) = read_bracket(rest)?;
            Some(escape_before(second, unit, rest))
        }
        [b'O', rest @ ..] => {
            let (unit, rest) = read_single(rest)?;
            Some(escape_before(second, unit, rest))
        }
        [_, ..] => Some((Unit::Input(plain_input(Key::Esc)), second)),
    }
}

/// Whether a byte after ESC begins a string.
pub fn begins_string(byte: u8) -> bool
    ensures { result ≡ begins_string byte }
{
    byte == b'P' || byte == b'X' || (b']' <= byte && byte <= b'_')
}

// A key with an ESC before it.
fn alt_unit(unit: Unit) -> Unit
    ensures { unit_value result ≡ alt_event (unit_value unit) }
{
    match unit {
        Unit::Input(input) => Unit::Input(alt_input(input)),
        other => other,
    }
}

// What begins with ESC. Of the bytes after it, the first `begun` are known to end within it.
#[tactic(auto, unfolding(crate::specs::InputUnit::escape_at))]
fn read_escaped(bytes: &[u8], begun: usize) -> Option<(Unit, &[u8])>
    requires within { begun ≤ length bytes.now }
    requires begun { escape_at (take begun bytes.now) ≡ None }
    ensures { Reads (λ x. (unit_value x.0, x.1.now)) result (escape_at bytes.now) }
{
    match bytes {
        [] => None,
        [b'[', rest @ ..] => read_bracket(rest),
        [b'O', rest @ ..] => read_single(rest),
        [ESCAPE, rest @ ..] => read_twice_escaped(bytes, rest),
        [first, rest @ ..] => {
            if begins_string(*first) {
                return read_string(rest, begun.saturating_sub(2));
            }
            let (unit, rest) = read_key(*first, rest)?;
            Some((alt_unit(unit), rest))
        }
    }
}

// A key that begins with a byte other than ESC.
#[inline]
fn read_input(first: u8, bytes: &[u8]) -> Option<(Unit, &[u8])>
    requires { first ≢ 27 }
    ensures { Reads (λ x. (unit_value x.0, x.1.now)) result (unit_at (first ∷ bytes.now)) }
{
    match read_key(first, bytes) {
        Some((unit, rest)) => Some((unit, rest)),
        None => None,
    }
}

/// Returns the key or the sequence at the front of bytes, other than a pasted text, and the rest of
/// the bytes; `None` if more bytes are needed. The first `begun` bytes are known to end within it.
#[tactic(auto, unfolding(crate::specs::InputUnit::key_or_sequence))]
pub fn read_key_or_sequence(bytes: &[u8], begun: usize) -> Option<(Unit, &[u8])>
    requires within { begun ≤ length bytes.now }
    requires begun { key_or_sequence (take begun bytes.now) ≡ None }
    ensures { Reads (λ x. (unit_value x.0, x.1.now)) result (key_or_sequence bytes.now) }
{
    match bytes {
        [] => None,
        [ESCAPE, rest @ ..] => read_escaped(rest, begun.saturating_sub(1)),
        [first, rest @ ..] => read_key(*first, rest),
    }
}

// A pasted text, a key or a sequence. Of the bytes, the first `begun` are known to end within it.
fn read_escape(bytes: &[u8], begun: usize) -> Option<(Found<'_>, &[u8])>
    requires within { begun ≤ length bytes.now }
    requires begun { unit_at (take begun bytes.now) ≡ None }
    ensures { Reads (λ x. (found_value x.0, x.1.now)) result (unit_at bytes.now) }
{
    match after_start(bytes) {
        Some(text) => {
            let (text, rest) = read_paste(text, begun.saturating_sub(6))?;
            Some((Found::Paste(text), rest))
        }
        None => {
            let (unit, rest) = read_key_or_sequence(bytes, begun)?;
            Some((Found::Unit(unit), rest))
        }
    }
}

/// Returns what is at the front of bytes, and the rest of the bytes; `None` if more bytes are
/// needed.
///
/// The first `begun` bytes are known to be incomplete, so that a pasted text or a string is not
/// searched again.
pub fn read_unit(bytes: &[u8], begun: usize) -> Option<(Found<'_>, &[u8])>
    requires within { begun ≤ length bytes.now }
    requires begun { unit_at (take begun bytes.now) ≡ None }
    ensures { Reads (λ x. (found_value x.0, x.1.now)) result (unit_at bytes.now) }
{
    match bytes {
        [] => None,
        [ESCAPE, rest @ ..] => match read_short(rest) {
            Some((input, rest)) => Some((Found::Unit(Unit::Input(input)), rest)),
            None => read_escape(bytes, begun),
        },
        [first, rest @ ..] => {
            let (unit, rest) = read_input(*first, rest)?;
            Some((Found::Unit(unit), rest))
        }
    }
}
