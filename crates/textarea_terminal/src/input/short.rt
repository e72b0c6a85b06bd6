//! The keys that are decoded fastest: characters of ASCII, and the short sequences of most other
//! keys.

ghost use Rattle.std.specs.Prelude.{◌≡◌, ◌≢◌, ◌≤◌, ◌-◌, ◌∷◌, ◌++◌, List, ℕ, Some, true, IfSome};
ghost use Rattle.textarea_terminal.specs.InputEvent.{input};
ghost use Rattle.textarea_terminal.specs.InputParameter.{is_digit};
ghost use Rattle.textarea_terminal.specs.InputSequence.{event_of_two, is_final};
ghost use Rattle.textarea_terminal.specs.InputShort.{AreDigits};
ghost use Rattle.textarea_terminal.specs.InputUnit.{unit_at};

use crate::input::key::{letter_key, modified_input, numbered_key, plain_input};
use textarea_data::input::{Input, Key};

const ESCAPE: u8 = 0x1b;

// The key of a number, a modifier parameter and a final byte.
#[inline]
fn modified_key(number: u8, parameter: u8, last: u8) -> Option<Input>
    requires { (2 ≤ parameter) × (parameter ≤ 8) }
    ensures event { IfSome result (λ i. event_of_two number parameter last ≡ input i) }
    ensures end { IfSome result (λ i. (is_final last ≡ true) × (last ≢ 117)) }
{
    if last == b'~' {
        let key = numbered_key(u32::from(number))?;
        return Some(modified_input(key, u32::from(parameter)));
    }
    if number != 1 {
        return None;
    }
    let lettered = letter_key(last)?;
    let input = modified_input(lettered, u32::from(parameter));
    Some(input)
}

// The key of a sequence by the bytes after `ESC [`, the digits of a number and a semicolon, and the
// rest of the bytes.
#[inline]
fn read_modified(number: u8, bytes: &[u8]) -> Option<(Input, &[u8])>
    ensures { IfSome result (λ x. (digits : List ℕ) → AreDigits digits number
        → unit_at (27 ∷ 91 ∷ (digits ++ 59 ∷ bytes.now)) ≡ Some (input x.0, x.1.now)) }
{
    let (digit, after) = bytes.split_first()?;
    if *digit < b'2' || b'8' < *digit {
        return None;
    }
    let (last, rest) = after.split_first()?;
    let key = modified_key(number, *digit - b'0', *last)?;
    Some((key, rest))
}

// The key of a sequence by the bytes after `ESC [` and the digits of a number, and the rest of the
// bytes.
#[inline]
fn read_numbered(number: u8, bytes: &[u8]) -> Option<(Input, &[u8])>
    ensures { IfSome result (λ x. (digits : List ℕ) → AreDigits digits number
        → unit_at (27 ∷ 91 ∷ (digits ++ bytes.now)) ≡ Some (input x.0, x.1.now)) }
{
    let (byte, rest) = bytes.split_first()?;
    if *byte == b'~' {
        let key = numbered_key(u32::from(number))?;
        return Some((plain_input(key), rest));
    }
    if *byte != b';' {
        return None;
    }
    let (key, after) = read_modified(number, rest)?;
    Some((key, after))
}

// Whether a byte is a decimal digit.
#[inline]
fn is_digit(byte: u8) -> bool
    ensures { result ≡ is_digit byte }
{
    b'0' <= byte && byte <= b'9'
}

// The key of a sequence by the bytes after `ESC [` and a digit, and the rest of the bytes.
#[inline]
fn read_digits(digit: u8, bytes: &[u8]) -> Option<(Input, &[u8])>
    requires { is_digit digit ≡ true }
    ensures { IfSome result (λ x.
        unit_at (27 ∷ 91 ∷ digit ∷ bytes.now) ≡ Some (input x.0, x.1.now)) }
{
    let (second, after) = bytes.split_first()?;
    if is_digit(*second) {
        let number = 10 * (digit - b'0') + (*second - b'0');
        let (key, rest) = read_numbered(number, after)?;
        return Some((key, rest));
    }
    let (numbered, rest) = read_numbered(digit - b'0', bytes)?;
    Some((numbered, rest))
}

// The key of a sequence by the bytes after `ESC [`, and the rest of the bytes.
#[inline]
fn read_bracketed(bytes: &[u8]) -> Option<(Input, &[u8])>
    ensures { IfSome result (λ x. unit_at (27 ∷ 91 ∷ bytes.now) ≡ Some (input x.0, x.1.now)) }
{
    let (byte, rest) = bytes.split_first()?;
    if is_digit(*byte) {
        let (key, others) = read_digits(*byte, rest)?;
        return Some((key, others));
    }
    let lettered = letter_key(*byte)?;
    Some((plain_input(lettered), rest))
}

/// Returns the key of a short sequence by the bytes after its ESC, and the rest of the bytes.
/// `None` says nothing about the bytes.
#[inline]
pub fn read_short(bytes: &[u8]) -> Option<(Input, &[u8])>
    ensures { IfSome result (λ x. unit_at (27 ∷ bytes.now) ≡ Some (input x.0, x.1.now)) }
{
    let (introducer, after) = bytes.split_first()?;
    if *introducer == b'[' {
        let (key, rest) = read_bracketed(after)?;
        return Some((key, rest));
    }
    if *introducer != b'O' {
        return None;
    }
    let (letter, rest) = after.split_first()?;
    let lettered = letter_key(*letter)?;
    Some((plain_input(lettered), rest))
}

/// Returns the key at the front of bytes, if it is a character from a space to `~` or a short
/// sequence, and the rest of the bytes. `None` says nothing about the bytes.
#[inline]
pub fn read_quick(bytes: &[u8]) -> Option<(Input, &[u8])>
    ensures { IfSome result (λ x. unit_at bytes.now ≡ Some (input x.0, x.1.now)) }
{
    let (byte, rest) = bytes.split_first()?;
    if 32 <= *byte && *byte <= 126 {
        let key = Key::Char(char::from(*byte));
        return Some((plain_input(key), rest));
    }
    if *byte != ESCAPE {
        return None;
    }
    let (key, after) = read_short(rest)?;
    Some((key, after))
}
