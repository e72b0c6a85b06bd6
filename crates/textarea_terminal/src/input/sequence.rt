//! Control sequences (ECMA-48, 5.4), which begin with `ESC [`, and strings (5.6).

ghost use Rattle.std.specs.Prelude.{◌≡◌, ◌≤◌, ◌<◌, ◌-◌, length, take, IfSome};
ghost use Rattle.std.specs.Int.{IsInRange};
ghost use Rattle.textarea_terminal.specs.InputReading.{Reads};
ghost use Rattle.textarea_terminal.specs.InputEvent.{unit_value};
ghost use Rattle.textarea_terminal.specs.InputKey.{entry, numbered_keys};
ghost use Rattle.textarea_terminal.specs.InputSequence.{letter_event, event_of_one, event_of_two, event_of_three, event_of_more, event_by_count, event_of, mouse_event_of, cursor_event, reply_event_of, sequence_event, is_inner, is_text, count_front, inner_limit, text_limit, broken_event, console_at, value_of_two, value_at, second_value, third_value, old_mouse_at, final_at, after_inner, control_at, shift_key, shift_key_after_two, shift_key_after_one, shift_key_at, bracket_at, after_text_escape, after_text, string_at};

use crate::input::event::Unit;
use crate::input::key::{
    alt_input, coded_input, console_key, letter_key, letter_or_keypad_key, modified_input,
    numbered_key, plain_input, pressed_key, small_letter_key,
};
use crate::input::mouse::{read_mouse, read_old_mouse};
use crate::input::parameter::{Parameters, clamped_to_u16, read_parameters};
use textarea_data::input::{Input, Key};

/// One more than the greatest number of bytes between `ESC [` and the final byte.
pub const INNER_LIMIT: usize = 4094;

/// One more than the greatest number of bytes of a string between its introducer and its end.
pub const TEXT_LIMIT: usize = 1_048_574;

fn letter(last: u8) -> Unit
    ensures { unit_value result ≡ letter_event last }
{
    match last {
        b'I' => Unit::FocusGained,
        b'O' => Unit::FocusLost,
        b'Z' => Unit::Input(modified_input(Key::Tab, 2)),
        b'a'..=b'd' => pressed_key(small_letter_key(last), 2),
        _ => pressed_key(letter_key(last), 1),
    }
}

#[tactic(auto, unfolding(crate::specs::InputSequence::event_of_one))]
fn one(number: u32, last: u8) -> Unit
    ensures { unit_value result ≡ event_of_one number last }
{
    match last {
        b'~' => pressed_key(numbered_key(number), 1),
        b'^' => pressed_key(numbered_key(number), 5),
        b'@' => pressed_key(numbered_key(number), 6),
        _ => {
            if number <= 1 {
                letter(last)
            } else {
                pressed_key(letter_key(last), number)
            }
        }
    }
}

#[tactic(auto, unfolding(crate::specs::InputSequence::event_of_two))]
fn two(first: u32, second: u32, last: u8) -> Unit
    ensures { unit_value result ≡ event_of_two first second last }
{
    if last == b'~' {
        pressed_key(numbered_key(first), second)
    } else if first != 1 {
        Unit::Unknown
    } else if last == b'Z' {
        let input = modified_input(Key::Tab, second);
        Unit::Input(Input {
            shift: true,
            ..input
        })
    } else {
        pressed_key(letter_or_keypad_key(last), second)
    }
}

#[tactic(auto, unfolding(crate::specs::InputSequence::event_of_three))]
fn three(first: u32, second: u32, third: u32, last: u8) -> Unit
    ensures { unit_value result ≡ event_of_three first second third last }
{
    if last == b'M' {
        read_old_mouse(first, second, third)
    } else if last == b'~' && first == 27 {
        coded_input(third, 0, 0, second)
    } else if last == b't' && first == 8 {
        Unit::Size {
            columns: clamped_to_u16(third),
            rows: clamped_to_u16(second),
        }
    } else {
        Unit::Unknown
    }
}

#[tactic(auto, unfolding(crate::specs::InputSequence::event_of_more))]
fn more(first: u32, second: u32, third: u32, last: u8) -> Unit
    ensures { unit_value result ≡ event_of_more first second third last }
{
    if last == b't' && first == 48 {
        Unit::Resized {
            columns: clamped_to_u16(third),
            rows: clamped_to_u16(second),
        }
    } else {
        Unit::Unknown
    }
}

fn by_count(parameters: &Parameters, last: u8) -> Unit
    ensures { unit_value result ≡ event_by_count parameters.now last }
{
    let (first, second, third) = (parameters.first, parameters.second, parameters.third);
    match parameters.count {
        1 => one(first, last),
        2 => two(first, second, last),
        3 => three(first, second, third, last),
        _ => more(first, second, third, last),
    }
}

#[tactic(auto, unfolding(crate::specs::InputSequence::event_of))]
fn by_parameters(parameters: &Parameters, last: u8) -> Unit
    ensures { unit_value result ≡ event_of parameters.now last }
{
    if parameters.count == 0 {
        return Unit::Unknown;
    }
    if parameters.kind == 3 {
        return Unit::Released;
    }
    if last != b'u' || parameters.first == 1 {
        return by_count(parameters, last);
    }
    if parameters.count == 4 {
        return Unit::Unknown;
    }
    let (first, second, third) = (parameters.first, parameters.second, parameters.third);
    coded_input(first, parameters.shifted, third, second)
}

fn mouse(parameters: &Parameters, last: u8) -> Unit
    ensures { unit_value result ≡ mouse_event_of parameters.now last }
{
    if parameters.count != 3 {
        return Unit::Unknown;
    }
    read_mouse(parameters.first, parameters.second, parameters.third, last)
}

fn cursor(row: u32, column: u32) -> Unit
    ensures { unit_value result ≡ cursor_event row column }
{
    if row == 0 || column == 0 {
        return Unit::Unknown;
    }
    Unit::Cursor {
        column: clamped_to_u16(column) - 1,
        row: clamped_to_u16(row) - 1,
    }
}

fn reply(parameters: &Parameters, last: u8) -> Unit
    ensures { unit_value result ≡ reply_event_of parameters.now last }
{
    if last == b'R' && (parameters.count == 2 || parameters.count == 3) {
        cursor(parameters.first, parameters.second)
    } else {
        Unit::Unknown
    }
}

#[inline(always)]
#[tactic(auto, unfolding(crate::specs::InputSequence::sequence_event))]
fn by_bytes(inner: &[u8], last: u8) -> Unit
    ensures { unit_value result ≡ sequence_event inner.now last }
{
    match inner {
        [b'<', rest @ ..] => mouse(&read_parameters(rest), last),
        [b'?', rest @ ..] => reply(&read_parameters(rest), last),
        _ => by_parameters(&read_parameters(inner), last),
    }
}

fn may_be_inner(byte: u8) -> bool
    ensures { result ≡ is_inner byte }
{
    32 <= byte && byte <= 63
}

// The number of bytes at the front that are parameters or intermediate bytes, at most the limit.
fn inner_len(bytes: &[u8]) -> usize
    ensures count { result ≡ count_front is_inner inner_limit bytes.now }
    ensures within { result ≤ length bytes.now }
    ensures limit { result ≤ inner_limit }
{
    let mut len = 0usize;
    for byte in bytes {
        if len == INNER_LIMIT {
            return len;
        }
        if !may_be_inner(*byte) {
            return len;
        }
        len += 1;
    }
    len
}

// What begins after `ESC [ [`.
#[tactic(auto, unfolding(crate::specs::InputSequence::console_at))]
fn read_console(bytes: &[u8]) -> Option<(Unit, &[u8])>
    ensures { Reads (λ x. (unit_value x.0, x.1.now)) result (console_at bytes.now) }
{
    match bytes {
        [] => None,
        [letter, rest @ ..] => {
            if 32 <= *letter && *letter <= 126 {
                Some((pressed_key(console_key(*letter), 1), rest))
            } else {
                Some((Unit::Unknown, bytes))
            }
        }
    }
}

// A number of two bytes, or of the first one.
#[tactic(auto, unfolding(crate::specs::InputSequence::value_of_two))]
fn read_two(first: u8, bytes: &[u8]) -> Option<(u32, &[u8])>
    requires { IsInRange 0xC2 0xDF first }
    ensures { Reads (λ x. (x.0, x.1.now)) result (value_of_two first bytes.now) }
{
    match bytes {
        [] => None,
        [second, rest @ ..] => {
            if 0x80 <= *second && *second <= 0xBF {
                let high = u32::from(first - 0xC0) * 64;
                Some((high + u32::from(*second - 0x80), rest))
            } else {
                Some((u32::from(first), bytes))
            }
        }
    }
}

// A number of a mouse's report in bytes, and the rest of the bytes.
#[tactic(auto, unfolding(crate::specs::InputSequence::value_at))]
fn read_value(bytes: &[u8]) -> Option<(u32, &[u8])>
    ensures { Reads (λ x. (x.0, x.1.now)) result (value_at bytes.now) }
{
    match bytes {
        [] => None,
        [first, rest @ ..] => {
            if 0xC2 <= *first && *first <= 0xDF {
                read_two(*first, rest)
            } else {
                Some((u32::from(*first), rest))
            }
        }
    }
}

fn read_third_value(code: u32, column: u32, bytes: &[u8]) -> Option<(Unit, &[u8])>
    ensures { Reads (λ x. (unit_value x.0, x.1.now)) result
        (third_value code column (value_at bytes.now)) }
{
    let (row, rest) = read_value(bytes)?;
    let column = column.saturating_sub(32);
    Some((read_old_mouse(code, column, row.saturating_sub(32)), rest))
}

fn read_second_value(code: u32, bytes: &[u8]) -> Option<(Unit, &[u8])>
    ensures { Reads (λ x. (unit_value x.0, x.1.now)) result
        (second_value code (value_at bytes.now)) }
{
    let (column, rest) = read_value(bytes)?;
    read_third_value(code, column, rest)
}

// A mouse's report in three numbers (X10, and mode 1005).
#[tactic(auto, unfolding(crate::specs::InputSequence::old_mouse_at))]
fn read_mouse_bytes(bytes: &[u8]) -> Option<(Unit, &[u8])>
    ensures { Reads (λ x. (unit_value x.0, x.1.now)) result (old_mouse_at bytes.now) }
{
    let (code, rest) = read_value(bytes)?;
    read_second_value(code, rest)
}

// What ends in a final byte, before more bytes.
#[tactic(auto, unfolding(crate::specs::InputSequence::final_at))]
fn read_ended<'a>(inner: &[u8], last: u8, rest: &'a [u8]) -> Option<(Unit, &'a [u8])>
    ensures { Reads (λ x. (unit_value x.0, x.1.now)) result (final_at inner.now last rest.now) }
{
    if !inner.is_empty() {
        return Some((by_bytes(inner, last), rest));
    }
    match last {
        b'[' => read_console(rest),
        b'M' => read_mouse_bytes(rest),
        _ => Some((by_bytes(inner, last), rest)),
    }
}

fn broken(inner: &[u8]) -> Unit
    ensures { unit_value result ≡ broken_event inner.now }
{
    match inner {
        [] => Unit::Input(alt_input(plain_input(Key::Char('[')))),
        [_, ..] => Unit::Unknown,
    }
}

#[tactic(auto, unfolding(crate::specs::InputSequence::after_inner))]
fn read_after_inner<'a>(inner: &[u8], rest: &'a [u8]) -> Option<(Unit, &'a [u8])>
    ensures { Reads (λ x. (unit_value x.0, x.1.now)) result (after_inner inner.now rest.now) }
{
    match rest {
        [] => None,
        [last, after @ ..] => {
            if 64 <= *last && *last <= 126 {
                read_ended(inner, *last, after)
            } else {
                Some((broken(inner), rest))
            }
        }
    }
}

/// Returns the event of the control sequence whose bytes after its introducer are these, and the
/// rest of the bytes; `None` if more bytes are needed.
#[tactic(auto, unfolding(crate::specs::InputSequence::control_at))]
pub fn read_control(bytes: &[u8]) -> Option<(Unit, &[u8])>
    ensures { Reads (λ x. (unit_value x.0, x.1.now)) result (control_at bytes.now) }
{
    let len = inner_len(bytes);
    let (inner, rest) = bytes.split_at(len);
    if len == INNER_LIMIT {
        Some((Unit::Unknown, rest))
    } else {
        read_after_inner(inner, rest)
    }
}

fn shift_key_event(number: u8, rest: &[u8]) -> Option<(Unit, &[u8])>
    ensures { Reads (λ x. (unit_value x.0, x.1.now)) result
        (shift_key (entry numbered_keys number) rest.now) }
{
    match numbered_key(u32::from(number)) {
        Some(key) => Some((Unit::Input(modified_input(key, 2)), rest)),
        None => None,
    }
}

#[tactic(auto, unfolding(crate::specs::InputSequence::shift_key_after_two))]
fn read_shifted_after_two(number: u8, bytes: &[u8]) -> Option<(Unit, &[u8])>
    ensures { Reads (λ x. (unit_value x.0, x.1.now)) result (shift_key_after_two number bytes.now) }
{
    match bytes {
        [b'$', rest @ ..] => shift_key_event(number, rest),
        _ => None,
    }
}

#[tactic(auto, unfolding(crate::specs::InputSequence::shift_key_after_one))]
fn read_shifted_after_one(number: u8, bytes: &[u8]) -> Option<(Unit, &[u8])>
    requires { number < 10 }
    ensures { Reads (λ x. (unit_value x.0, x.1.now)) result (shift_key_after_one number bytes.now) }
{
    match bytes {
        [b'$', rest @ ..] => shift_key_event(number, rest),
        [digit @ b'0'..=b'9', rest @ ..] => {
            read_shifted_after_two(10 * number + (*digit - b'0'), rest)
        }
        _ => None,
    }
}

// A key of rxvt with Shift, which ends in `$`.
#[tactic(auto, unfolding(crate::specs::InputSequence::shift_key_at))]
fn read_shifted(bytes: &[u8]) -> Option<(Unit, &[u8])>
    ensures { Reads (λ x. (unit_value x.0, x.1.now)) result (shift_key_at bytes.now) }
{
    match bytes {
        [digit @ b'0'..=b'9', rest @ ..] => read_shifted_after_one(*digit - b'0', rest),
        _ => None,
    }
}

/// Returns the event of the control sequence whose bytes after `ESC [` are these, and the rest of
/// the bytes; `None` if more bytes are needed.
#[tactic(auto, unfolding(crate::specs::InputSequence::bracket_at))]
pub fn read_bracket(bytes: &[u8]) -> Option<(Unit, &[u8])>
    ensures { Reads (λ x. (unit_value x.0, x.1.now)) result (bracket_at bytes.now) }
{
    match read_shifted(bytes) {
        Some(found) => Some(found),
        None => read_control(bytes),
    }
}

// Whether a byte is one of a string's.
fn may_be_text(byte: u8) -> bool
    ensures { result ≡ is_text byte }
{
    byte != 7 && byte != 27
}

// The number of bytes at the front that are a string's, at most the limit. The first `begun` are
// known to be.
fn text_len(bytes: &[u8], begun: usize) -> usize
    requires within { begun ≤ length bytes.now }
    requires begun { begun ≤ count_front is_text text_limit bytes.now }
    ensures count { result ≡ count_front is_text text_limit bytes.now }
    ensures within { result ≤ length bytes.now }
    ensures limit { result ≤ text_limit }
{
    let (_, rest) = bytes.split_at(begun);
    let mut len = begun;
    for byte in rest {
        if len == TEXT_LIMIT {
            return len;
        }
        if !may_be_text(*byte) {
            return len;
        }
        len += 1;
    }
    len
}

// The end of a string by the bytes after an ESC in it, which is the first of `bytes`.
#[tactic(auto, unfolding(crate::specs::InputSequence::after_text_escape))]
fn read_after_escape<'a>(bytes: &'a [u8], after: &'a [u8]) -> Option<(Unit, &'a [u8])>
    ensures { Reads (λ x. (unit_value x.0, x.1.now)) result
        (after_text_escape bytes.now after.now) }
{
    match after {
        [] => None,
        [second, rest @ ..] => {
            if *second == b'\\' {
                Some((Unit::Unknown, rest))
            } else {
                Some((Unit::Unknown, bytes))
            }
        }
    }
}

#[tactic(auto, unfolding(crate::specs::InputSequence::after_text))]
fn read_after_text(bytes: &[u8]) -> Option<(Unit, &[u8])>
    ensures { Reads (λ x. (unit_value x.0, x.1.now)) result (after_text bytes.now) }
{
    match bytes {
        [] => None,
        [first, rest @ ..] => {
            if *first == 7 {
                Some((Unit::Unknown, rest))
            } else {
                read_after_escape(bytes, rest)
            }
        }
    }
}

/// Returns the event of the string whose bytes after its introducer are these, and the rest of the
/// bytes; `None` if more bytes are needed. The first `begun` bytes are known to be the string's.
#[tactic(auto, unfolding(crate::specs::InputSequence::string_at))]
pub fn read_string(bytes: &[u8], begun: usize) -> Option<(Unit, &[u8])>
    requires within { begun ≤ length bytes.now }
    requires begun { begun ≤ count_front is_text text_limit bytes.now }
    ensures { Reads (λ x. (unit_value x.0, x.1.now)) result (string_at bytes.now) }
{
    let len = text_len(bytes, begun);
    let (_, rest) = bytes.split_at(len);
    if len == TEXT_LIMIT {
        Some((Unit::Unknown, rest))
    } else {
        read_after_text(rest)
    }
}
