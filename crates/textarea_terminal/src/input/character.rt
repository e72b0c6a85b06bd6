//! Characters in UTF-8, read from the front of bytes.

ghost use Rattle.std.specs.Prelude.{◌≡◌, true};
ghost use Rattle.std.specs.Char.{IsScalar};
ghost use Rattle.std.specs.Int.{IsInRange};
ghost use Rattle.textarea_terminal.specs.InputReading.{Reads};
ghost use Rattle.textarea_terminal.specs.InputCharacter.{utf8_character, second_byte, third_byte, fourth_byte, code_of_two, code_of_three, code_of_four, is_second, is_continuation};

// The character of a scalar value.
fn scalar(code: u32) -> char
    requires { IsScalar code }
    ensures { result ≡ code }
{
    char::from_u32(code).unwrap()
}

// Whether a byte may be the second one after this first one (RFC 3629).
fn may_be_second(first: u8, second: u8) -> bool
    ensures { result ≡ is_second first second }
{
    match first {
        0xE0 => 0xA0 <= second && second <= 0xBF,
        0xED => 0x80 <= second && second <= 0x9F,
        0xF0 => 0x90 <= second && second <= 0xBF,
        0xF4 => 0x80 <= second && second <= 0x8F,
        _ => 0x80 <= second && second <= 0xBF,
    }
}

// Whether a byte may be the third or fourth one.
fn may_continue(byte: u8) -> bool
    ensures { result ≡ is_continuation byte }
{
    0x80 <= byte && byte <= 0xBF
}

// The character of two bytes.
fn two_bytes(first: u8, second: u8) -> char
    requires first { IsInRange 0xC2 0xDF first }
    requires second { is_second first second ≡ true }
    ensures { result ≡ code_of_two first second }
{
    scalar(u32::from(first - 0xC0) * 64 + u32::from(second - 0x80))
}

// The character of three bytes.
fn three_bytes(first: u8, second: u8, third: u8) -> char
    requires first { IsInRange 0xE0 0xEF first }
    requires second { is_second first second ≡ true }
    requires third { is_continuation third ≡ true }
    ensures { result ≡ code_of_three first second third }
{
    let high = u32::from(first - 0xE0) * 4096 + u32::from(second - 0x80) * 64;
    scalar(high + u32::from(third - 0x80))
}

// The character of four bytes.
fn four_bytes(first: u8, second: u8, third: u8, fourth: u8) -> char
    requires first { IsInRange 0xF0 0xF4 first }
    requires second { is_second first second ≡ true }
    requires third { is_continuation third ≡ true }
    requires fourth { is_continuation fourth ≡ true }
    ensures { result ≡ code_of_four first second third fourth }
{
    let high = u32::from(first - 0xF0) * 262144 + u32::from(second - 0x80) * 4096;
    scalar(high + u32::from(third - 0x80) * 64 + u32::from(fourth - 0x80))
}

/// Returns the character of a first byte from 128 on and the bytes after it, and the rest of the
/// bytes; `None` if more bytes are needed. Invalid UTF-8 is U+FFFD, one for each maximal subpart
/// (Unicode, "U+FFFD Substitution of Maximal Subparts").
pub fn read_character(first: u8, bytes: &[u8]) -> Option<(char, &[u8])>
    ensures { Reads (λ x. (x.0, x.1.now)) result (utf8_character first bytes.now) }
{
    if 0xC2 <= first && first <= 0xF4 {
        read_second(first, bytes)
    } else {
        Some((char::REPLACEMENT_CHARACTER, bytes))
    }
}

fn read_second(first: u8, bytes: &[u8]) -> Option<(char, &[u8])>
    requires { IsInRange 0xC2 0xF4 first }
    ensures { Reads (λ x. (x.0, x.1.now)) result (second_byte first bytes.now) }
{
    match bytes {
        [] => None,
        [second, rest @ ..] => {
            if !may_be_second(first, *second) {
                Some((char::REPLACEMENT_CHARACTER, bytes))
            } else if first < 0xE0 {
                Some((two_bytes(first, *second), rest))
            } else {
                read_third(first, *second, rest)
            }
        }
    }
}

fn read_third(first: u8, second: u8, bytes: &[u8]) -> Option<(char, &[u8])>
    requires first { IsInRange 0xE0 0xF4 first }
    requires second { is_second first second ≡ true }
    ensures { Reads (λ x. (x.0, x.1.now)) result (third_byte first second bytes.now) }
{
    match bytes {
        [] => None,
        [third, rest @ ..] => {
            if !may_continue(*third) {
                Some((char::REPLACEMENT_CHARACTER, bytes))
            } else if first < 0xF0 {
                Some((three_bytes(first, second, *third), rest))
            } else {
                read_fourth(first, second, *third, rest)
            }
        }
    }
}

fn read_fourth(first: u8, second: u8, third: u8, bytes: &[u8]) -> Option<(char, &[u8])>
    requires first { IsInRange 0xF0 0xF4 first }
    requires second { is_second first second ≡ true }
    requires third { is_continuation third ≡ true }
    ensures { Reads (λ x. (x.0, x.1.now)) result (fourth_byte first second third bytes.now) }
{
    match bytes {
        [] => None,
        [fourth, rest @ ..] => {
            if may_continue(*fourth) {
                Some((four_bytes(first, second, third, *fourth), rest))
            } else {
                Some((char::REPLACEMENT_CHARACTER, bytes))
            }
        }
    }
}
