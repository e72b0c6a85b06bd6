//! Control characters of a text, which no cell shows.
ghost use Rattle.std.specs.Prelude.{◌≡◌, ◌≤◌, count_by, length, string_bytes};
ghost use Rattle.textarea_editor.specs.ControlCharacters.{capped_sum, count_message, is_control, shown_count};

use crate::message::Message;

/// Returns the message with the number of control characters in these lines, or another one if
/// there are none. A number that doesn't fit is the greatest one.
pub fn count_message(lines: &[String], none: Message) -> Message
    ensures { result ≡ count_message (shown_count lines.now) none }
{
    match control_characters(lines) {
        0 => none,
        count => Message::ControlCharacters(count),
    }
}

// The number of control characters.
fn control_characters(lines: &[String]) -> usize
    ensures { result ≡ shown_count lines.now }
{
    lines.iter().fold(
        0,
        |count, line| capped_sum(count, controls_in(line.as_str())),
    )
}

// The sum of two numbers, or the greatest number.
fn capped_sum(count: usize, more: usize) -> usize
    ensures { result ≡ capped_sum count more }
{
    if more < usize::MAX - count {
        count + more
    } else {
        usize::MAX
    }
}

fn controls_in(line: &str) -> usize
    ensures { result ≡ count_by is_control line.now }
{
    let mut count = 0;
    let mut rest = line.as_bytes();
    'counting: while COUNTED_AT_ONCE < rest.len() {
        let (front, after) = rest.split_at(COUNTED_AT_ONCE);
        count += usize::from(count_of_controls(front));
        rest = after;
    }
    let last = count_of_controls(rest);
    count + usize::from(last)
}

// The number of bytes whose count is a byte. A processor adds many of them at once.
const COUNTED_AT_ONCE: usize = 192;

fn count_of_controls(bytes: &[u8]) -> u8
    requires { length bytes.now ≤ COUNTED_AT_ONCE }
    ensures { result ≡ count_by is_control bytes.now }
{
    let mut count = 0;
    for byte in bytes {
        count += u8::from(is_control(*byte));
    }
    count
}

// Returns whether a byte is a control character other than a tab.
fn is_control(byte: u8) -> bool
    ensures { result ≡ is_control byte }
{
    (byte < 32 && byte != b'\t') || byte == 127
}
