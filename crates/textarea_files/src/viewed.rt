//! Bytes that aren't all UTF-8, as a text that shows them.
ghost use Rattle.std.specs.Prelude.{◌≡◌, ◌<◌, ◌++◌, ℕ, List, IfOk, OnOk, length, string_bytes};
ghost use Rattle.std.specs.Str.{IsUtf8, StartsWithNoChar};
ghost use Rattle.textarea_files.specs.Viewed.{ShowsBefore, ShowsBytes, escaped_byte, hex_digit};

use std::alloc::{AllocError, Global};

/// Returns a text that shows these bytes: what is UTF-8 as it is, and each byte at which no
/// character begins as `\x` and its two capital hexadecimal digits, such as `\xE9`.
pub fn viewed(alloc: Global, bytes: &[u8]) -> Result<String, AllocError>
    ensures { IfOk result (λ text. ShowsBytes bytes.now (string_bytes text)) }
{
    let mut text = String::new(alloc);
    let mut rest = bytes;
    while !rest.is_empty() {
        rest = push_front(&mut text, rest)?;
    }
    Ok(text)
}

// Adds what shows the front of bytes, and returns the bytes after it.
fn push_front<'a>(text: &mut String, bytes: &'a [u8]) -> Result<&'a [u8], AllocError>
    requires { 0 < length bytes.now }
    ensures shown { IfOk result (λ rest. (all : List ℕ) →
        ShowsBefore all bytes.now (string_bytes text.old) →
        ShowsBefore all rest.now (string_bytes text.new)) }
    ensures shorter { IfOk result (λ rest. length rest.now < length bytes.now) }
{
    let (valid, rest) = split_text(bytes);
    text.push_str(valid)?;
    match rest.split_first() {
        Some((byte, after)) => {
            push_byte(text, *byte)?;
            Ok(after)
        }
        None => Ok(rest),
    }
}

// Returns the text at the front of bytes up to where no character begins, and the bytes after it.
fn split_text(bytes: &[u8]) -> (&str, &[u8])
    ensures joined { bytes.now ≡ result.0.now ++ result.1.now }
    ensures utf8 { IsUtf8 result.0.now }
    ensures ends { StartsWithNoChar result.1.now }
{
    match bytes.utf8_chunks().next() {
        Some(chunk) => {
            let valid = chunk.valid();
            (valid, &bytes[valid.len()..])
        }
        None => ("", bytes),
    }
}

// Adds `\x` and the two capital hexadecimal digits of a byte.
fn push_byte(text: &mut String, byte: u8) -> Result<(), AllocError>
    ensures { OnOk result (string_bytes text.new ≡ string_bytes text.old ++ escaped_byte byte) }
{
    text.push_str("\\x")?;
    text.push(hex_digit(byte / 16))?;
    text.push(hex_digit(byte % 16))
}

// Returns a capital hexadecimal digit.
fn hex_digit(value: u8) -> char
    requires { value < 16 }
    ensures { result ≡ hex_digit value }
{
    if value < 10 {
        char::from(b'0' + value)
    } else {
        char::from(b'A' - 10 + value)
    }
}
