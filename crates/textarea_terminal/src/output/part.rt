//! The part of a grapheme cluster that is shown, where a terminal may show the whole in more columns
//! than are counted.
ghost use Rattle.std.specs.Prelude.{◌≡◌, ◌==◌, ◌&&◌, chars, string_bytes, IfOk};
ghost use Rattle.std.specs.List.{list_any};
ghost use Rattle.textarea_terminal.specs.Disputed.{before_selector, can_widen, is_emoji_selector, is_one_column};

use super::width::is_plain;
use std::alloc::{AllocError, Global};
use unicode_width::UnicodeWidthChar;

/// Whether a terminal may show a cluster in more columns than are counted.
#[inline]
pub(super) fn can_widen(text: &str) -> bool
    ensures value { result ≡ can_widen text.now }
{
    if is_plain(text.as_bytes()) {
        false
    } else {
        can_any_widen(text)
    }
}

/// The same, for texts other than one printable character of ASCII.
#[inline(never)]
fn can_any_widen(text: &str) -> bool
    ensures { result ≡ can_widen text.now }
{
    both(has_selector(text), has_narrow(text))
}

fn both(a: bool, b: bool) -> bool
    ensures { result ≡ (a && b) }
{
    a && b
}

fn has_selector(text: &str) -> bool
    ensures { result ≡ list_any is_emoji_selector (chars text.now) }
{
    text.chars().any(|c| is_emoji_selector(c))
}

fn has_narrow(text: &str) -> bool
    ensures { result ≡ list_any is_one_column (chars text.now) }
{
    text.chars().any(|c| is_one_column(c))
}

/// Whether the character selects the form of an emoji.
fn is_emoji_selector(c: char) -> bool
    ensures { result ≡ is_emoji_selector c }
{
    c == '\u{FE0F}'
}

/// Whether the character takes one column.
fn is_one_column(c: char) -> bool
    ensures { result ≡ is_one_column c }
{
    c.width().unwrap_or(0) == 1
}

/// The characters before the first selector of the form of an emoji.
pub(super) fn before_selector(alloc: Global, text: &str) -> Result<String, AllocError>
    ensures { IfOk result (λ part. string_bytes part ≡ before_selector (chars text.now)) }
{
    let mut part = String::new(alloc);
    for c in text.chars() {
        if is_emoji_selector(c) {
            return Ok(part);
        }
        part.push(c)?;
    }
    Ok(part)
}
