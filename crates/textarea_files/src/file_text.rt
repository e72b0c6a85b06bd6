//! The bytes of a file as lines, and back.
//!
//! The lines are the texts between line ends. So a file that ends in a line end has an empty last
//! line, and a file that doesn't has none: joined, the lines give the same bytes.

ghost use Rattle.std.specs.Prelude.{◌≡◌, ◌<◌, ◌==◌, ◌++◌, ◌∷◌, false, length, IfOk, IfSome, string_bytes};
ghost use Rattle.std.specs.List.{list_any};
ghost use Rattle.textarea_files.specs.FileText.{closed_bytes, end_bytes, file_bytes, has_returns, joined_bytes, last_end, line_end_of};

use memchr::memchr;
use std::alloc::{AllocError, Global};

/// What separates the lines of a file.
#[derive(Clone, Copy, Debug, PartialEq, Eq)]
pub enum LineEnd {
    /// A line feed, as on Unix. A carriage return is a character of its line.
    LineFeed,
    /// A carriage return and a line feed, as on Windows.
    CarriageReturn,
}

/// How the lines of a file end.
#[derive(Clone, Copy, Debug, PartialEq, Eq)]
pub struct LineEnds {
    /// What separates the lines.
    pub between: LineEnd,
    /// Whether the last line of a file gets a line end too when it is saved, if it isn't empty.
    pub closes_last: bool,
}

impl LineEnd {
    /// Returns its characters.
    pub fn text(self) -> &'static str
        ensures { result.now ≡ end_bytes self }
    {
        match self {
            LineEnd::LineFeed => "\n",
            LineEnd::CarriageReturn => "\r\n",
        }
    }
}

// The text before the first line end, and the text after it.
fn split_line(text: &str, end: LineEnd) -> Option<(&str, &str)>
    ensures components { IfSome result (λ x. text.now ≡ x.0.now ++ (end_bytes end ++ x.1.now)) }
    ensures shorter { IfSome result (λ x. length x.1.now < length text.now) }
{
    match end {
        LineEnd::LineFeed => split_at_feed(text),
        LineEnd::CarriageReturn => text.split_once("\r\n"),
    }
}

// The text before the first line feed, and the text after it.
fn split_at_feed(text: &str) -> Option<(&str, &str)>
    ensures { IfSome result (λ x. text.now ≡ x.0.now ++ (10 ∷ x.1.now)) }
{
    let at = memchr(b'\n', text.as_bytes())?;
    Some((&text[..at], &text[at + 1..]))
}

/// Returns the line end of a text: a carriage return and a line feed if the text has a line feed,
/// and a carriage return is directly before each of them.
pub fn line_end_of(text: &str) -> LineEnd
    ensures { result ≡ line_end_of text.now }
{
    if has_line_feed(text.as_bytes()) && has_returns(text.as_bytes()) {
        LineEnd::CarriageReturn
    } else {
        LineEnd::LineFeed
    }
}

fn has_line_feed(text: &[u8]) -> bool
    ensures { result ≡ list_any (λ byte. byte == 10) text.now }
{
    text.iter().any(|byte| *byte == b'\n')
}

// Returns whether a carriage return is directly before each line feed.
fn has_returns(text: &[u8]) -> bool
    ensures { result ≡ has_returns false text.now }
{
    let mut was_return = false;
    for byte in text {
        if *byte == b'\n' && !was_return {
            return false;
        }
        was_return = *byte == b'\r';
    }
    true
}

/// Splits a text at each line end. Joined again, the lines give the text.
pub fn lines_of(alloc: Global, text: &str, end: LineEnd) -> Result<Vec<String>, AllocError>
    ensures joined { IfOk result (λ lines. joined_bytes end lines.items ≡ text.now) }
    ensures some { IfOk result (λ lines. 0 < length lines.items) }
{
    let mut lines = Vec::new(alloc);
    let rest = push_closed(alloc, &mut lines, text, end)?;
    let last = String::from_str(alloc, rest)?;
    lines.push(last)?;
    Ok(lines)
}

// Adds the lines of a text that have a line end, and returns what is after the last of these.
fn push_closed<'a>(
    alloc: Global,
    lines: &mut Vec<String>,
    text: &'a str,
    end: LineEnd,
) -> Result<&'a str, AllocError>
    ensures { IfOk result (λ rest. closed_bytes end lines.new.items ++ rest.now
        ≡ closed_bytes end lines.old.items ++ text.now) }
{
    let mut rest = text;
    while let Some((line, after)) = split_line(rest, end) {
        lines.push(String::from_str(alloc, line)?)?;
        rest = after;
    }
    Ok(rest)
}

/// Returns the bytes of a file with these lines.
pub fn joined(alloc: Global, lines: &[String], ends: LineEnds) -> Result<String, AllocError>
    ensures { IfOk result (λ text. string_bytes text ≡ file_bytes ends lines.now) }
{
    let mut text = lines.join(alloc, ends.between.text())?;
    text.push_str(last_end(lines, ends))?;
    Ok(text)
}

// Returns what is after the last line.
fn last_end(lines: &[String], ends: LineEnds) -> &'static str
    ensures { result.now ≡ last_end ends lines.now }
{
    match lines.last() {
        Some(line) if ends.closes_last && !line.is_empty() => ends.between.text(),
        _ => "",
    }
}
