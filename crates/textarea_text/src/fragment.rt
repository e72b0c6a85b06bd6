//! Fragments: texts with line feeds, split into one string for each line.
ghost use Rattle.std.specs.Prelude.{◌≡◌, ◌<◌, ◌++◌, ◌∷◌, [], length, vec_len, string_bytes, IfOk, OnOk, MatchOption};
ghost use Rattle.textarea_text.specs.Prelude.{chars, Break, characters, lines_of, text_of, fragment_symbols, fragment_text, unified, without_last_break};

use crate::text_slice::push_line;
use std::alloc::{AllocError, Global};

/// Splits a text at each line feed into lines. A carriage return directly before a line feed is
/// dropped. There is one line more than line feeds, so an empty text gives one empty line.
pub fn fragment_of(alloc: Global, text: &str) -> Result<Vec<String>, AllocError>
    ensures some { IfOk result (λ fragment_lines. 0 < vec_len fragment_lines) }
    ensures text { IfOk result
        (λ fragment_lines. text_of fragment_lines.items ≡ fragment_symbols (chars text.now)) }
{
    let mut fragment_lines = Vec::new(alloc);
    let mut rest = text;
    while let Some((line, after)) = first_line(rest) {
        push_line(&mut fragment_lines, line)?;
        rest = after;
    }
    push_line(&mut fragment_lines, rest)?;
    Ok(fragment_lines)
}

// The text's first line, if a line feed ends it, and the text after that line feed.
fn first_line(text: &str) -> Option<(&str, &str)>
    ensures lines { MatchOption result
        (fragment_symbols (chars text.now) ≡ characters (chars text.now))
        (λ x. fragment_symbols (chars text.now)
        ≡ characters (chars x.0.now) ++ (Break ∷ fragment_symbols (chars x.1.now))) }
    ensures shorter { MatchOption result (length text.now ≡ length text.now)
        (λ x. length x.1.now < length text.now) }
{
    let (line, after) = text.split_once('\n')?;
    Some((line.strip_suffix('\r').unwrap_or(line), after))
}

/// Splits the text of a file into its lines, as `fragment_of` does, but a line feed at the text's
/// end begins no line.
pub fn lines_of_file(alloc: Global, text: &str) -> Result<Vec<String>, AllocError>
    ensures some { IfOk result (λ lines. 0 < vec_len lines) }
    ensures text { IfOk result (λ lines.
        text_of lines.items ≡ without_last_break (fragment_symbols (chars text.now))) }
{
    let mut lines = fragment_of(alloc, text)?;
    drop_empty_end(&mut lines);
    Ok(lines)
}

// Removes the last line if it is empty and not the only one.
fn drop_empty_end(lines: &mut Vec<String>)
    requires some { 0 < vec_len lines.old }
    ensures some { 0 < vec_len lines.new }
    ensures text { text_of lines.new.items ≡ without_last_break (text_of lines.old.items) }
{
    if 1 < lines.len() && lines[lines.len() - 1].is_empty() {
        lines.pop();
    }
}

/// Returns the text with a line feed for each line end: a carriage return, a line feed, or a
/// carriage return and a line feed.
pub fn unify_line_ends(alloc: Global, text: &str) -> Result<String, AllocError>
    ensures { IfOk result (λ s. chars (string_bytes s) ≡ unified (chars text.now)) }
{
    let mut unified = String::with_capacity(alloc, text.len())?;
    let mut rest = text;
    while let Some((before, after)) = first_returned(rest) {
        push_ended_line(&mut unified, before)?;
        rest = after;
    }
    unified.push_str(rest)?;
    Ok(unified)
}

// The text before its first carriage return, and the text after that and after a line feed directly
// behind it.
fn first_returned(text: &str) -> Option<(&str, &str)>
    ensures parts { MatchOption result (unified (chars text.now) ≡ chars text.now)
        (λ x. unified (chars text.now) ≡ chars x.0.now ++ (10 ∷ unified (chars x.1.now))) }
    ensures shorter { MatchOption result (length text.now ≡ length text.now)
        (λ x. length x.1.now < length text.now) }
{
    let (before, after) = text.split_once('\r')?;
    Some((before, after.strip_prefix('\n').unwrap_or(after)))
}

// Appends a line and a line feed.
fn push_ended_line(text: &mut String, line: &str) -> Result<(), AllocError>
    ensures { OnOk result (chars (string_bytes text.new)
        ≡ chars (string_bytes text.old) ++ (chars line.now ++ (10 ∷ []))) }
{
    text.push_str(line)?;
    text.push('\n')?;
    Ok(())
}

/// Joins the lines of a fragment by line feeds; without lines it returns the empty text.
pub fn join_with_line_feeds(alloc: Global, fragment_lines: &[String]) -> Result<String, AllocError>
    ensures { IfOk result
        (λ s. chars (string_bytes s) ≡ fragment_text (text_of fragment_lines.now)) }
{
    let Some((first, rest)) = fragment_lines.split_first() else {
        return Ok(String::new(alloc));
    };
    let mut text = String::from_str(alloc, first.as_str())?;
    for fragment_line in rest {
        text.push('\n')?;
        text.push_str(fragment_line.as_str())?;
    }
    Ok(text)
}

/// Returns a copy of the lines, in the same order.
pub fn copy_fragment(alloc: Global, fragment_lines: &[String]) -> Result<Vec<String>, AllocError>
    ensures same { IfOk result (λ copy. lines_of copy.items ≡ lines_of fragment_lines.now) }
    ensures len { IfOk result (λ copy. vec_len copy ≡ length fragment_lines.now) }
{
    Vec::from_clones(alloc, fragment_lines)
}
