//! The patterns of plain texts.
ghost use Rattle.std.specs.Prelude.{◌≡◌, ◌≢◌, ◌++◌, [], false, slice_get, None, IfOk, IsOk, OnOk, string_bytes};
ghost use Rattle.std.specs.List.{last_or};
ghost use Rattle.std.specs.Str.{chars};
ghost use Rattle.regex_hir.specs.Re.{literal};
ghost use Rattle.textarea_search.specs.PatternErrors.{IsNoPattern};
ghost use Rattle.textarea_search.specs.PlainTexts.{bound_at, case_flag, text_pattern, text_tree};
ghost use Rattle.textarea_search.specs.Spans.{ListsMatchesOf};

use regex::escape;
use std::alloc::{AllocError, Global};
use ucd_perl::is_word_character;

/// Returns the pattern that finds a text as it is, in `regex` syntax; for the empty text the empty
/// one, which is no pattern. With `ignore_case`, letters of either case match. With `whole_word`,
/// each end of the text that is a word character must be at the bound of a word.
pub fn text_pattern(
    alloc: Global,
    text: &str,
    ignore_case: bool,
    whole_word: bool,
) -> Result<String, AllocError>
    ensures pattern { IfOk result (λ pattern.
        string_bytes pattern ≡ text_pattern text.now ignore_case whole_word) }
    ensures empty { text.now ≡ [] → IsOk result }
{
    let mut pattern = String::new(alloc);
    if text.is_empty() {
        return Ok(pattern);
    }
    push_front(&mut pattern, text, ignore_case, whole_word)?;
    let escaped = escape(alloc, text)?;
    pattern.push_str(escaped.as_str())?;
    push_bound(&mut pattern, whole_word, last_character(text))?;
    Ok(pattern)
}

// Appends what comes before the text: the flag that ignores case, and the bound of a word.
fn push_front(
    pattern: &mut String,
    text: &str,
    ignore_case: bool,
    whole_word: bool,
) -> Result<(), AllocError>
    ensures { OnOk result
        (string_bytes pattern.new ≡ (string_bytes pattern.old ++ case_flag ignore_case)
        ++ bound_at whole_word (slice_get (chars text.now) 0)) }
{
    push_case_flag(pattern, ignore_case)?;
    push_bound(pattern, whole_word, first_character(text))
}

// Appends the flag that ignores case, if that is wanted.
fn push_case_flag(pattern: &mut String, ignore_case: bool) -> Result<(), AllocError>
    ensures { OnOk result
        (string_bytes pattern.new ≡ string_bytes pattern.old ++ case_flag ignore_case) }
{
    if ignore_case {
        return pattern.push_str("(?i)");
    }
    Ok(())
}

fn first_character(text: &str) -> Option<char>
    ensures { result ≡ slice_get (chars text.now) 0 }
{
    text.chars().next()
}

fn last_character(text: &str) -> Option<char>
    ensures { result ≡ last_or None (chars text.now) }
{
    let mut last = None;
    for c in text.chars() {
        last = Some(c);
    }
    last
}

// Appends the bound of a word if the text has a word character at this end.
fn push_bound(pattern: &mut String, whole_word: bool, end: Option<char>) -> Result<(), AllocError>
    ensures { OnOk result
        (string_bytes pattern.new ≡ string_bytes pattern.old ++ bound_at whole_word end) }
{
    match end {
        Some(c) if whole_word && is_word_character(c) => pattern.push_str("\\b"),
        _ => Ok(()),
    }
}

/// The law of plain texts: the pattern of a text that isn't empty is never rejected for its syntax.
/// Its matches in each line are those of a tree: the characters one after another, each as it is or
/// in any case, between the bounds of words. Without options they are those of the text as it is.
pub fn finds_text(text: &str, ignore_case: bool, whole_word: bool)
    ensures accepted { text.now ≢ [] →
        ¬ IsNoPattern (text_pattern text.now ignore_case whole_word) }
    ensures matches { text.now ≢ [] →
        ListsMatchesOf (text_pattern text.now ignore_case whole_word)
        (text_tree text.now ignore_case whole_word) }
    ensures itself { text.now ≢ [] →
        ListsMatchesOf (text_pattern text.now false false) (literal text.now) }
{}
