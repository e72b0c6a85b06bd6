//! The search pattern, and the searches for it.
ghost use Rattle.std.specs.Prelude.{◌≡◌, ◌≢◌, ◌<◌, IfSome, MatchOption, None, Some, is_some, string_bytes};
ghost use Rattle.textarea_text.specs.Place.{IsPlace};
ghost use Rattle.textarea_data.specs.declared.range.AtomicCursorBias.TheVariants.{Backward, Forward};
ghost use Rattle.tui_textarea.specs.Units.{settled};
ghost use Rattle.tui_textarea.specs.Search.{match_count, match_index, next_match, previous_match, after_search};
ghost use Rattle.textarea_c.specs.Calls.{Asks, Calls, Copies, FindsText, Given, Patterns, OnlyReads, Searches};
ghost use Rattle.textarea_c.specs.Rejections.{IsRejection};
ghost use Rattle.textarea_c_data.specs.Copied.{IsCopiedOut};
ghost use Rattle.textarea_c_data.specs.Texts.{text_in};

use crate::calls::on;
use crate::editor::Editor;
use crate::handle::Handle;
use std::alloc::Global;
use textarea_c_data::slices::{copy_out, text_of};
use textarea_c_data::status::{FALSE, INVALID_ARGUMENT, OK, OUT_OF_MEMORY, PATTERN_REJECTED, flag};
use textarea_search::error::SearchError;

/// Sets the search pattern, in the syntax of the Rust crate `regex`; an empty one removes the
/// pattern. `ta_pattern_error` returns why a pattern is rejected.
///
/// Statuses: ok, out of memory, pattern rejected, invalid argument (the pattern is not UTF-8),
/// empty handle. Where it is not ok, the pattern stays.
#[unsafe(no_mangle)]
pub extern "C" fn ta_set_search_pattern(handle: &mut Handle, alloc: Global, pattern: &[u8]) -> u32
    ensures { Calls handle.old.stored.content result handle.new.stored.content
        (λ a b. Given (text_in pattern.now) (λ text. Patterns text) result a b) }
{
    on!(handle, alloc, editor => match text_of(pattern) {
        Some(pattern) => set_pattern(&mut editor, alloc, pattern),
        None => INVALID_ARGUMENT,
    })
}

// Sets the search pattern, or stores why it is rejected.
fn set_pattern(editor: &mut Editor, alloc: Global, pattern: &str) -> u32
    ensures { Patterns pattern.now result editor.old editor.new }
{
    match editor.area.set_search_pattern(pattern) {
        Ok(()) => OK,
        Err(error) => store_error(error, alloc, &mut editor.pattern_error),
    }
}

// Stores why a pattern is rejected, if that is the error, and returns the status.
fn store_error(error: SearchError, alloc: Global, text: &mut String) -> u32
    ensures rejected { result ≡ 3 → IsRejection error }
    ensures no_memory { result ≢ 3 → (result ≡ 2) × (text.new ≡ text.old) }
{
    match error {
        SearchError::Memory(_) | SearchError::Pattern(regex::Error::OutOfMemory) => OUT_OF_MEMORY,
        SearchError::Pattern(error) => match format!(in alloc; "{error}") {
            Ok(words) => {
                *text = words;
                PATTERN_REJECTED
            }
            Err(_) => OUT_OF_MEMORY,
        },
    }
}

/// Sets a search pattern that finds the text as it is: each character that has a meaning in the
/// syntax of patterns is escaped. The empty text removes the pattern. With `ignore_case`, letters
/// of either case match. With `whole_word`, each end of the text that is a word's character must be
/// an end of a word.
///
/// Statuses: ok, out of memory, pattern rejected (it is too large), invalid argument (the text is
/// not UTF-8), empty handle. Where it is not ok, the pattern stays.
#[unsafe(no_mangle)]
pub extern "C" fn ta_set_search_text(
    handle: &mut Handle,
    alloc: Global,
    text: &[u8],
    ignore_case: bool,
    whole_word: bool,
) -> u32
    ensures { Calls handle.old.stored.content result handle.new.stored.content
        (λ a b. Given (text_in text.now)
        (λ plain. FindsText plain ignore_case whole_word) result a b) }
{
    on!(handle, alloc, editor => match text_of(text) {
        Some(text) => set_text(&mut editor, alloc, text, ignore_case, whole_word),
        None => INVALID_ARGUMENT,
    })
}

// Sets the pattern of a plain text, or stores why it is rejected.
fn set_text(
    editor: &mut Editor,
    alloc: Global,
    text: &str,
    ignore_case: bool,
    whole_word: bool,
) -> u32
    ensures { FindsText text.now ignore_case whole_word result editor.old editor.new }
{
    match editor.area.set_search_text(text, ignore_case, whole_word) {
        Ok(()) => OK,
        Err(error) => store_error(error, alloc, &mut editor.pattern_error),
    }
}

/// Writes the number of the search pattern's matches in the whole text; 0 without a pattern.
///
/// Statuses: ok, out of memory, empty handle.
#[unsafe(no_mangle)]
pub extern "C" fn ta_match_count(handle: &mut Handle, alloc: Global, count: &mut usize) -> u32
    ensures unchanged { Calls handle.old.stored.content result handle.new.stored.content
        (λ a b. Copies result a b) }
    ensures value { result ≡ 0 → IfSome handle.old.stored.content
        (λ a. count.new ≡ match_count a.area) }
    ensures no_pattern { IfSome handle.old.stored.content
        (λ a. a.area.pattern ≡ None → result ≢ 2) }
    ensures unwritten { result ≢ 0 → count.new ≡ count.old }
{
    on!(handle, alloc, editor => count_matches(&editor, count))
}

// Writes the number of matches, and returns the status.
fn count_matches(editor: &Editor, count: &mut usize) -> u32
    ensures value { result ≡ 0 → count.new ≡ match_count editor.now.area }
    ensures status { result ≢ 0 → (result ≡ 2) × (count.new ≡ count.old) }
    ensures no_pattern { editor.now.area.pattern ≡ None → result ≢ 2 }
{
    match editor.area.match_count() {
        Ok(number) => {
            *count = number;
            OK
        }
        Err(_) => OUT_OF_MEMORY,
    }
}

/// Writes the number, counted from 0 in the order of the text, of the match that starts at the
/// cursor.
///
/// Statuses: ok, false (no match starts at the cursor, or no pattern is set), out of memory, empty
/// handle.
#[unsafe(no_mangle)]
pub extern "C" fn ta_match_index(handle: &mut Handle, alloc: Global, index: &mut usize) -> u32
    ensures unchanged { Calls handle.old.stored.content result handle.new.stored.content
        (λ a b. (b ≡ a) × (result < 3)) }
    ensures value { result ≡ 0 → IfSome handle.old.stored.content
        (λ a. match_index a.area ≡ Some index.new) }
    ensures none { result ≡ 1 → IfSome handle.old.stored.content (λ a. match_index a.area ≡ None) }
    ensures no_pattern { IfSome handle.old.stored.content
        (λ a. a.area.pattern ≡ None → result ≢ 2) }
    ensures unwritten { result ≢ 0 → index.new ≡ index.old }
{
    on!(handle, alloc, editor => find_index(&editor, index))
}

// Writes the number of the match at the cursor, if there is one, and returns the status.
fn find_index(editor: &Editor, index: &mut usize) -> u32
    ensures status { result < 3 }
    ensures value { result ≡ 0 → match_index editor.now.area ≡ Some index.new }
    ensures none { result ≡ 1 → match_index editor.now.area ≡ None }
    ensures no_pattern { editor.now.area.pattern ≡ None → result ≢ 2 }
    ensures unwritten { result ≢ 0 → index.new ≡ index.old }
{
    match editor.area.match_index() {
        Ok(Some(number)) => {
            *index = number;
            OK
        }
        Ok(None) => FALSE,
        Err(_) => OUT_OF_MEMORY,
    }
}

/// Returns why a pattern was rejected last, in words; empty if none was. `out` gets the first of
/// its bytes, as many as there is room for, and `needed` the number of all.
///
/// Statuses: ok, empty handle.
#[unsafe(no_mangle)]
pub extern "C" fn ta_pattern_error(
    handle: &mut Handle,
    alloc: Global,
    out: &mut [u8],
    needed: &mut usize,
) -> u32
    ensures unchanged { Calls handle.old.stored.content result handle.new.stored.content
        (λ a b. OnlyReads result a b) }
    ensures text { IfSome handle.old.stored.content
        (λ a. IsCopiedOut out.old out.new needed.new (string_bytes a.pattern_error)) }
    ensures unwritten { result ≢ 0 → (out.new ≡ out.old) × (needed.new ≡ needed.old) }
{
    on!(handle, alloc, editor => copy_out(editor.pattern_error.as_bytes(), out, needed))
}

/// Returns the text of the search pattern. `out` gets the first of its bytes, as many as there is
/// room for, and `needed` the number of all.
///
/// Statuses: ok, false (no pattern is set), empty handle.
#[unsafe(no_mangle)]
pub extern "C" fn ta_search_pattern(
    handle: &mut Handle,
    alloc: Global,
    out: &mut [u8],
    needed: &mut usize,
) -> u32
    ensures unchanged { Calls handle.old.stored.content result handle.new.stored.content
        (λ a b. Asks result a b) }
    ensures text { IfSome handle.old.stored.content
        (λ a. MatchOption a.area.pattern (result ≡ 1) (λ text. (result ≡ 0)
        × IsCopiedOut out.old out.new needed.new text)) }
    ensures unwritten { result ≢ 0 → (out.new ≡ out.old) × (needed.new ≡ needed.old) }
{
    on!(handle, alloc, editor => match editor.area.search_pattern() {
        Some(text) => copy_out(text.as_bytes(), out, needed),
        None => FALSE,
    })
}

/// Moves the cursor to the next start of a match: the first after the cursor or, with
/// `match_cursor`, at it, and past the text's end the first of all. An open selection stays open,
/// and a run of typing ends. Without a match nothing changes.
///
/// Statuses: ok (there was a match), false, out of memory, empty handle.
#[unsafe(no_mangle)]
pub extern "C" fn ta_search_forward(handle: &mut Handle, alloc: Global, match_cursor: bool) -> u32
    ensures found { Calls handle.old.stored.content result handle.new.stored.content
        (λ a b. Searches (is_some (next_match a.area match_cursor))
        (settled Forward (after_search a.area (next_match a.area match_cursor))) result a b) }
    ensures place { result ≡ 0 → IfSome handle.old.stored.content
        (λ a. IfSome (next_match a.area match_cursor) (IsPlace a.area.document.text)) }
{
    on!(handle, alloc, editor => flag(editor.area.search_forward(match_cursor)))
}

/// Moves the cursor to the last start of a match before it or, with `match_cursor`, at it, and past
/// the text's start to the last of all. An open selection stays open, and a run of typing ends.
/// Without a match nothing changes.
///
/// Statuses: ok (there was a match), false, out of memory, empty handle.
#[unsafe(no_mangle)]
pub extern "C" fn ta_search_back(handle: &mut Handle, alloc: Global, match_cursor: bool) -> u32
    ensures found { Calls handle.old.stored.content result handle.new.stored.content
        (λ a b. Searches (is_some (previous_match a.area match_cursor))
        (settled Backward (after_search a.area (previous_match a.area match_cursor))) result a b) }
    ensures place { result ≡ 0 → IfSome handle.old.stored.content
        (λ a. IfSome (previous_match a.area match_cursor) (IsPlace a.area.document.text)) }
{
    on!(handle, alloc, editor => flag(editor.area.search_back(match_cursor)))
}
