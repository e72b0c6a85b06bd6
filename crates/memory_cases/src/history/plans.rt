//! Edits of cases, prepared for lines. A position outside the lines becomes the nearest one.
ghost use Rattle.std.specs.Prelude.{◌≡◌, ◌<◌, ◌≤◌, ◌↔◌, ◌^◌, length, vec_len, IsTrue, IfOk, IfSome};
ghost use Rattle.textarea_text.specs.Text.{lines_of, symbol_in, text_of};
ghost use Rattle.textarea_text.specs.Place.{IsPlace, IsPlaceOf, IsSymbolBefore};
ghost use Rattle.textarea_text.specs.Size.{size_of};
ghost use Rattle.textarea_util.specs.Limit.{size_limit};
ghost use Rattle.memory_cases.specs.Ready.{IsEditReady};

use crate::history::calls::{Edit, Place};
use crate::history::kinds::{kind_of, line_count_in};
use std::alloc::{AllocError, Global};
use textarea_history::edit::{EditKind, deletion_of};
use textarea_text::places::{ahead, clip, end_of};
use textarea_text::rows::{SymbolBefore, byte_offset, size_within_limit, symbol_before};
use textarea_text::text_slice::between;

/// The greatest row and column that are edited.
const LIMIT: usize = 4294967296;

/// An edit: what it inserts or removes, and the cursor's positions before and after it.
#[derive(Drop)]
pub struct Plan {
    pub kind: EditKind,
    pub before: Place,
    pub after: Place,
}

/// Returns the edit of a case on these lines, or none if it would change nothing.
pub fn plan_of(alloc: Global, lines: &[String], edit: Edit<'_>) -> Result<Option<Plan>, AllocError>
    requires { 0 < length lines.now }
    ensures { IfOk result (λ found. IfSome found
        (λ plan. IsEditReady (text_of lines.now) plan.kind plan.before plan.after)) }
{
    match edit {
        Edit::Char(place, c) => Ok(character(lines, place, c)),
        Edit::Break(place) => Ok(line_break(lines, place)),
        Edit::Insert(place, text) => insertion(alloc, lines, place, text),
        Edit::Delete(place) => Ok(deletion(lines, place)),
        Edit::Remove(place, count) => removal(alloc, lines, place, count),
    }
}

fn character(lines: &[String], place: Place, c: char) -> Option<Plan>
    requires { 0 < length lines.now }
    ensures { IfSome result
        (λ plan. IsEditReady (text_of lines.now) plan.kind plan.before plan.after) }
{
    let before = nearest(lines, place)?;
    Some(Plan {
        kind: EditKind::InsertChar(c),
        before,
        after: (before.0, before.1 + 1),
    })
}

fn line_break(lines: &[String], place: Place) -> Option<Plan>
    requires { 0 < length lines.now }
    ensures { IfSome result
        (λ plan. IsEditReady (text_of lines.now) plan.kind plan.before plan.after) }
{
    let before = nearest(lines, place)?;
    Some(Plan {
        kind: EditKind::InsertNewline,
        before,
        after: (before.0 + 1, 0),
    })
}

/// Returns the insertion of a text, if the text has a symbol.
pub fn insertion(
    alloc: Global,
    lines: &[String],
    place: Place,
    text: &str,
) -> Result<Option<Plan>, AllocError>
    requires { 0 < length lines.now }
    ensures { IfOk result (λ found. IfSome found
        (λ plan. IsEditReady (text_of lines.now) plan.kind plan.before plan.after)) }
{
    let fragment_lines = line_count_in(alloc, text)?;
    size_within_limit(fragment_lines.as_slice())?;
    let Some(before) = nearest(lines, place) else {
        return Ok(None);
    };
    Ok(insertion_of(lines, before, fragment_lines))
}

fn insertion_of(lines: &[String], before: Place, fragment_lines: Vec<String>) -> Option<Plan>
    requires some { 0 < vec_len fragment_lines }
    requires size { size_of fragment_lines.items ≤ size_limit }
    requires place { IsPlace (text_of lines.now) before }
    requires small { (before.0 ≤ 2 ^ 32) × (before.1 ≤ 2 ^ 32) }
    ensures { IfSome result
        (λ plan. IsEditReady (text_of lines.now) plan.kind plan.before plan.after) }
{
    let after = end_of(before, fragment_lines.as_slice());
    if is_same(after, before) {
        return None;
    }
    Some(Plan {
        kind: kind_of(fragment_lines, true),
        before,
        after,
    })
}

// The removal of the symbol before the position, if there is one.
fn deletion(lines: &[String], place: Place) -> Option<Plan>
    requires { 0 < length lines.now }
    ensures { IfSome result
        (λ plan. IsEditReady (text_of lines.now) plan.kind plan.before plan.after) }
{
    let before = nearest(lines, place)?;
    let symbol = symbol_at(lines, before)?;
    Some(Plan {
        kind: deletion_of(symbol.character),
        before,
        after: symbol.start,
    })
}

// The removal of at most n symbols from the position on, if there is one.
fn removal(
    alloc: Global,
    lines: &[String],
    place: Place,
    count: usize,
) -> Result<Option<Plan>, AllocError>
    requires { 0 < length lines.now }
    ensures { IfOk result (λ found. IfSome found
        (λ plan. IsEditReady (text_of lines.now) plan.kind plan.before plan.after)) }
{
    let Some(after) = nearest(lines, place) else {
        return Ok(None);
    };
    let before = ahead(lines, after, count);
    if is_same(before, after) {
        return Ok(None);
    }
    let fragment_lines = between(alloc, lines, after, before)?;
    if fragment_lines.is_empty() {
        return Ok(None);
    }
    Ok(Some(Plan {
        kind: kind_of(fragment_lines, false),
        before,
        after,
    }))
}

// The nearest position of the lines, if it is within the limits.
fn nearest(lines: &[String], place: Place) -> Option<Place>
    requires { 0 < length lines.now }
    ensures place { IfSome result (IsPlaceOf (lines_of lines.now)) }
    ensures text { IfSome result (IsPlace (text_of lines.now)) }
    ensures small { IfSome result (λ place. (place.0 ≤ 2 ^ 32) × (place.1 ≤ 2 ^ 32)) }
{
    let (row, column) = clip(lines, place);
    if row <= LIMIT && column <= LIMIT {
        Some((row, column))
    } else {
        None
    }
}

// The symbol before a position of the lines.
fn symbol_at(lines: &[String], place: Place) -> Option<SymbolBefore>
    requires { IsPlaceOf (lines_of lines.now) place }
    ensures { IfSome result (λ before. IsSymbolBefore (text_of lines.now) place before.start
        (symbol_in before.character)) }
{
    let offset = byte_offset(lines[place.0].as_str(), place.1);
    symbol_before(lines, place, offset)
}

fn is_same(one: Place, other: Place) -> bool
    ensures { IsTrue result ↔ (one ≡ other) }
{
    one.0 == other.0 && one.1 == other.1
}
