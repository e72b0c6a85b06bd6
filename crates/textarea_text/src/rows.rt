//! Lines that replace others: built beside the old lines, then put in without allocating.
ghost use Rattle.std.specs.Prelude.{◌≡◌, ◌+◌, ◌-◌, ◌<◌, ◌≤◌, ◌++◌, ◌∷◌, ◌↔◌, [], length, string_bytes, take, drop, MatchOption, encode_utf8_all, vec_len, vec_capacity, min, IfOk, IsOk, OnOk, OnErr, slice_index, true};
ghost use Rattle.textarea_text.specs.Prelude.{chars, char_count, is_char_start, size_limit, characters, following, joined, lines_of, symbol_in, text_of};
ghost use Rattle.textarea_text.specs.Prelude.{offset_at, IsPlaceOf, IsSymbolBefore, ReplacesRows, index_of, replaced, size_of, ReplacesBetween};

use std::alloc::{AllocError, Global};
use textarea_util::limit::within_limit;
use textarea_util::replace::replace_items;

/// Returns the byte offset of a column, counted in characters and at most the line's length. A
/// column that equals the length in bytes needs no walk, since then each character is one byte.
pub fn byte_offset(line: &str, column: usize) -> usize
    requires { column ≤ length (chars line.now) }
    ensures { result ≡ length (encode_utf8_all (take column (chars line.now))) }
{
    byte_offset_from(line, (0, 0), column)
}

/// Returns the byte offset of a column, given another column with its byte offset. Only the text
/// between the two is walked, and nothing if the column equals the line's length in bytes.
pub fn byte_offset_from(line: &str, known: (usize, usize), column: usize) -> usize
    requires known { known.0 ≤ length (chars line.now) }
    requires offset { known.1 ≡ length (encode_utf8_all (take known.0 (chars line.now))) }
    requires column { column ≤ length (chars line.now) }
    ensures { result ≡ length (encode_utf8_all (take column (chars line.now))) }
{
    let (from, offset) = known;
    if line.len() == column {
        return column;
    }
    if column < from {
        return offset_back(line, from, offset, column);
    }
    offset_ahead(line, from, offset, column)
}

// The same for a column at or after the known one.
fn offset_ahead(line: &str, from: usize, offset: usize, column: usize) -> usize
    requires ordered { from ≤ column }
    requires offset { offset ≡ length (encode_utf8_all (take from (chars line.now))) }
    requires column { column ≤ length (chars line.now) }
    ensures { result ≡ length (encode_utf8_all (take column (chars line.now))) }
{
    offset + offset_within(&line[offset..], column - from)
}

// The same for a column at or before the known one.
fn offset_back(line: &str, from: usize, offset: usize, column: usize) -> usize
    requires ordered { column ≤ from }
    requires from { from ≤ length (chars line.now) }
    requires offset { offset ≡ length (encode_utf8_all (take from (chars line.now))) }
    ensures { result ≡ length (encode_utf8_all (take column (chars line.now))) }
{
    let mut at = from;
    let mut bytes = offset;
    'walking: while column < at {
        bytes -= character_before(line, at, bytes).len_utf8();
        at -= 1;
    }
    bytes
}

/// Returns the byte offset of a column, or the line's length for a column past its end. The
/// characters before it are counted, and not decoded.
pub(crate) fn offset_within(line: &str, column: usize) -> usize
    ensures { result ≡ length (encode_utf8_all (take column (chars line.now))) }
{
    if line.len() <= column {
        return line.len();
    }
    start_after(line.as_bytes(), column)
}

// Returns the index of the first byte that begins a character and has `count` characters before
// it, or the number of bytes if there is none.
fn start_after(bytes: &[u8], count: usize) -> usize
    ensures within { result ≤ length bytes.now }
    ensures count { char_count (take result bytes.now) ≡ min count (char_count bytes.now) }
    ensures start { result < length bytes.now
        → is_char_start (slice_index bytes.now result) ≡ true }
{
    let (skipped, mut left) = skipped_bytes(bytes, count);
    for index in skipped..bytes.len() {
        if begins_character(bytes[index]) {
            if left == 0 {
                return index;
            }
            left -= 1;
        }
    }
    bytes.len()
}

// Returns a number of bytes in which at most `count` characters begin, and how many fewer than
// `count` these are: fewer than a short stretch has bytes, unless few bytes are left.
fn skipped_bytes(bytes: &[u8], count: usize) -> (usize, usize)
    ensures within { result.0 ≤ length bytes.now }
    ensures left { char_count (take result.0 bytes.now) + result.1 ≡ count }
{
    let none = (0, count);
    if count < SHORT_STRETCH {
        return none;
    }
    let long = skipped_stretches(bytes, none, COUNTED_AT_ONCE);
    let middle = skipped_stretches(bytes, long, MIDDLE_STRETCH);
    skipped_stretches(bytes, middle, SHORT_STRETCH)
}

// The same after `known`, which is such a number of bytes with the characters that are left, in
// stretches of this many bytes.
fn skipped_stretches(bytes: &[u8], known: (usize, usize), stretch: usize) -> (usize, usize)
    requires within { known.0 ≤ length bytes.now }
    requires some { 0 < stretch }
    requires few { stretch ≤ COUNTED_AT_ONCE }
    ensures within { result.0 ≤ length bytes.now }
    ensures left { char_count (take result.0 bytes.now) + result.1
        ≡ char_count (take known.0 bytes.now) + known.1 }
{
    let (mut at, mut left) = known;
    'skipping: while stretch <= left && stretch <= bytes.len() - at {
        left -= usize::from(count_of_starts(&bytes[at..at + stretch]));
        at += stretch;
    }
    (at, left)
}

/// Returns the number of characters in the line. They aren't decoded.
pub fn column_count(line: &str) -> usize
    ensures { result ≡ length (chars line.now) }
{
    let mut count = 0;
    let mut rest = line.as_bytes();
    'counting: while COUNTED_AT_ONCE < rest.len() {
        let (front, after) = rest.split_at(COUNTED_AT_ONCE);
        count += usize::from(count_of_starts(front));
        rest = after;
    }
    let last = count_of_starts(rest);
    count + usize::from(last)
}

// The number of bytes whose count is a byte. A processor adds many of them at once.
const COUNTED_AT_ONCE: usize = 192;

// Numbers of bytes that are added at once where fewer characters, or bytes, are left.
const MIDDLE_STRETCH: usize = 32;

const SHORT_STRETCH: usize = 8;

// The number of bytes that begin a character.
fn count_of_starts(bytes: &[u8]) -> u8
    requires { length bytes.now ≤ COUNTED_AT_ONCE }
    ensures { result ≡ char_count bytes.now }
{
    let mut count = 0;
    for byte in bytes {
        count += u8::from(begins_character(*byte));
    }
    count
}

fn begins_character(byte: u8) -> bool
    ensures { result ≡ is_char_start byte }
{
    byte < 0x80 || 0xc0 <= byte
}

// The character that ends at the column, whose byte offset is `offset`.
fn character_before(line: &str, column: usize, offset: usize) -> char
    requires some { 0 < column }
    requires within { column ≤ length (chars line.now) }
    requires offset { offset ≡ length (encode_utf8_all (take column (chars line.now))) }
    ensures { drop (column - 1) (chars line.now) ≡ result ∷ drop (column - 1 + 1) (chars line.now) }
{
    let mut before = line[..offset].chars();
    before.next_back().unwrap()
}

/// The symbol directly before a position (a character, or none for a line break), and its start.
#[derive(Clone, Copy, Debug, PartialEq, Eq)]
pub struct SymbolBefore {
    pub start: (usize, usize),
    pub character: Option<char>,
}

/// Returns the symbol before `place`, whose byte offset is `offset`; none at the start of the text.
pub fn symbol_before(lines: &[String], place: (usize, usize), offset: usize) -> Option<SymbolBefore>
    requires place { IsPlaceOf (lines_of lines.now) place }
    requires offset { offset ≡ offset_at (lines_of lines.now) place }
    ensures { MatchOption result (index_of (text_of lines.now) place ≡ 0)
        (λ before. IsSymbolBefore (text_of lines.now) place before.start
        (symbol_in before.character)) }
{
    let (row, column) = place;
    if 0 < column {
        return Some(SymbolBefore {
            start: (row, column - 1),
            character: Some(character_before(lines[row].as_str(), column, offset)),
        });
    }
    if row == 0 {
        return None;
    }
    let above = row - 1;
    let line = lines[above].as_str();
    Some(SymbolBefore {
        start: (above, column_count(line)),
        character: None,
    })
}

/// Lines that replace the `count` lines from `row` on.
#[derive(Drop)]
pub struct Replacement {
    pub row: usize,
    pub count: usize,
    pub lines: Vec<String>,
}

impl Replacement {
    /// Puts in the new lines. Out of memory leaves the lines unchanged.
    pub fn apply(self, lines: &mut Vec<String>) -> Result<(), AllocError>
        requires { self.row + self.count ≤ vec_len lines.old }
        ensures ok { OnOk result
            (lines.new.items ≡ replaced lines.old.items self.row self.count self.lines.items) }
        ensures err { OnErr result (lines.new.items ≡ lines.old.items) }
    {
        lines.reserve(self.lines.len())?;
        self.replace_in(lines);
        Ok(())
    }

    /// Puts in the new lines, for which there is room.
    pub fn replace_in(self, lines: &mut Vec<String>)
        requires within { self.row + self.count ≤ vec_len lines.old }
        requires room { vec_len lines.old + vec_len self.lines
            ≤ vec_capacity lines.old + self.count }
        ensures { lines.new.items ≡ replaced lines.old.items self.row self.count self.lines.items }
    {
        let Replacement {
            row,
            count,
            lines: new,
        } = self;
        replace_items(lines, row, count, new);
    }
}

/// Builds the lines in which `first`, and each line of `rest` after a break, replace the text
/// between two positions. There is one new line for each of these. The old lines stay until
/// `apply`.
pub fn prepare_replacement(
    alloc: Global,
    lines: &[String],
    from: (usize, usize),
    to: (usize, usize),
    first: &str,
    rest: &[String],
) -> Result<Replacement, AllocError>
    requires from { IsPlaceOf (lines_of lines.now) from }
    requires to { IsPlaceOf (lines_of lines.now) to }
    requires ordered { from.0 ≤ to.0 }
    ensures { IfOk result
        (ReplacesBetween lines.now from to
        (characters (chars first.now) ++ following (lines_of rest.now))) }
{
    let new = new_rows(alloc, lines, from, to, first, rest)?;
    Ok(Replacement {
        row: from.0,
        count: to.0 + 1 - from.0,
        lines: new,
    })
}

// The lines that replace those from the start's row to the end's.
fn new_rows(
    alloc: Global,
    lines: &[String],
    start: (usize, usize),
    end: (usize, usize),
    first: &str,
    rest: &[String],
) -> Result<Vec<String>, AllocError>
    requires start { IsPlaceOf (lines_of lines.now) start }
    requires end { IsPlaceOf (lines_of lines.now) end }
    ensures rows { IfOk result
        (λ rows. ReplacesRows (lines_of lines.now) start end
        (characters (chars first.now) ++ following (lines_of rest.now)) (lines_of rows.items)) }
    ensures len { IfOk result (λ rows. vec_len rows ≡ length rest.now + 1) }
{
    let before = lines[start.0].as_str();
    let offset = byte_offset(before, start.1);
    let head = &before[..offset];
    let after = lines[end.0].as_str();
    let tail = &after[end_offset(after, end, start, offset)..];
    let mut rows = Vec::with_capacity(alloc, rest.len() + 1)?;
    push_rows(&mut rows, head, first, rest, tail)?;
    Ok(rows)
}

// Pushes to no lines: `head` with `first`, then the lines of `rest`; `tail` ends the last of all.
fn push_rows(
    rows: &mut Vec<String>,
    head: &str,
    first: &str,
    rest: &[String],
    tail: &str,
) -> Result<(), AllocError>
    requires none { rows.old.items ≡ [] }
    ensures rows { OnOk result (joined (lines_of rows.new.items) ≡ characters (chars head.now)
        ++ ((characters (chars first.now) ++ following (lines_of rest.now))
        ++ characters (chars tail.now))) }
    ensures len { OnOk result (vec_len rows.new ≡ length rest.now + 1) }
{
    let line = put_together(*rows.allocator(), head, first)?;
    rows.push(line)?;
    rows.extend_from_slice(rest)?;
    let mut last = rows.pop().unwrap();
    last.push_str(tail)?;
    rows.push(last)?;
    Ok(())
}

fn put_together(alloc: Global, front: &str, back: &str) -> Result<String, AllocError>
    ensures { IfOk result (λ line.
        chars (string_bytes line) ≡ chars front.now ++ chars back.now) }
{
    let mut line = String::from_str(alloc, front)?;
    line.push_str(back)?;
    Ok(line)
}

// The byte offset of `end` in its line, given the byte offset of `start` in its own line.
fn end_offset(line: &str, end: (usize, usize), start: (usize, usize), offset: usize) -> usize
    requires column { end.1 ≤ length (chars line.now) }
    requires offset { start.0 ≡ end.0 → offset
        ≡ length (encode_utf8_all (take start.1 (chars line.now))) }
    ensures { result ≡ length (encode_utf8_all (take end.1 (chars line.now))) }
{
    if start.0 == end.0 && start.1 == end.1 {
        return offset;
    }
    byte_offset(line, end.1)
}

/// Returns the bytes of the lines plus their number, at most `usize::MAX`.
pub fn size_of(lines: &[String]) -> usize
    ensures { result ≡ min (size_of lines.now) usize.MAX }
{
    let mut size = 0usize;
    for line in lines {
        size = size.saturating_add(line.len()).saturating_add(1);
    }
    size
}

/// Returns the bytes of the lines plus their number, or out of memory if that is above the limit.
pub fn size_within_limit(lines: &[String]) -> Result<usize, AllocError>
    ensures size { IfOk result (λ size. size ≡ size_of lines.now) }
    ensures limit { IsOk result ↔ (size_of lines.now ≤ size_limit) }
{
    within_limit(size_of(lines))
}
