//! The classes of characters, and searches for the words of a line.
//!
//! A word is a longest sequence of characters of one class other than [`CharKind::Space`]. Columns
//! count characters from 0. A search reads the classes of characters only from its start column on,
//! or back from there, and accepts any start column, even past the line's end.

ghost use Rattle.std.specs.Prelude.{◌≡◌, ◌<◌, ◌≤◌, length, IfSome};
ghost use Rattle.textarea_text.specs.Prelude.{chars, IsLeast, IsGreatest, class_of, begins, ends, lies_between, is_later_edge, next_edge, is_later_word_start, next_word_start};
ghost use Rattle.textarea_text.specs.Prelude.{is_later_past_word, next_past_word, is_word_last_from, next_word_last, is_earlier_word_start, previous_word_start};

use crate::text_slice::text_from;

/// The class of a character.
#[derive(Clone, Copy, Debug, PartialEq, Eq)]
pub enum CharKind {
    /// White space, by Unicode's `White_Space` property.
    Space,
    /// ASCII punctuation other than `_`.
    Punct,
    /// Any other character.
    Other,
}

impl CharKind {
    /// Returns the class of `c`.
    #[tactic(auto, unfolding(crate::specs::Words::class_of))]
    pub fn new(c: char) -> Self
        ensures { result ≡ class_of c }
    {
        if c.is_whitespace() {
            CharKind::Space
        } else if c.is_ascii_punctuation() && c != '_' {
            CharKind::Punct
        } else {
            CharKind::Other
        }
    }

    /// Returns whether a character of this class, after one of class `before`, begins a word.
    fn begins_word(self, before: CharKind) -> bool
        ensures { result ≡ begins before self }
    {
        self != CharKind::Space && self != before
    }

    /// Returns whether a character of this class, before one of class `after`, ends a word.
    fn ends_word(self, after: CharKind) -> bool
        ensures { result ≡ ends self after }
    {
        self != CharKind::Space && self != after
    }
}

/// An edge of a word: at its first character, or at the character right after its last.
#[derive(Clone, Copy)]
enum Edge {
    Start,
    Past,
}

impl Edge {
    /// Returns whether this edge is at a character of class `kind` after one of class `before`.
    fn lies_between(self, before: CharKind, kind: CharKind) -> bool
        ensures { result ≡ lies_between self before kind }
    {
        match self {
            Edge::Start => kind.begins_word(before),
            Edge::Past => before.ends_word(kind),
        }
    }
}

/// Returns the least column after `start_column` that has this edge of a word.
fn find_edge_forward(line: &str, start_column: usize, edge: Edge) -> Option<usize>
    ensures least { IsLeast (is_later_edge edge (chars line.now) start_column) result }
    ensures value { result ≡ next_edge edge (chars line.now) start_column }
    ensures within { IfSome result (λ e. (start_column < e) × (e < length (chars line.now))) }
{
    match find_edge(text_from(line, start_column), edge) {
        Some(column) => Some(start_column + column),
        None => None,
    }
}

/// Returns the least column after 0 that has this edge of a word.
fn find_edge(text: &str, edge: Edge) -> Option<usize>
    ensures least { IsLeast (is_later_edge edge (chars text.now) 0) result }
    ensures within { IfSome result (λ e. (0 < e) × (e < length (chars text.now))) }
{
    let mut before = CharKind::Space;
    for (column, c) in text.chars().enumerate() {
        let kind = CharKind::new(c);
        if 0 < column && edge.lies_between(before, kind) {
            return Some(column);
        }
        before = kind;
    }
    None
}

/// Returns the least column after `start_column` at which a word begins.
pub fn find_word_start_forward(line: &str, start_column: usize) -> Option<usize>
    ensures least { IsLeast (is_later_word_start (chars line.now) start_column) result }
    ensures value { result ≡ next_word_start (chars line.now) start_column }
    ensures within { IfSome result (λ e. (start_column < e) × (e < length (chars line.now))) }
{
    find_edge_forward(line, start_column, Edge::Start)
}

/// Returns the least column after `start_column` whose character is right after a word's last.
pub fn find_word_exclusive_end_forward(line: &str, start_column: usize) -> Option<usize>
    ensures least { IsLeast (is_later_past_word (chars line.now) start_column) result }
    ensures value { result ≡ next_past_word (chars line.now) start_column }
    ensures within { IfSome result (λ e. (start_column < e) × (e < length (chars line.now))) }
{
    find_edge_forward(line, start_column, Edge::Past)
}

/// Returns the least column from `start_column` on that has a word's last character.
pub fn find_word_inclusive_end_forward(line: &str, start_column: usize) -> Option<usize>
    ensures least { IsLeast (is_word_last_from (chars line.now) start_column) result }
    ensures value { result ≡ next_word_last (chars line.now) start_column }
    ensures within { IfSome result (λ e. (start_column ≤ e) × (e < length (chars line.now))) }
{
    match find_word_last(text_from(line, start_column)) {
        Some(column) => Some(start_column + column),
        None => None,
    }
}

/// Returns the least column that has a word's last character.
fn find_word_last(text: &str) -> Option<usize>
    ensures least { IsLeast (is_word_last_from (chars text.now) 0) result }
    ensures within { IfSome result (λ e. e < length (chars text.now)) }
{
    let mut before = CharKind::Space;
    let mut count = 0;
    for c in text.chars() {
        let kind = CharKind::new(c);
        if 0 < count && before.ends_word(kind) {
            return Some(count - 1);
        }
        before = kind;
        count += 1;
    }
    let is_word = before.ends_word(CharKind::Space);
    if is_word && count != 0 {
        Some(count - 1)
    } else {
        None
    }
}

// The number of columns before a start column in which a search backward looks first.
const NEAR: usize = 64;

/// Returns the greatest column before `start_column` at which a word begins. Reads the columns near
/// `start_column`, and ever more of those before it until a word begins in them.
pub fn find_word_start_backward(line: &str, start_column: usize) -> Option<usize>
    ensures greatest { IsGreatest (is_earlier_word_start (chars line.now) start_column) result }
    ensures value { result ≡ previous_word_start (chars line.now) start_column }
    ensures within { IfSome result (λ e. (e < start_column) × (e < length (chars line.now))) }
{
    let mut near = NEAR;
    'widening: while near < start_column {
        let from = start_column - near;
        if let Some(column) = find_last_word_start(text_from(line, from), near) {
            if 0 < column {
                return Some(from + column);
            }
        }
        near = near.saturating_mul(8);
    }
    find_last_word_start(line, start_column)
}

/// Returns the greatest column before `end` at which a word begins. Reads the text from its start.
fn find_last_word_start(text: &str, end: usize) -> Option<usize>
    ensures greatest { IsGreatest (is_earlier_word_start (chars text.now) end) result }
    ensures value { result ≡ previous_word_start (chars text.now) end }
    ensures within { IfSome result (λ e. (e < end) × (e < length (chars text.now))) }
{
    let mut found = None;
    let mut before = CharKind::Space;
    for (column, c) in text.chars().take(end).enumerate() {
        let kind = CharKind::new(c);
        if kind.begins_word(before) {
            found = Some(column);
        }
        before = kind;
    }
    found
}
