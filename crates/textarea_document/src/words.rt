//! Moves by words.
ghost use Rattle.std.specs.Prelude.{◌≡◌, ◌<◌, length};
ghost use Rattle.textarea_document.specs.Prelude.{lines_of, IsPlaceOf, first_word_end, next_word_row, word_back, word_end, word_forward};

use textarea_text::places::{last_row, line_end, line_of};
use textarea_text::word::{
    find_word_inclusive_end_forward, find_word_start_backward, find_word_start_forward,
};

/// Returns the line's next word start, otherwise the next line's start, otherwise this line's end.
pub fn word_forward(lines: &[String], cursor: (usize, usize)) -> (usize, usize)
    requires { IsPlaceOf (lines_of lines.now) cursor }
    ensures value { result ≡ word_forward (lines_of lines.now) cursor }
    ensures place { IsPlaceOf (lines_of lines.now) result }
{
    let (row, column) = cursor;
    match find_word_start_forward(line_of(lines, row), column) {
        Some(found) => (row, found),
        None if row + 1 < lines.len() => (row + 1, 0),
        None => line_end(lines, row),
    }
}

/// Returns the first position after the cursor with a word's last character, in its line or in a
/// later one, otherwise the text's end.
pub fn word_end(lines: &[String], cursor: (usize, usize)) -> (usize, usize)
    requires { IsPlaceOf (lines_of lines.now) cursor }
    ensures value { result ≡ word_end (lines_of lines.now) cursor }
    ensures place { IsPlaceOf (lines_of lines.now) result }
{
    let (row, column) = cursor;
    match find_word_inclusive_end_forward(line_of(lines, row), column + 1) {
        Some(found) => (row, found),
        None => later_word_end(lines, row),
    }
}

/// Returns the start of the word before the cursor in its line, otherwise the previous line's end,
/// otherwise the text's start.
pub fn word_back(lines: &[String], cursor: (usize, usize)) -> (usize, usize)
    requires { IsPlaceOf (lines_of lines.now) cursor }
    ensures value { result ≡ word_back (lines_of lines.now) cursor }
    ensures place { IsPlaceOf (lines_of lines.now) result }
{
    let (row, column) = cursor;
    match find_word_start_backward(line_of(lines, row), column) {
        Some(found) => (row, found),
        None if row == 0 => (0, 0),
        None => line_end(lines, row - 1),
    }
}

// Returns the last character of the first word below the line, or the text's end if there is none.
fn later_word_end(lines: &[String], start: usize) -> (usize, usize)
    requires { start < length lines.now }
    ensures value { result
        ≡ first_word_end (lines_of lines.now) (next_word_row (lines_of lines.now) start) }
    ensures place { IsPlaceOf (lines_of lines.now) result }
{
    for row in start + 1..lines.len() {
        if let Some(column) = find_word_inclusive_end_forward(line_of(lines, row), 0) {
            return (row, column);
        }
    }
    line_end(lines, last_row(lines))
}
