//! The position before another one, and the ends of a word's removal.
ghost use Rattle.std.specs.Prelude.{◌≡◌, ◌<◌, ◌≤◌, length, IfSome};
ghost use Rattle.textarea_document.specs.Prelude.{chars, lines_of, text_of, IsPlaceOf, previous_place, word_end_after, word_start_before};

use textarea_text::places::line_end;
use textarea_text::rows::column_count;
use textarea_text::word::{find_word_exclusive_end_forward, find_word_start_backward};

// Returns the position of the symbol directly before this position; `None` at the text's start.
pub(crate) fn previous_place(lines: &[String], place: (usize, usize)) -> Option<(usize, usize)>
    requires { IsPlaceOf (lines_of lines.now) place }
    ensures value { result ≡ previous_place (text_of lines.now) place }
    ensures place { IfSome result (λ previous. IsPlaceOf (lines_of lines.now) previous) }
{
    let (row, column) = place;
    if 0 < column {
        return Some((row, column - 1));
    }
    if row == 0 {
        return None;
    }
    Some(line_end(lines, row - 1))
}

/// Returns the column where a removal of the word before the column begins: its start, or 0.
pub fn word_start_before(line: &str, column: usize) -> usize
    ensures value { result ≡ word_start_before (chars line.now) column }
    ensures within { result ≤ length (chars line.now) }
    ensures before { 0 < column → result < column }
{
    find_word_start_backward(line, column).unwrap_or(0)
}

/// Returns the column where the removal of the word after the column ends: the end of the first
/// word that ends after the column and before the line's end, or the line's end.
pub fn word_end_after(line: &str, column: usize) -> usize
    ensures value { result ≡ word_end_after (chars line.now) column }
    ensures within { result ≤ length (chars line.now) }
    ensures after { column < length (chars line.now) → column < result }
{
    find_word_exclusive_end_forward(line, column).unwrap_or_else(|| column_count(line))
}
