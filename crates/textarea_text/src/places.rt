//! Positions in lines. A position is a row and a column, both from 0, the column in characters.
ghost use Rattle.std.specs.Prelude.{◌≡◌, ◌+◌, ◌^◌, ◌<◌, ◌≤◌, length, min};
ghost use Rattle.textarea_text.specs.Prelude.{chars, lines_of, text_of, IsPlaceOf, end, index_of, last_row, line_end, line_of, place_of, size_of, clip};

use crate::rows::column_count;

/// Returns the position `count` symbols after `place`, or the end of the text if there are fewer. A
/// symbol is a character or the break between two lines.
pub fn ahead(lines: &[String], place: (usize, usize), count: usize) -> (usize, usize)
    requires { IsPlaceOf (lines_of lines.now) place }
    ensures value { result ≡ place_of (text_of lines.now)
        (min (index_of (text_of lines.now) place + count) (length (text_of lines.now))) }
    ensures is_place { IsPlaceOf (lines_of lines.now) result }
    ensures index { index_of (text_of lines.now) result
        ≡ min (index_of (text_of lines.now) place + count) (length (text_of lines.now)) }
{
    let last = last_row(lines);
    let mut column = place.1;
    let mut left = count;
    for row in place.0..last {
        let room = line_length(lines, row) - column;
        if left <= room {
            return (row, column + left);
        }
        left -= room + 1;
        column = 0;
    }
    let length = line_length(lines, last);
    (last, column + left.min(length - column))
}

/// Returns the end of the text: the end of its last line.
pub fn text_end(lines: &[String]) -> (usize, usize)
    requires { 0 < length lines.now }
    ensures value { result ≡ place_of (text_of lines.now) (length (text_of lines.now)) }
    ensures is_place { IsPlaceOf (lines_of lines.now) result }
    ensures index { index_of (text_of lines.now) result ≡ length (text_of lines.now) }
{
    line_end(lines, last_row(lines))
}

/// Returns the row of the last line.
pub fn last_row(lines: &[String]) -> usize
    requires { 0 < length lines.now }
    ensures value { result ≡ last_row (lines_of lines.now) }
    ensures within { result < length lines.now }
{
    lines.len() - 1
}

/// Returns the line of the row. It has fewer than 2^63 characters.
pub fn line_of(lines: &[String], row: usize) -> &str
    requires { row < length lines.now }
    ensures characters { chars result.now ≡ line_of (lines_of lines.now) row }
    ensures fits { length (line_of (lines_of lines.now) row) < 2 ^ 63 }
{
    lines[row].as_str()
}

/// Returns the number of characters in the row's line.
pub fn line_length(lines: &[String], row: usize) -> usize
    requires { row < length lines.now }
    ensures { result ≡ length (line_of (lines_of lines.now) row) }
{
    column_count(line_of(lines, row))
}

/// Returns the position after the last character of the row's line.
pub fn line_end(lines: &[String], row: usize) -> (usize, usize)
    requires { row < length lines.now }
    ensures value { result ≡ line_end (lines_of lines.now) row }
    ensures place { IsPlaceOf (lines_of lines.now) result }
{
    (row, line_length(lines, row))
}

/// Returns the nearest position: the row at most the last, the column at most its line's length.
pub fn clip(lines: &[String], place: (usize, usize)) -> (usize, usize)
    requires { 0 < length lines.now }
    ensures value { result ≡ clip (lines_of lines.now) place }
    ensures is_place { IsPlaceOf (lines_of lines.now) result }
{
    let end = line_end(lines, place.0.min(last_row(lines)));
    (end.0, place.1.min(end.1))
}

/// Returns the position where a fragment ends that is inserted at `place`.
pub fn end_of(place: (usize, usize), fragment_lines: &[String]) -> (usize, usize)
    requires some { 0 < length fragment_lines.now }
    requires room { place.0 + place.1 + size_of fragment_lines.now ≤ usize.MAX }
    ensures { result ≡ end place (text_of fragment_lines.now) }
{
    let last = line_end(fragment_lines, last_row(fragment_lines));
    if last.0 == 0 {
        (place.0, place.1 + last.1)
    } else {
        (place.0 + last.0, last.1)
    }
}
