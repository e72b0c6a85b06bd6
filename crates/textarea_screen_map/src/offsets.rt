//! Columns and byte offsets of a line, computed from the nearest of its marks. So of a long line no
//! more than some rows are read.
ghost use Rattle.std.specs.Prelude.{◌≡◌, ◌≤◌, ℕ, List, chars, encode_utf8_all, length, take, true};
ghost use Rattle.std.specs.Str.{all_scalars};
ghost use Rattle.textarea_screen_map.specs.KnownColumns.{AreColumnsAtBytes, IsColumnAtByte};

use textarea_text::rows::{byte_offset_from, column_count};

/// Returns the byte offset of a column of the line, given the marks of the line's rows and another
/// known position.
pub fn offset_of_column(
    line: &str,
    column: usize,
    marks: &[(usize, usize)],
    known: (usize, usize),
) -> usize
    requires marks { AreColumnsAtBytes (chars line.now) marks.now }
    requires known { IsColumnAtByte (chars line.now) known }
    requires column { column ≤ length (chars line.now) }
    ensures { result ≡ length (encode_utf8_all (take column (chars line.now))) }
{
    let mark = last_mark(marks, column, line.len());
    if mark.0 < known.0 {
        return byte_offset_from(line, known, column);
    }
    byte_offset_from(line, mark, column)
}

/// Returns the number of characters of the text that begins a line, given the line's marks.
pub fn columns_of_front(front: &str, marks: &[(usize, usize)]) -> usize
    requires { (line : List ℕ) × (all_scalars line ≡ true) × AreColumnsAtBytes line marks.now
        × (front.now ≡ take (length front.now) (encode_utf8_all line)) }
    ensures { result ≡ length (chars front.now) }
{
    let (column, offset) = last_mark(marks, front.len(), front.len());
    column + column_count(&front[offset..])
}

// Returns the last mark that has at most this column and at most this byte offset, or the line's
// start if there is none. Marks are in ascending order.
fn last_mark(marks: &[(usize, usize)], column: usize, offset: usize) -> (usize, usize)
    ensures known { (line : List ℕ) → AreColumnsAtBytes line marks.now
        → IsColumnAtByte line result }
    ensures column { result.0 ≤ column }
    ensures offset { result.1 ≤ offset }
{
    let mut last = (0, 0);
    let mut low = 0;
    let mut high = marks.len();
    'halving: while low < high {
        let middle = low + (high - low) / 2;
        let mark = marks[middle];
        if mark.0 <= column && mark.1 <= offset {
            last = mark;
            low = middle + 1;
        } else {
            high = middle;
        }
    }
    last
}
