//! Moves by paragraphs.
ghost use Rattle.std.specs.Prelude.{◌≡◌, ◌<◌, length, IfSome};
ghost use Rattle.textarea_document.specs.Prelude.{lines_of, IsPlaceOf, line_of, is_empty_line, is_paragraph_start, next_paragraph_start, previous_paragraph_start, paragraph_back, paragraph_forward};

use textarea_text::places::{clip, last_row};

/// Returns the cursor's column in the line where the next paragraph begins, or in the last line.
pub fn paragraph_forward(lines: &[String], cursor: (usize, usize)) -> (usize, usize)
    requires { IsPlaceOf (lines_of lines.now) cursor }
    ensures value { result ≡ paragraph_forward (lines_of lines.now) cursor }
    ensures place { IsPlaceOf (lines_of lines.now) result }
{
    let row = next_paragraph_start(lines, cursor.0).unwrap_or(last_row(lines));
    clip(lines, (row, cursor.1))
}

/// Returns the position at the cursor's column in the nearest line above where a paragraph begins,
/// or in the first line; `None` from the first line.
pub fn paragraph_back(lines: &[String], cursor: (usize, usize)) -> Option<(usize, usize)>
    requires { IsPlaceOf (lines_of lines.now) cursor }
    ensures value { result ≡ paragraph_back (lines_of lines.now) cursor }
    ensures place { IfSome result (λ place. IsPlaceOf (lines_of lines.now) place) }
{
    if cursor.0 == 0 {
        return None;
    }
    let row = previous_paragraph_start(lines, cursor.0).unwrap_or(0);
    Some(clip(lines, (row, cursor.1)))
}

// Returns the first line below this one where a paragraph begins.
fn next_paragraph_start(lines: &[String], start: usize) -> Option<usize>
    requires { start < length lines.now }
    ensures value { result ≡ next_paragraph_start (lines_of lines.now) start }
    ensures within { IfSome result (λ row. row < length lines.now) }
{
    for row in start + 1..lines.len() {
        if is_paragraph_start(lines, row) {
            return Some(row);
        }
    }
    None
}

// Returns the last line above this one where a paragraph begins.
fn previous_paragraph_start(lines: &[String], start: usize) -> Option<usize>
    requires { start < length lines.now }
    ensures value { result ≡ previous_paragraph_start (lines_of lines.now) start }
    ensures within { IfSome result (λ row. row < length lines.now) }
{
    for row in (0..start).rev() {
        if is_paragraph_start(lines, row) {
            return Some(row);
        }
    }
    None
}

// Returns whether a paragraph begins at the line, after an empty line.
fn is_paragraph_start(lines: &[String], row: usize) -> bool
    requires { row < length lines.now }
    ensures { result ≡ is_paragraph_start (lines_of lines.now) row }
{
    0 < row && !is_empty_row(lines, row) && is_empty_row(lines, row - 1)
}

fn is_empty_row(lines: &[String], row: usize) -> bool
    requires { row < length lines.now }
    ensures { result ≡ is_empty_line (line_of (lines_of lines.now) row) }
{
    lines[row].is_empty()
}
