//! Copies of the text between two positions.
ghost use Rattle.std.specs.Prelude.{◌≡◌, ◌+◌, ◌≤◌, ◌++◌, ◌∷◌, length, take, drop, vec_len, IfOk, OnOk, []};
ghost use Rattle.textarea_text.specs.Prelude.{chars, lines_of, text_of, IsPlaceOf, index_of, symbols_between};

use crate::rows::{byte_offset, byte_offset_from, offset_within};
use std::alloc::{AllocError, Global};

/// Returns the text between two positions as a fragment, one string for each row that it touches.
pub fn between(
    alloc: Global,
    lines: &[String],
    from: (usize, usize),
    to: (usize, usize),
) -> Result<Vec<String>, AllocError>
    requires from { IsPlaceOf (lines_of lines.now) from }
    requires to { IsPlaceOf (lines_of lines.now) to }
    requires ordered { index_of (text_of lines.now) from ≤ index_of (text_of lines.now) to }
    ensures len { IfOk result (λ fragment_lines. vec_len fragment_lines + from.0 ≡ to.0 + 1) }
    ensures text { IfOk result
        (λ fragment_lines. text_of fragment_lines.items ≡ symbols_between (text_of lines.now) from
        to) }
{
    let mut fragment_lines = Vec::with_capacity(alloc, to.0 - from.0 + 1)?;
    let first = lines[from.0].as_str();
    if from.0 == to.0 {
        push_line(&mut fragment_lines, text_between(first, from.1, to.1))?;
        return Ok(fragment_lines);
    }
    push_line(&mut fragment_lines, text_from(first, from.1))?;
    fragment_lines.extend_from_slice(&lines[from.0 + 1..to.0])?;
    push_line(&mut fragment_lines, text_before(lines[to.0].as_str(), to.1))?;
    Ok(fragment_lines)
}

/// Appends a copy of the text.
pub(crate) fn push_line(fragment_lines: &mut Vec<String>, text: &str) -> Result<(), AllocError>
    ensures rows { OnOk result
        (lines_of fragment_lines.new.items ≡ lines_of fragment_lines.old.items ++ chars text.now ∷
        []) }
    ensures len { OnOk result (vec_len fragment_lines.new ≡ vec_len fragment_lines.old + 1) }
{
    let fragment_line = String::from_str(*fragment_lines.allocator(), text)?;
    fragment_lines.push(fragment_line)?;
    Ok(())
}

/// The text of a line before the column.
pub(crate) fn text_before(line: &str, column: usize) -> &str
    requires { column ≤ length (chars line.now) }
    ensures { chars result.now ≡ take column (chars line.now) }
{
    &line[..byte_offset(line, column)]
}

/// The text of a line from the column on, which is empty for a column past the line's end.
pub(crate) fn text_from(line: &str, column: usize) -> &str
    ensures { chars result.now ≡ drop column (chars line.now) }
{
    &line[offset_within(line, column)..]
}

// The text of a line between two columns.
fn text_between(line: &str, start: usize, end: usize) -> &str
    requires start { start ≤ end }
    requires end { end ≤ length (chars line.now) }
    ensures { chars result.now ≡ drop start (take end (chars line.now)) }
{
    let from = byte_offset(line, start);
    let to = byte_offset_from(line, (start, from), end);
    &line[from..to]
}
