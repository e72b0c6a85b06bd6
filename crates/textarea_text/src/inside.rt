//! Changes inside one line, in place.
ghost use Rattle.std.specs.Prelude.{◌≡◌, ◌+◌, ◌^◌, ◌<◌, ◌≤◌, [], string_bytes, string_capacity, string_len, vec_len, OnOk, OnErr};
ghost use Rattle.textarea_text.specs.Prelude.{chars, characters, lines_of, text_of, offset_at, IsPlaceOf, changed, inserted};

use std::alloc::AllocError;

/// Inserts the text at the position, whose byte offset in its line is `offset`. Moves only the text
/// after it, or the whole line if it has to grow. Out of memory leaves the lines unchanged.
pub fn insert_inside(
    lines: &mut Vec<String>,
    place: (usize, usize),
    offset: usize,
    text: &str,
) -> Result<(), AllocError>
    requires place { IsPlaceOf (lines_of lines.old.items) place }
    requires offset { offset ≡ offset_at (lines_of lines.old.items) place }
    ensures ok { OnOk result
        (text_of lines.new.items
        ≡ inserted (text_of lines.old.items) place (characters (chars text.now))) }
    ensures err { OnErr result (lines.new.items ≡ lines.old.items) }
    ensures len { vec_len lines.new ≡ vec_len lines.old }
    ensures place { IsPlaceOf (lines_of lines.new.items) place }
    ensures offset { offset ≡ offset_at (lines_of lines.new.items) place }
{
    let line = &mut lines[place.0];
    make_room(line, text.len())?;
    let _ = line.insert_str(offset, text);
    Ok(())
}

// Makes room for `additional` more bytes. A line that has to grow at least doubles its capacity.
// Out of memory leaves the line unchanged.
fn make_room(line: &mut String, additional: usize) -> Result<(), AllocError>
    requires { additional < 2 ^ 63 }
    ensures bytes { string_bytes line.new ≡ string_bytes line.old }
    ensures ok { OnOk result (string_len line.old + additional ≤ string_capacity line.new) }
    ensures err { OnErr result (line.new ≡ line.old) }
{
    let needed = line.len() + additional;
    if needed <= line.capacity() {
        return Ok(());
    }
    let capacity = needed.max(2 * line.capacity());
    let mut grown = String::with_capacity(*line.allocator(), capacity)?;
    let _ = grown.push_str(line.as_str());
    *line = grown;
    Ok(())
}

/// Removes, in place and without allocating, the text between two columns with these byte offsets.
pub fn remove_inside(
    lines: &mut Vec<String>,
    start: (usize, usize),
    offset: usize,
    end_column: usize,
    end_offset: usize,
)
    requires start { IsPlaceOf (lines_of lines.old.items) start }
    requires offset { offset ≡ offset_at (lines_of lines.old.items) start }
    requires end { IsPlaceOf (lines_of lines.old.items) (start.0, end_column) }
    requires end_offset { end_offset
        ≡ offset_at (lines_of lines.old.items) (start.0, end_column) }
    requires ordered { start.1 ≤ end_column }
    ensures text { text_of lines.new.items
        ≡ changed (text_of lines.old.items) start (start.0, end_column) [] }
    ensures len { vec_len lines.new ≡ vec_len lines.old }
    ensures start { IsPlaceOf (lines_of lines.new.items) start }
    ensures offset { offset ≡ offset_at (lines_of lines.new.items) start }
{
    let line = &mut lines[start.0];
    let _ = line.replace_range(offset..end_offset, "");
}
