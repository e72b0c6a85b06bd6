ghost use Rattle.std.specs.Prelude.{◌≡◌, ◌≢◌, ◌≤◌, IfOk, length, option_map, slice_get};
ghost use Rattle.std.specs.List.{concat};
ghost use Rattle.textarea_text.specs.Size.{size_of};
ghost use Rattle.textarea_text.specs.Text.{lines_of};
ghost use Rattle.textarea_util.specs.Limit.{size_limit};
ghost use Rattle.textarea_c_data.specs.Copied.{ends_of, copied_over};
ghost use Rattle.textarea_c_data.specs.Lines.{IsLineOut, encoded_lines};
ghost use Rattle.textarea_c_data.specs.Split.{lines_between};

use crate::slices::{copied_text, copied_text_at, put, text_between};
use crate::status::{FALSE, OK};
use std::alloc::{AllocError, Global};

/// Returns the lines that end at these bytes; `None` if one ends before its start or past the text,
/// or is not UTF-8.
pub fn read_lines(
    alloc: Global,
    text: &[u8],
    ends: &[usize],
) -> Result<Option<Vec<String>>, AllocError>
    ensures { IfOk result (λ read. option_map (λ lines. lines_of lines.items) read
        ≡ lines_between text.now 0 ends.now) }
{
    let mut lines = Vec::new(alloc);
    let mut start: usize = 0;
    for end in ends {
        let Some(line) = text_between(text, start, *end) else {
            return Ok(None);
        };
        lines.push(String::from_str(alloc, line)?)?;
        start = *end;
    }
    Ok(Some(lines))
}

/// Writes the bytes of the lines one after another, and the byte after each, as many as there is
/// room for. Returns the number of all bytes.
pub fn write_lines(lines: &[String], out: &mut [u8], ends: &mut [usize]) -> usize
    requires { size_of lines.now ≤ size_limit }
    ensures needed { result ≡ length (concat (encoded_lines (lines_of lines.now))) }
    ensures out { out.new ≡ copied_over out.old (concat (encoded_lines (lines_of lines.now))) }
    ensures ends { ends.new ≡ copied_over ends.old (ends_of 0 (encoded_lines (lines_of lines.now))) }
{
    let mut used: usize = 0;
    for (row, line) in lines.iter().enumerate() {
        let count = copied_text_at(line.as_str(), used, out);
        used += count;
        put(used, row, ends);
    }
    used
}

/// Copies a line, if the row exists, and returns the status; `needed` gets the number of its bytes.
pub fn copy_line(lines: &[String], row: usize, out: &mut [u8], needed: &mut usize) -> u32
    ensures line { IsLineOut (slice_get (lines_of lines.now) row) result out.old out.new needed.new }
    ensures unwritten { result ≢ 0 → (out.new ≡ out.old) × (needed.new ≡ needed.old) }
{
    match lines.get(row) {
        Some(line) => {
            *needed = copied_text(line.as_str(), out);
            OK
        }
        None => FALSE,
    }
}
