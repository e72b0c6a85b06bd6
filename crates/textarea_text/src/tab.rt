//! Spaces up to the next tab stop.
ghost use Rattle.std.specs.Prelude.{◌≡◌, ◌-◌, ◌%◌, ◌<◌, ◌≤◌, length, take};
ghost use Rattle.textarea_text.specs.Prelude.{chars, width_of};

use crate::text_slice::text_before;
use unicode_width::UnicodeWidthChar;

/// Returns the number of spaces from a column to the next tab stop, from 1 to the tab length: the
/// tab length less the remainder of the width of the characters before the column. Tabs count 0.
pub fn spaces_to_stop(line: &str, column: usize, tab_length: u8) -> u8
    requires some { 0 < tab_length }
    requires within { column ≤ length (chars line.now) }
    ensures { result ≡ tab_length - (width_of (take column (chars line.now)) % tab_length) }
{
    let mut after_stop = 0usize;
    for c in text_before(line, column).chars() {
        after_stop = (after_stop + c.width().unwrap_or(0)) % tab_length as usize;
    }
    tab_length - after_stop as u8
}
