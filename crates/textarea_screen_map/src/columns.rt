//! The display columns of the characters of one visual row.
ghost use Rattle.std.specs.Prelude.{◌≡◌, ◌-◌, ◌<◌, ◌≤◌, chars, drop, length, min, take, if◌then◌else◌};
ghost use Rattle.std.specs.Str.{IsCharBoundary, IsUtf8};
ghost use Rattle.textarea_screen_map.specs.Prelude.{size_limit, display_end_column, column_at, reachable_text, IsMark, LeadsTo};

use crate::line_marks::{LINE_START, Mark};
use textarea_text::rows::column_count;
use textarea_wrap::wrap::columns::{
    display_column_after, display_column_after_text, visible_count,
};

/// Returns the text of a row up to the greatest cursor column: all of it in the last row of its
/// line, else all but the last character.
pub fn reachable_text(text: &str, is_last: bool) -> &str
    ensures characters { chars result.now ≡ reachable_text (chars text.now) is_last }
    ensures short { length result.now ≤ length text.now }
{
    let mut rest = text.chars();
    if !is_last {
        rest.next_back();
    }
    rest.as_str()
}

/// Returns the number of characters of a row before the position for a display column: the first
/// position at that column, else the character that covers it, else the row's end.
pub fn character_at_column(text: &str, column: usize, tab_len: u8) -> usize
    requires { length text.now < size_limit }
    ensures { LeadsTo tab_len (chars text.now) column result }
{
    if display_column_after_text(text, 0, tab_len) < column {
        return column_count(text);
    }
    character_near_column(text, LINE_START, column, tab_len)
}

/// Returns the width of the text between two byte offsets of a line. If that text begins the line,
/// only what follows the known position of the line is read.
pub fn width_between(line: &str, start: usize, end: usize, known: Mark, tab_len: u8) -> usize
    requires short { length line.now < size_limit }
    requires ordered { start ≤ end }
    requires start { IsCharBoundary line.now start }
    requires end { IsCharBoundary line.now end }
    requires known { IsMark tab_len (chars line.now) known }
    ensures value { result
        ≡ display_end_column tab_len 0 (chars (take (end - start) (drop start line.now))) }
    ensures text { IsUtf8 (take (end - start) (drop start line.now)) }
{
    if start == 0 && known.offset <= end {
        return display_column_after_text(&line[known.offset..end], known.display, tab_len);
    }
    display_column_after_text(&line[start..end], 0, tab_len)
}

/// Returns the number of characters of a text before the position for a display column, or for the
/// text's width if that is less. Reads the text from a known position on.
pub fn character_near_column(text: &str, known: Mark, column: usize, tab_len: u8) -> usize
    requires short { length text.now < size_limit }
    requires known { IsMark tab_len (chars text.now) known }
    requires before { known.display ≤ column }
    ensures { LeadsTo tab_len (chars text.now)
        (min column (display_end_column tab_len 0 (chars text.now))) result }
{
    let count = visible_count(&text[known.offset..], column - known.display);
    let further = Mark {
        column: known.column + count,
        offset: known.offset + count,
        display: known.display + count,
    };
    character_ahead(text, further, column, tab_len)
}

// The same as `character_near_column`, character by character.
fn character_ahead(text: &str, known: Mark, column: usize, tab_len: u8) -> usize
    requires short { length text.now < size_limit }
    requires known { IsMark tab_len (chars text.now) known }
    requires before { known.display ≤ column }
    ensures { LeadsTo tab_len (chars text.now)
        (min column (display_end_column tab_len 0 (chars text.now))) result }
{
    let mut index = known.column;
    let mut at = known.display;
    let mut first = known.column; // the first position at the column `at`
    for c in text[known.offset..].chars() {
        let next = display_column_after(c, at, tab_len);
        if column <= at || column < next {
            return index;
        }
        index += 1;
        first = if at < next { index } else { first };
        at = next;
    }
    first
}
