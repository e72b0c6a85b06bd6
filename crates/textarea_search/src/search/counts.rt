//! The number of matches in lines, and which of them starts at a position.
ghost use Rattle.std.specs.Prelude.{◌≡◌, ◌+◌, ◌<◌, ◌≤◌, ◌==◌, length, IfSome};
ghost use Rattle.std.specs.List.{position_from};
ghost use Rattle.regex.specs.Strings.{matcher_pattern};
ghost use Rattle.textarea_text.specs.Prelude.{size_limit, size_of};
ghost use Rattle.textarea_search.specs.Counts.{index_at};
ghost use Rattle.textarea_search.specs.Spans.{columns_in};
ghost use Rattle.textarea_search.specs.Starts.{starts_by};

use crate::search::listed::next_listed;
use crate::search::listed_match::match_after;
use regex::Matcher;

/// Returns the number of matches in these lines.
pub(crate) fn count_in_lines(matcher: &mut Matcher<'_>, lines: &[String]) -> usize
    requires limit { size_of lines.now ≤ size_limit }
    ensures count { result ≡ length (starts_by (matcher_pattern matcher.old) 0 lines.now) }
    ensures least { result ≤ size_of lines.now }
    ensures same { matcher_pattern matcher.new ≡ matcher_pattern matcher.old }
{
    let mut count = 0;
    for line in lines {
        count += count_in_line(matcher, line);
    }
    count
}

// Returns the number of matches in a line.
fn count_in_line(matcher: &mut Matcher<'_>, line: &str) -> usize
    ensures count { result ≡ length (columns_in (matcher_pattern matcher.old) line.now) }
    ensures least { result ≤ length line.now + 1 }
    ensures same { matcher_pattern matcher.new ≡ matcher_pattern matcher.old }
{
    let mut count = 0;
    let mut after = 0;
    while let Some(found) = next_listed(matcher, line, after) {
        count += 1;
        after = found.end() + 1;
    }
    count
}

/// Returns the number, from 0, of the match that starts at the cursor, if one does.
pub(crate) fn index_in_lines(
    matcher: &mut Matcher<'_>,
    lines: &[String],
    cursor: (usize, usize),
) -> Option<usize>
    requires row { cursor.0 < length lines.now }
    requires limit { size_of lines.now ≤ size_limit }
    ensures index { result
        ≡ index_at cursor (starts_by (matcher_pattern matcher.old) 0 lines.now) }
{
    let (row, column) = cursor;
    let here = index_in_line(matcher, &lines[row], column)?;
    let before = count_in_lines(matcher, &lines[..row]);
    Some(before + here)
}

// Returns the number, from 0, of the match of a line that starts at the column, if one does.
fn index_in_line(matcher: &mut Matcher<'_>, line: &str, column: usize) -> Option<usize>
    ensures index { result ≡ position_from (λ start. start == column) 0
        (columns_in (matcher_pattern matcher.old) line.now) }
    ensures within { IfSome result (λ index. index ≤ length line.now) }
    ensures same { matcher_pattern matcher.new ≡ matcher_pattern matcher.old }
{
    let mut index = 0;
    let mut last = None;
    loop {
        let found = match_after(matcher, line, last)?;
        if found.column == column {
            return Some(index);
        }
        index += 1;
        last = Some(found);
    }
}
