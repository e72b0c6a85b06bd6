//! The columns at which the matches of a line start and end, counted in one pass over the line.
ghost use Rattle.std.specs.Prelude.{◌≡◌, ◌≤◌, All, length, OnOk};
ghost use Rattle.std.specs.Str.{chars};
ghost use Rattle.regex.specs.Strings.{matcher_pattern};
ghost use Rattle.textarea_search.specs.ColumnPairs.{column_pairs_after};

use crate::search::listed::{column_from, next_listed};
use regex::Matcher;
use std::alloc::AllocError;

/// Replaces the content of a vector by the columns at which each listed match of a line starts and
/// ends (exclusive).
pub(crate) fn list_column_pairs(
    matcher: &mut Matcher<'_>,
    line: &str,
    pairs: &mut Vec<(usize, usize)>,
) -> Result<(), AllocError>
    ensures found { OnOk result (pairs.new.items
        ≡ column_pairs_after (matcher_pattern matcher.old) line.now 0) }
    ensures starts { OnOk result
        (All (λ columns. columns.0 ≤ length (chars line.now)) pairs.new.items) }
    ensures ends { OnOk result
        (All (λ columns. columns.1 ≤ length (chars line.now)) pairs.new.items) }
    ensures same { matcher_pattern matcher.new ≡ matcher_pattern matcher.old }
{
    pairs.clear();
    let mut after = 0;
    let mut known = (0, 0);
    while let Some(found) = next_listed(matcher, line, after) {
        let start = column_from(line, known, found.start());
        let end = column_from(line, (found.start(), start), found.end());
        pairs.push((start, end))?;
        known = (found.end(), end);
        after = found.end() + 1;
    }
    Ok(())
}
