//! The starts of a line's matches, stored so that further searches in the line are binary searches.
ghost use Rattle.std.specs.Prelude.{◌≡◌, ◌≤◌, All, IfSome, find, length, reverse};
ghost use Rattle.std.specs.List.Sorted.{IsNonDecreasingBy};
ghost use Rattle.std.specs.Str.{chars};
ghost use Rattle.regex.specs.Strings.{matcher_pattern};
ghost use Rattle.textarea_search.specs.Matches.{match_columns};
ghost use Rattle.textarea_search.specs.Spans.{ListsMatchesOf};
ghost use Rattle.textarea_search.specs.Starts.{IsFirstAhead, along, is_ahead_in_line, is_past};

use crate::search::cache_key::CacheKey;
use crate::search::direction::Direction;
use crate::search::listed::is_past;
use crate::search::listed_match::list_columns;
use regex::Matcher;
use std::alloc::{AllocError, Global};

/// The columns at which the matches of a pattern start in a line, from the left.
#[derive(Drop)]
pub(crate) struct LineStarts {
    key: CacheKey,
    columns: Vec<usize>,
    ghost found: { columns.items ≡ match_columns key.0 key.1 },
    ghost within: { All (λ column. column ≤ length (chars key.1)) columns.items },
    ghost ascending: { IsNonDecreasingBy (λ column. column) columns.items },
}

impl LineStarts {
    /// Returns the first start in the search's direction from the column or, with `at_column`, at
    /// it; `None` if these are not the starts of this pattern in this line.
    pub(crate) fn ahead(
        &self,
        pattern: &str,
        line: &str,
        direction: Direction,
        column: usize,
        at_column: bool,
    ) -> Option<Option<usize>>
        ensures { IfSome result (IsFirstAhead pattern.now line.now direction column at_column) }
    {
        if !self.key.is(pattern, line) {
            return None;
        }
        Some(nearest_start(self.columns.as_slice(), direction, column, at_column))
    }
}

/// Finds the starts of the pattern's matches in a line, in the memory of the starts before. Returns
/// `None` for a line of more than 65,536 matches.
pub(crate) fn line_starts(
    alloc: Global,
    before: Option<LineStarts>,
    matcher: &mut Matcher<'_>,
    pattern: &str,
    line: &str,
) -> Result<Option<LineStarts>, AllocError>
    requires { ListsMatchesOf pattern.now (matcher_pattern matcher.old) }
    ensures same { matcher_pattern matcher.new ≡ matcher_pattern matcher.old }
{
    let (own_key, mut columns) = match before {
        Some(starts) => (Some(starts.key), starts.columns),
        None => (None, Vec::new(alloc)),
    };
    if !list_columns(matcher, line, &mut columns)? {
        return Ok(None);
    }
    let key = CacheKey::of(alloc, own_key, pattern, line)?;
    Ok(Some(LineStarts { key, columns }))
}

// Returns the first of the ascending columns in the search's direction from the given one or, with
// `at_column`, at it.
fn nearest_start(
    columns: &[usize],
    direction: Direction,
    column: usize,
    at_column: bool,
) -> Option<usize>
    requires { IsNonDecreasingBy (λ start. start) columns.now }
    ensures { result
        ≡ find (is_ahead_in_line direction column at_column) (along direction columns.now) }
{
    match direction {
        Direction::Forward => first_past(columns, column, at_column),
        Direction::Back => last_before(columns, column, at_column),
    }
}

// Returns the first of the ascending columns after the mark or, with `at_mark`, at it.
fn first_past(columns: &[usize], mark: usize, at_mark: bool) -> Option<usize>
    requires { IsNonDecreasingBy (λ column. column) columns.now }
    ensures { result ≡ find (is_past mark at_mark) columns.now }
{
    let index = columns.partition_point(|column| !is_past(mark, at_mark, *column));
    if index < columns.len() {
        Some(columns[index])
    } else {
        None
    }
}

// Returns the last of the ascending columns before the mark or, with `at_mark`, at it.
fn last_before(columns: &[usize], mark: usize, at_mark: bool) -> Option<usize>
    requires { IsNonDecreasingBy (λ column. column) columns.now }
    ensures { result ≡ find (λ column. is_past column at_mark mark) (reverse columns.now) }
{
    let index = columns.partition_point(|column| is_past(*column, at_mark, mark));
    let before = index.checked_sub(1)?;
    Some(columns[before])
}
