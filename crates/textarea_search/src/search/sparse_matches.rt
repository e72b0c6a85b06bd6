//! Some of the many matches of a line, stored so that a further search in it begins near the cursor.
ghost use Rattle.std.specs.Prelude.{◌≡◌, ◌<◌, ℕ, All, Contains, IfOk, IfSome, List, OnOk};
ghost use Rattle.regex.specs.Strings.{matcher_pattern};
ghost use Rattle.textarea_search.specs.ListedMatches.{IsOneOf};
ghost use Rattle.textarea_search.specs.Matches.{match_spans};
ghost use Rattle.textarea_search.specs.Spans.{ListsMatchesOf, spans_after};
ghost use Rattle.textarea_search.specs.Starts.{IsFirstAhead};

use crate::pattern::Pattern;
use crate::search::cache_key::CacheKey;
use crate::search::direction::Direction;
use crate::search::listed_match::{ListedMatch, column_ahead, match_after};
use regex::Matcher;
use std::alloc::{AllocError, Global};

const MOST_STORED: usize = 65_536;

/// Matches of a pattern in a line, from the left. Each starts more than a 65,536th of the line's
/// length after the one before, so there are at most 65,536.
#[derive(Drop)]
pub(crate) struct SparseMatches {
    key: CacheKey,
    matches: Vec<ListedMatch>,
    ghost listed: { All (IsOneOf (match_spans key.0 key.1) key.1) matches.items },
}

impl SparseMatches {
    /// Returns the first start in the search's direction from the column or, with `at_column`, at
    /// it; `None` if these are not matches of this pattern in this line. It lists the matches after
    /// the last one that is stored before the column.
    pub(crate) fn ahead(
        &self,
        pattern: &Pattern,
        line: &str,
        direction: Direction,
        column: usize,
        at_column: bool,
    ) -> Result<Option<Option<usize>>, AllocError>
        ensures { IfOk result (λ known. IfSome known
            (IsFirstAhead pattern.now line.now direction column at_column)) }
    {
        if !self.key.is(pattern.text(), line) {
            return Ok(None);
        }
        let mut matcher = pattern.matcher()?;
        let before = last_before(self.matches.as_slice(), column);
        Ok(Some(column_ahead(&mut matcher, line, before, direction, column, at_column)))
    }
}

/// Finds matches of the pattern in a line, in the memory of the matches before.
pub(crate) fn sparse_matches(
    alloc: Global,
    before: Option<SparseMatches>,
    matcher: &mut Matcher<'_>,
    pattern: &str,
    line: &str,
) -> Result<SparseMatches, AllocError>
    requires { ListsMatchesOf pattern.now (matcher_pattern matcher.old) }
    ensures same { matcher_pattern matcher.new ≡ matcher_pattern matcher.old }
{
    let (own_key, mut matches) = match before {
        Some(sparse) => (Some(sparse.key), sparse.matches),
        None => (None, Vec::new(alloc)),
    };
    list_matches(matcher, line, &mut matches)?;
    let key = CacheKey::of(alloc, own_key, pattern, line)?;
    Ok(SparseMatches { key, matches })
}

// Replaces the content of a vector by the listed matches of a line that are stored.
fn list_matches(
    matcher: &mut Matcher<'_>,
    line: &str,
    matches: &mut Vec<ListedMatch>,
) -> Result<(), AllocError>
    ensures listed { OnOk result (All
        (IsOneOf (spans_after (matcher_pattern matcher.old) line.now 0) line.now)
        matches.new.items) }
    ensures same { matcher_pattern matcher.new ≡ matcher_pattern matcher.old }
{
    let least = line.len() / MOST_STORED + 1;
    matches.clear();
    let mut last = None;
    while let Some(found) = match_after(matcher, line, last) {
        push_if_far(matches, found, least)?;
        last = Some(found);
    }
    Ok(())
}

// Appends a match if it starts at least so many bytes after the last one.
fn push_if_far(
    matches: &mut Vec<ListedMatch>,
    found: ListedMatch,
    least: usize,
) -> Result<(), AllocError>
    ensures { (spans : List (ℕ × ℕ)) (line : List ℕ) → IsOneOf spans line found →
        All (IsOneOf spans line) matches.old.items →
        OnOk result (All (IsOneOf spans line) matches.new.items) }
{
    if let Some(last) = matches.last() {
        if found.start.saturating_sub(last.start) < least {
            return Ok(());
        }
    }
    matches.push(found)?;
    Ok(())
}

// Returns the last of the matches, which are listed from the left, that starts before the column.
// That it starts there is tested, and so doesn't depend on their order.
fn last_before(matches: &[ListedMatch], column: usize) -> Option<ListedMatch>
    ensures { IfSome result (λ found. Contains matches.now found × (found.column < column)) }
{
    let index = matches.partition_point(|found| found.column < column);
    let found = matches[index.checked_sub(1)?];
    (found.column < column).then_some(found)
}
