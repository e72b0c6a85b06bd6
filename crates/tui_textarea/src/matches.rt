//! The matches of the search pattern that count for a cursor's unit, and those that can be replaced.
ghost use Rattle.std.specs.Prelude.{◌≡◌, ◌<◌, ◌≤◌, ◌+◌, ◌&&◌, ◌∷◌, [], All, encode_utf8_all, filter, find, length, map, reverse, take, IfOk, IsOk, None};
ghost use Rattle.std.specs.Str.{chars};
ghost use Rattle.textarea_clusters.specs.Edges.{is_cluster_edge};
ghost use Rattle.textarea_ranges.specs.Lookup.{AreApart};
ghost use Rattle.textarea_text.specs.Place.{line_of};
ghost use Rattle.tui_textarea.specs.Prelude.{lines_of, size_limit, size_of};
ghost use Rattle.textarea_search.specs.Counts.{index_at};
ghost use Rattle.textarea_search.specs.Starts.{found_start, is_ahead, is_later};
ghost use Rattle.textarea_search.specs.declared.search.direction.Direction.TheVariants.{Back};
ghost use Rattle.tui_textarea.specs.WholeMatches.{IsMatchOfLines, begins_at, cluster_starts, cuts_no_cluster, cuts_no_range, indices_of, is_outside, match_at, replaceable_in, start_of_match, unit_matches, whole_matches};

use std::alloc::{AllocError, Global};
use textarea_clusters::edges::is_cluster_edge_from;
use textarea_data::cursor::CursorUnit;
use textarea_data::range::AtomicRange;
use textarea_ranges::lookup::range_around;
use textarea_search::search::{Direction, Search, TextMatch};

/// Returns, for each match in the lines that can be replaced, the numbers of symbols before its
/// start and before its end.
pub(crate) fn replaceable_in(
    alloc: Global,
    unit: CursorUnit,
    search: &Search,
    ranges: &[AtomicRange],
    lines: &[String],
) -> Result<Vec<(usize, usize)>, AllocError>
    requires apart { AreApart ranges.now }
    requires limit { size_of lines.now ≤ size_limit }
    ensures found { IfOk result (λ indices. indices.items
        ≡ replaceable_in unit ranges.now search.now (lines_of lines.now)) }
    ensures no_pattern { search.now ≡ None → IsOk result }
{
    let found = unit_matches(alloc, unit, search, ranges, 0, lines)?;
    if found.is_empty() {
        return Ok(Vec::new(alloc));
    }
    indices_of(alloc, found.as_slice())
}

fn indices_of(alloc: Global, matches: &[TextMatch]) -> Result<Vec<(usize, usize)>, AllocError>
    ensures { IfOk result (λ indices. indices.items ≡ map indices_of matches.now) }
{
    let mut indices = Vec::new(alloc);
    for found in matches {
        indices.push(found.indices)?;
    }
    Ok(indices)
}

/// Returns the match that begins at the position, if there is one and it can be replaced.
pub(crate) fn match_at(
    alloc: Global,
    unit: CursorUnit,
    search: &Search,
    ranges: &[AtomicRange],
    lines: &[String],
    place: (usize, usize),
) -> Result<Option<TextMatch>, AllocError>
    requires apart { AreApart ranges.now }
    requires row { place.0 < length lines.now }
    requires limit { size_of lines.now ≤ size_limit }
    ensures found { IfOk result (λ found. found
        ≡ match_at unit ranges.now search.now (lines_of lines.now) place) }
    ensures no_pattern { search.now ≡ None → IsOk result }
{
    let (row, column) = place;
    let found = unit_matches(alloc, unit, search, ranges, row, one_line(lines, row))?;
    Ok(first_at(found.as_slice(), column))
}

/// Returns where each match in the lines starts that cuts no cluster.
pub(crate) fn cluster_starts_in(
    alloc: Global,
    search: &Search,
    lines: &[String],
) -> Result<Vec<(usize, usize)>, AllocError>
    requires limit { size_of lines.now ≤ size_limit }
    ensures found { IfOk result
        (λ starts. starts.items ≡ cluster_starts search.now (lines_of lines.now)) }
    ensures no_pattern { search.now ≡ None → IsOk result }
{
    let found = unit_matches(alloc, CursorUnit::Cluster, search, &[], 0, lines)?;
    if found.is_empty() {
        return Ok(Vec::new(alloc));
    }
    starts_of(alloc, found.as_slice())
}

fn starts_of(alloc: Global, matches: &[TextMatch]) -> Result<Vec<(usize, usize)>, AllocError>
    ensures { IfOk result (λ starts. starts.items ≡ map start_of_match matches.now) }
{
    let mut starts = Vec::new(alloc);
    for found in matches {
        starts.push((found.row, found.columns.0))?;
    }
    Ok(starts)
}

/// Returns the start that a search finds: the first in its direction or, if there is none, the first
/// one from the text's other end.
pub(crate) fn found_start(
    direction: Direction,
    starts: &[(usize, usize)],
    cursor: (usize, usize),
    match_cursor: bool,
) -> Option<(usize, usize)>
    ensures { result ≡ found_start direction starts.now cursor match_cursor }
{
    match direction {
        Direction::Forward => match first_after(starts, cursor, match_cursor) {
            Some(place) => Some(place),
            None => starts.first().copied(),
        },
        Direction::Back => match last_before(starts, cursor, match_cursor) {
            Some(place) => Some(place),
            None => starts.last().copied(),
        },
    }
}

fn first_after(
    starts: &[(usize, usize)],
    cursor: (usize, usize),
    match_cursor: bool,
) -> Option<(usize, usize)>
    ensures { result ≡ find (is_later cursor match_cursor) starts.now }
{
    starts
        .iter()
        .copied()
        .find(|place| is_later(cursor, match_cursor, *place))
}

fn last_before(
    starts: &[(usize, usize)],
    cursor: (usize, usize),
    match_cursor: bool,
) -> Option<(usize, usize)>
    ensures { result ≡ find (is_ahead Back cursor match_cursor) (reverse starts.now) }
{
    starts
        .iter()
        .rev()
        .copied()
        .find(|place| is_later(*place, match_cursor, cursor))
}

// Returns whether the position is after the mark in the text or, with `at_mark`, at it.
fn is_later(mark: (usize, usize), at_mark: bool, place: (usize, usize)) -> bool
    ensures { result ≡ is_later mark at_mark place }
{
    mark.0 < place.0 || place.0 == mark.0 && (mark.1 < place.1 || at_mark && place.1 == mark.1)
}

/// Returns the number, counted from 0, of the start at the cursor, if one is there.
pub(crate) fn index_at(cursor: (usize, usize), starts: &[(usize, usize)]) -> Option<usize>
    ensures { result ≡ index_at cursor starts.now }
{
    let mut index = 0;
    for place in starts {
        if cursor.0 == place.0 && cursor.1 == place.1 {
            return Some(index);
        }
        index += 1;
    }
    None
}

// Returns the line of a row, as a slice.
fn one_line(lines: &[String], row: usize) -> &[String]
    requires { row < length lines.now }
    ensures line { lines_of result.now ≡ line_of (lines_of lines.now) row ∷ [] }
    ensures one { length result.now ≡ 1 }
    ensures limit { size_of result.now ≤ size_of lines.now }
{
    &lines[row..=row]
}

// Returns the first match that begins at the column.
fn first_at(matches: &[TextMatch], column: usize) -> Option<TextMatch>
    ensures { result ≡ find (begins_at column) matches.now }
{
    for found in matches {
        if found.columns.0 == column {
            return Some(*found);
        }
    }
    None
}

// Returns the matches that `whole_matches` returns and that, if the cursor goes by clusters, cut none.
fn unit_matches(
    alloc: Global,
    unit: CursorUnit,
    search: &Search,
    ranges: &[AtomicRange],
    first_row: usize,
    lines: &[String],
) -> Result<Vec<TextMatch>, AllocError>
    requires apart { AreApart ranges.now }
    requires rows { first_row + length lines.now ≤ usize.MAX }
    requires limit { size_of lines.now ≤ size_limit }
    ensures found { IfOk result (λ matches. matches.items
        ≡ unit_matches unit ranges.now search.now first_row (lines_of lines.now)) }
    ensures no_pattern { search.now ≡ None → IsOk result }
{
    let matches = whole_matches(alloc, search, ranges, first_row, lines)?;
    match unit {
        CursorUnit::Character => Ok(matches),
        CursorUnit::Cluster if matches.is_empty() => Ok(matches),
        CursorUnit::Cluster => between_clusters(alloc, first_row, lines, matches.as_slice()),
    }
}

// Returns those of the matches in these lines that cut no cluster. The lines are walked only once, if
// the matches are in order.
fn between_clusters(
    alloc: Global,
    first_row: usize,
    lines: &[String],
    matches: &[TextMatch],
) -> Result<Vec<TextMatch>, AllocError>
    requires within { All (IsMatchOfLines first_row (lines_of lines.now)) matches.now }
    ensures { IfOk result (λ kept. kept.items
        ≡ filter (cuts_no_cluster first_row (lines_of lines.now)) matches.now) }
{
    let mut kept = Vec::new(alloc);
    let mut row = first_row;
    let mut known = (0, 0);
    for found in matches {
        if found.row != row {
            row = found.row;
            known = (0, 0);
        }
        let line = lines[row - first_row].as_str();
        let (keeps, last) = has_edges(line, known, found.columns);
        known = last;
        if keeps {
            kept.push(*found)?;
        }
    }
    Ok(kept)
}

// Returns whether a cluster begins or ends at both columns, given another column with its byte offset;
// and the second column with its own.
fn has_edges(line: &str, known: (usize, usize), columns: (usize, usize)) -> (bool, (usize, usize))
    requires known { known.0 ≤ length (chars line.now) }
    requires offset { known.1 ≡ length (encode_utf8_all (take known.0 (chars line.now))) }
    requires first { columns.0 ≤ length (chars line.now) }
    requires last { columns.1 ≤ length (chars line.now) }
    ensures edges { result.0 ≡ (is_cluster_edge (chars line.now) columns.0
        && is_cluster_edge (chars line.now) columns.1) }
    ensures column { result.1.0 ≡ columns.1 }
    ensures offset { result.1.1 ≡ length (encode_utf8_all (take columns.1 (chars line.now))) }
{
    let (begins, start) = is_cluster_edge_from(line, known, columns.0);
    let (ends, stop) = is_cluster_edge_from(line, (columns.0, start), columns.1);
    (begins && ends, (columns.1, stop))
}

// Returns the matches of the pattern in these lines, the first of which has the given row, that
// have neither end strictly inside one of the ranges. Symbols are counted from the first line on.
fn whole_matches(
    alloc: Global,
    search: &Search,
    ranges: &[AtomicRange],
    first_row: usize,
    lines: &[String],
) -> Result<Vec<TextMatch>, AllocError>
    requires apart { AreApart ranges.now }
    requires rows { first_row + length lines.now ≤ usize.MAX }
    requires limit { size_of lines.now ≤ size_limit }
    ensures found { IfOk result (λ matches. matches.items
        ≡ whole_matches ranges.now search.now first_row (lines_of lines.now)) }
    ensures no_pattern { search.now ≡ None → IsOk result }
{
    let Some(mut matcher) = search.line_matcher()? else {
        return Ok(Vec::new(alloc));
    };
    let mut matches = matcher.text_matches(first_row, lines)?;
    matches.retain(|found| cuts_no_range(ranges, *found));
    Ok(matches)
}

fn cuts_no_range(ranges: &[AtomicRange], found: TextMatch) -> bool
    requires { AreApart ranges.now }
    ensures { result ≡ cuts_no_range ranges.now found }
{
    is_outside(ranges, (found.row, found.columns.0))
        && is_outside(ranges, (found.row, found.columns.1))
}

fn is_outside(ranges: &[AtomicRange], place: (usize, usize)) -> bool
    requires { AreApart ranges.now }
    ensures { result ≡ is_outside ranges.now place }
{
    range_around(ranges, place).is_none()
}
