//! Where a cursor stops that goes by whole characters: neither inside a grapheme cluster nor inside
//! an atomic range. Positions are (row, column), a column in characters.
ghost use Rattle.std.specs.Prelude.{◌≡◌, ◌<◌, ◌≤◌, ℕ, false, length, true};
ghost use Rattle.std.specs.Str.{chars};
ghost use Rattle.textarea_text.specs.Place.{IsPlaceOf, line_of};
ghost use Rattle.textarea_text.specs.Text.{lines_of};
ghost use Rattle.textarea_ranges.specs.Lookup.{AreApart};
ghost use Rattle.textarea_ranges.specs.Valid.{AreValid};
ghost use Rattle.textarea_clusters.specs.Stops.{column_back, is_column_stop, is_stop, stop_ahead, stop_back};

use crate::edges::{edge_ahead, edge_back};
use textarea_data::range::{AtomicCursorBias, AtomicRange};
use textarea_ranges::lookup::move_out;

/// Returns the last stop of the position's line at or before the position: the position itself, or
/// the start of what it is inside, be it a cluster, a range, or several of both that overlap.
pub fn stop_back(lines: &[String], ranges: &[AtomicRange], place: (usize, usize)) -> (usize, usize)
    requires apart { AreApart ranges.now }
    requires place { IsPlaceOf (lines_of lines.now) place }
    ensures value { result ≡ stop_back ranges.now (lines_of lines.now) place }
    ensures stop { is_stop ranges.now (lines_of lines.now) result ≡ true }
    ensures place { IsPlaceOf (lines_of lines.now) result }
{
    let line = lines[place.0].as_str();
    (place.0, column_back(line, ranges, place))
}

/// The same for a position in this line, of which the result is the column.
pub fn column_back(line: &str, ranges: &[AtomicRange], place: (usize, usize)) -> usize
    requires apart { AreApart ranges.now }
    requires within { place.1 ≤ length (chars line.now) }
    ensures value { result ≡ column_back ranges.now (chars line.now) place.0 place.1 }
    ensures stop { is_column_stop ranges.now (chars line.now) place.0 result ≡ true }
    ensures within { result ≤ place.1 }
{
    let mut stop = place.1;
    let mut before = start_of(line, ranges, (place.0, stop));
    while before < stop {
        stop = before;
        before = start_of(line, ranges, (place.0, stop));
    }
    stop
}

// Returns the column of the start of the cluster that the position is inside, or of the range that
// this is inside.
fn start_of(line: &str, ranges: &[AtomicRange], place: (usize, usize)) -> usize
    requires apart { AreApart ranges.now }
    requires within { place.1 ≤ length (chars line.now) }
    ensures within { result ≤ place.1 }
    ensures stop { result ≡ place.1 →
        is_column_stop ranges.now (chars line.now) place.0 place.1 ≡ true }
    ensures none { (column : ℕ) → result < column → column ≤ place.1 →
        is_column_stop ranges.now (chars line.now) place.0 column ≡ false }
{
    let edge = edge_back(line, place.1);
    move_out(ranges, (place.0, edge), AtomicCursorBias::Backward).1
}

/// Returns the first stop of the position's line at or after the position: the position itself, or
/// the end of what it is inside.
pub fn stop_ahead(lines: &[String], ranges: &[AtomicRange], place: (usize, usize)) -> (usize, usize)
    requires apart { AreApart ranges.now }
    requires valid { AreValid (lines_of lines.now) ranges.now }
    requires place { IsPlaceOf (lines_of lines.now) place }
    ensures value { result ≡ stop_ahead ranges.now (lines_of lines.now) place }
    ensures stop { is_stop ranges.now (lines_of lines.now) result ≡ true }
    ensures place { IsPlaceOf (lines_of lines.now) result }
{
    let mut stop = place.1;
    let mut after = end_of(lines, ranges, (place.0, stop));
    while stop < after {
        stop = after;
        after = end_of(lines, ranges, (place.0, stop));
    }
    (place.0, stop)
}

// Returns the column of the end of the cluster that the position is inside, or of the range that
// this is inside.
fn end_of(lines: &[String], ranges: &[AtomicRange], place: (usize, usize)) -> usize
    requires apart { AreApart ranges.now }
    requires valid { AreValid (lines_of lines.now) ranges.now }
    requires place { IsPlaceOf (lines_of lines.now) place }
    ensures within { result ≤ length (line_of (lines_of lines.now) place.0) }
    ensures after { place.1 ≤ result }
    ensures stop { result ≡ place.1 → is_stop ranges.now (lines_of lines.now) place ≡ true }
    ensures none { (column : ℕ) → place.1 ≤ column → column < result →
        is_stop ranges.now (lines_of lines.now) (place.0, column) ≡ false }
{
    let edge = edge_ahead(lines[place.0].as_str(), place.1);
    move_out(ranges, (place.0, edge), AtomicCursorBias::Forward).1
}
