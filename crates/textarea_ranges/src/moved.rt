//! Ranges that move with their text.
ghost use Rattle.std.specs.Prelude.{◌≡◌, ◌≤◌, ◌++◌, All, Some, filter_map, drop, length, take};
ghost use Rattle.textarea_ranges.specs.Prelude.{size_limit, Place, AreApart, IsMovable, moved_by};

use crate::lookup::ended_count;
use textarea_data::range::AtomicRange;
use textarea_text::place_shift::{is_up_to, shift};

/// Moves the ranges with a text that changes from `start` to `old`, and whose text after `old`
/// moves to `new`. A range at or before `start` stays, one at or after `old` moves, others are
/// dropped. The ranges keep their order. Goes over those between `start` and the end of the row of
/// `old`, or over all after `start` if rows move, without allocating.
pub fn move_ranges(
    ranges: &mut Vec<AtomicRange>,
    start: (usize, usize),
    old: (usize, usize),
    new: (usize, usize),
)
    requires apart { AreApart ranges.old.items }
    requires movable { All IsMovable ranges.old.items }
    requires small { (new.0 ≤ size_limit) × (new.1 ≤ size_limit) }
    ensures { ranges.new.items ≡ filter_map (moved_by start old new) ranges.old.items }
{
    let all = ranges.as_slice();
    let first = ended_count(all, start, true);
    let end = moving_end(all, old, new).max(first);
    let retained = close_up(ranges.as_mut_slice(), first, end, start, old, new);
    remove_segment(ranges, retained, end);
}

// Returns an index from which on no range moves: without a new row, that of the first range below
// the changed row.
fn moving_end(ranges: &[AtomicRange], old: (usize, usize), new: (usize, usize)) -> usize
    requires apart { AreApart ranges.now }
    requires small { new.0 ≤ size_limit }
    ensures within { result ≤ length ranges.now }
    ensures others { (start : Place) → All (λ range. moved_by start old new range ≡ Some range)
        (drop result ranges.now) }
{
    if new.0 != old.0 {
        return ranges.len();
    }
    ended_count(ranges, (old.0 + 1, 0), true)
}

// Moves the ranges from `first` to `end`, puts those that are left in front, and returns the index
// after them.
fn close_up(
    ranges: &mut [AtomicRange],
    first: usize,
    end: usize,
    start: (usize, usize),
    old: (usize, usize),
    new: (usize, usize),
) -> usize
    requires ordered { first ≤ end }
    requires inside { end ≤ length ranges.old }
    requires movable { All IsMovable ranges.old }
    requires small { (new.0 ≤ size_limit) × (new.1 ≤ size_limit) }
    ensures within { result ≤ end }
    ensures len { length ranges.new ≡ length ranges.old }
    ensures retained { take result ranges.new
        ++ filter_map (moved_by start old new) (drop end ranges.old)
        ≡ take first ranges.old ++ filter_map (moved_by start old new) (drop first ranges.old) }
    ensures others { drop end ranges.new ≡ drop end ranges.old }
{
    let mut retained = first;
    for index in first..end {
        if let Some(range) = moved(ranges[index], start, old, new) {
            ranges[retained] = range;
            retained += 1;
        }
    }
    retained
}

// Removes the ranges from `start` to `end`.
fn remove_segment(ranges: &mut Vec<AtomicRange>, start: usize, end: usize)
    requires ordered { start ≤ end }
    requires within { end ≤ length ranges.old.items }
    ensures { ranges.new.items ≡ take start ranges.old.items ++ drop end ranges.old.items }
{
    if start < end {
        drop(ranges.drain(start..end));
    }
}

// The moved range; none if it is dropped.
fn moved(
    range: AtomicRange,
    start: (usize, usize),
    old: (usize, usize),
    new: (usize, usize),
) -> Option<AtomicRange>
    requires movable { IsMovable range }
    requires small { (new.0 ≤ size_limit) × (new.1 ≤ size_limit) }
    ensures { result ≡ moved_by start old new range }
{
    let first = (range.row, range.start_col);
    let after = (range.row, range.end_col);
    if is_up_to(after, start) {
        return Some(range);
    }
    if !is_up_to(old, first) {
        return None;
    }
    let place = shift(first, old, new);
    Some(AtomicRange {
        row: place.0,
        start_col: place.1,
        end_col: shift(after, old, new).1,
    })
}
