//! Binary searches in ranges that are valid and in order: which one contains a position, which one
//! is at it, and what a removal takes.
//! A position is a row and a column, both from 0, the column in characters.
ghost use Rattle.std.specs.Prelude.{◌≡◌, ◌≤◌, ℕ, List, All, find, length, not, true, false};
ghost use Rattle.textarea_ranges.specs.Prelude.{AreApart, IsPlaceOf, IsUpTo, IsInside, IsWidened, has_ended, range_edge, range_at_place, range_around};
ghost use Rattle.textarea_ranges.specs.Prelude.{is_range_at_place, is_inside, moved_out, passes_end, widened, AreValid, IsPartitionPoint};

use textarea_data::range::{AtomicCursorBias, AtomicDeleteDirection, AtomicRange};
use textarea_text::place_shift::is_up_to;

/// Returns the number of ranges that end before the position or, with `at_place`, at it. These are
/// the first ones.
pub(crate) fn ended_count(ranges: &[AtomicRange], place: (usize, usize), at_place: bool) -> usize
    requires { AreApart ranges.now }
    ensures within { result ≤ length ranges.now }
    ensures point { IsPartitionPoint (λ range. has_ended place at_place range ≡ true)
        (λ range. has_ended place at_place range ≡ false) ranges.now result }
{
    ranges.partition_point(|range| has_ended(*range, place, at_place))
}

// Whether the range ends before the position or, with `at_place`, at it.
fn has_ended(range: AtomicRange, place: (usize, usize), at_place: bool) -> bool
    ensures { result ≡ has_ended place at_place range }
{
    let end = (range.row, range.end_col);
    if at_place {
        is_up_to(end, place)
    } else {
        !is_up_to(place, end)
    }
}

// Returns the first range that ends after the position or, without `at_place`, at it.
fn first_left(ranges: &[AtomicRange], place: (usize, usize), at_place: bool) -> Option<AtomicRange>
    requires { AreApart ranges.now }
    ensures { result ≡ find (λ range. not (has_ended place at_place range)) ranges.now }
{
    ranges.get(ended_count(ranges, place, at_place)).copied()
}

/// Returns the range that strictly contains the position: it starts before it and ends after it.
pub fn range_around(ranges: &[AtomicRange], place: (usize, usize)) -> Option<AtomicRange>
    requires { AreApart ranges.now }
    ensures { result ≡ range_around ranges.now place }
{
    first_left(ranges, place, true).filter(|range| is_inside(*range, place))
}

fn is_inside(range: AtomicRange, place: (usize, usize)) -> bool
    ensures { result ≡ is_inside place range }
{
    range.row == place.0 && range.start_col < place.1 && place.1 < range.end_col
}

/// Moves the position out of the range that strictly contains it: to its start for `Backward`, to
/// its end for `Forward`. Any other position stays. If the ranges are valid for some lines, no
/// range strictly contains the result, and it is a position of the lines if the given one is.
pub fn move_out(
    ranges: &[AtomicRange],
    place: (usize, usize),
    bias: AtomicCursorBias,
) -> (usize, usize)
    requires { AreApart ranges.now }
    ensures value { result ≡ moved_out ranges.now place bias }
    ensures outside { (rows : List (List ℕ)) → AreValid rows ranges.now →
        All (λ range. ¬ IsInside result range) ranges.now }
    ensures place { (rows : List (List ℕ)) → AreValid rows ranges.now →
        IsPlaceOf rows place → IsPlaceOf rows result }
{
    match range_around(ranges, place) {
        Some(range) => range_edge(range, bias),
        None => place,
    }
}

// The range's start for `Backward`, its end for `Forward`.
fn range_edge(range: AtomicRange, bias: AtomicCursorBias) -> (usize, usize)
    ensures { result ≡ range_edge range bias }
{
    match bias {
        AtomicCursorBias::Backward => (range.row, range.start_col),
        AtomicCursorBias::Forward => (range.row, range.end_col),
    }
}

/// Returns the range at the position, in its row: for `Backward` one that starts before it and ends
/// at or after it, for `Forward` one that starts at or before it and ends after it.
pub fn range_at_place(
    ranges: &[AtomicRange],
    place: (usize, usize),
    direction: AtomicDeleteDirection,
) -> Option<AtomicRange>
    requires { AreApart ranges.now }
    ensures { result ≡ range_at_place ranges.now place direction }
{
    let first = first_left(ranges, place, passes_end(direction));
    first.filter(|range| is_range_at_place(*range, place, direction))
}

// Whether a range that ends at the position isn't at it in this direction.
fn passes_end(direction: AtomicDeleteDirection) -> bool
    ensures { result ≡ passes_end direction }
{
    match direction {
        AtomicDeleteDirection::Backward => false,
        AtomicDeleteDirection::Forward => true,
    }
}

// Whether the range is at the position in this direction.
fn is_range_at_place(
    range: AtomicRange,
    place: (usize, usize),
    direction: AtomicDeleteDirection,
) -> bool
    ensures { result ≡ is_range_at_place place direction range }
{
    let column = place.1;
    range.row == place.0
        && match direction {
            AtomicDeleteDirection::Backward => range.start_col < column && column <= range.end_col,
            AtomicDeleteDirection::Forward => range.start_col <= column && column < range.end_col,
        }
}

/// Widens a removal: its start moves back and its end forward, out of the ranges that strictly
/// contain them. If the ranges are valid for some lines and the removal starts at or before its
/// end, the result contains each range that the removal overlaps, takes each range whole or not at
/// all, and is the smallest that does.
pub fn widen(
    ranges: &[AtomicRange],
    from: (usize, usize),
    to: (usize, usize),
) -> ((usize, usize), (usize, usize))
    requires { AreApart ranges.now }
    ensures value { result ≡ widened ranges.now from to }
    ensures whole { (rows : List (List ℕ)) → AreValid rows ranges.now →
        IsUpTo from to → IsWidened ranges.now from to result }
    ensures places { (rows : List (List ℕ)) → AreValid rows ranges.now →
        IsPlaceOf rows from → IsPlaceOf rows to →
        IsPlaceOf rows result.0 × IsPlaceOf rows result.1 }
{
    let start = move_out(ranges, from, AtomicCursorBias::Backward);
    let end = move_out(ranges, to, AtomicCursorBias::Forward);
    (start, end)
}
