//! Laws of ranges, each stated as the contract of a function without a body.
ghost use Rattle.std.specs.Prelude.{◌≡◌, ◌↔◌, ℕ, List, [], All, Contains, MatchOption, None, Some};
ghost use Rattle.textarea_ranges.specs.Prelude.{Symbol, lines, Place, Fits, Splice, applied, AtomicDeleteDirection, AtomicRange, IsRangeAtPlace, IsInside, range_at_place, range_around};
ghost use Rattle.textarea_ranges.specs.Prelude.{CoversTheSame, Disturbs, moved_range, moved_ranges, AreInOrder, IsInOrder, in_order, rejected_of, AreValid, IsRangeOfLine};

/// Ordered ranges are the same ranges by row and start, and those with the same start keep their
/// order. No other list is so. Ordering them again changes nothing.
pub fn one_order()
    ensures in_order { (ranges : List AtomicRange) → IsInOrder ranges (in_order ranges) }
    ensures only { (ranges ordered : List AtomicRange) →
        IsInOrder ranges ordered → ordered ≡ in_order ranges }
    ensures again { (ranges : List AtomicRange) → AreInOrder (in_order ranges) }
{}

/// A list is accepted exactly if it is valid.
pub fn accepted_exactly_if_valid()
    ensures { (rows : List (List ℕ)) (ranges : List AtomicRange) →
        ((rejected_of rows (in_order ranges) ≡ []) ↔ AreValid rows ranges) }
{}

/// Of valid ranges at most one strictly contains a position, and at most one is at it in a
/// direction. That one is found, wherever it is in the list.
pub fn only_one_is_found()
    ensures inside { (rows : List (List ℕ)) (ranges : List AtomicRange) (place : Place)
        (range : AtomicRange)
        → AreValid rows ranges → Contains ranges range
        → IsInside place range → range_around ranges place ≡ Some range }
    ensures at_place { (rows : List (List ℕ)) (ranges : List AtomicRange) (place : Place)
        (direction : AtomicDeleteDirection) (range : AtomicRange)
        → AreValid rows ranges → Contains ranges range
        → IsRangeAtPlace place direction range → range_at_place ranges place direction ≡ Some
        range }
{}

/// A range that is found is in the list, and strictly contains the position or is at it. If none is
/// found, no range of the list does or is.
pub fn found_exactly_if_there()
    ensures inside { (ranges : List AtomicRange) (place : Place) → MatchOption
        (range_around ranges place)
        (All (λ range. ¬ IsInside place range) ranges)
        (λ range. Contains ranges range × IsInside place range) }
    ensures at_place { (ranges : List AtomicRange) (place : Place)
        (direction : AtomicDeleteDirection)
        → MatchOption (range_at_place ranges place direction)
        (All (λ range. ¬ IsRangeAtPlace place direction range) ranges)
        (λ range. Contains ranges range × IsRangeAtPlace place direction range) }
{}

/// Ranges move with the text. A range that a splice leaves is within a line of the new text, and
/// covers the same characters. Exactly those ranges are dropped that the splice disturbs: it
/// inserts strictly inside them or removes one of their characters. Valid ranges stay valid for the
/// new text, and ordered ranges stay ordered.
pub fn ranges_follow_the_text()
    ensures covers { (text : List Symbol) (splice : Splice) (old new : AtomicRange)
        → Fits text splice → IsRangeOfLine (lines text) old → moved_range splice old ≡ Some new
        → CoversTheSame text (applied text splice) old new }
    ensures dropped { (splice : Splice) (range : AtomicRange)
        → ((moved_range splice range ≡ None) ↔ Disturbs splice range) }
    ensures valid { (text : List Symbol) (splice : Splice) (ranges : List AtomicRange)
        → Fits text splice → AreValid (lines text) ranges
        → AreValid (lines (applied text splice)) (moved_ranges ranges splice) }
    ensures in_order { (text : List Symbol) (splice : Splice) (ranges : List AtomicRange)
        → Fits text splice → AreValid (lines text) ranges → AreInOrder ranges
        → AreInOrder (moved_ranges ranges splice) }
{}
