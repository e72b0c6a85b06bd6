//! Where a splice moves a position (a row and a column in characters, both from 0).
ghost use Rattle.std.specs.Prelude.{◌≡◌, ◌+◌, ◌≤◌};
ghost use Rattle.textarea_text.specs.Prelude.{IsUpTo, is_up_to, shifted};

/// Returns whether `one` is before `other` or the same position.
pub fn is_up_to(one: (usize, usize), other: (usize, usize)) -> bool
    ensures { result ≡ is_up_to one other }
{
    one.0 < other.0 || (one.0 == other.0 && one.1 <= other.1)
}

/// Moves `place` with the text after `old`, which moves to `new`. In the row of `old` it keeps its
/// distance from `old` in columns. In a row below it keeps its distance in rows, and its column.
pub fn shift(place: (usize, usize), old: (usize, usize), new: (usize, usize)) -> (usize, usize)
    requires after { IsUpTo old place }
    requires row { new.0 + place.0 ≤ usize.MAX }
    requires column { new.1 + place.1 ≤ usize.MAX }
    ensures { result ≡ shifted old new place }
{
    if place.0 == old.0 {
        (new.0, new.1 + (place.1 - old.1))
    } else {
        (new.0 + (place.0 - old.0), place.1)
    }
}
