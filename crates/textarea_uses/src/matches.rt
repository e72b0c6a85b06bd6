//! A list of all matches, made by stepping through them. Its user can rely on it that each match is
//! listed exactly once, in the order of the text.
ghost use Rattle.std.specs.Prelude.{◌≡◌, ◌<◌, ◌++◌, ◌∷◌, [], IfOk, List, OnOk, false, true};
ghost use Rattle.textarea_search.specs.Starts.{is_later};
ghost use Rattle.tui_textarea.specs.Matches.{HasPassed, StaysAtStarts};
ghost use Rattle.tui_textarea.specs.Prelude.{IsPlace, Place, index_of, match_starts};

use std::alloc::AllocError;
use tui_textarea::TextArea;
use tui_textarea::laws::{is_sound, matches_in_order};

/// Steps through all matches of the search pattern, from the text's start on, and returns where they
/// start. The cursor is then at the first one again. If it goes by clusters, no match may begin inside
/// an atomic range.
pub fn all_matches(area: &mut TextArea<'_>) -> Result<Vec<(usize, usize)>, AllocError>
    ensures { StaysAtStarts area.old → IfOk result
        (λ places. places.items ≡ match_starts area.old) }
{
    let mut places = Vec::new(area.allocator());
    matches_in_order(area);
    area.go_to((0, 0));
    let mut goes_on = area.search_forward(true)?;
    is_sound(area);
    'steps: while goes_on {
        let after = step(area, &mut places)?;
        goes_on = after;
    }
    Ok(places)
}

// Lists the match at the cursor, goes to the next one, and returns whether that is after it.
fn step(area: &mut TextArea<'_>, places: &mut Vec<(usize, usize)>) -> Result<bool, AllocError>
    ensures text { OnOk result (area.new.document.text ≡ area.old.document.text) }
    ensures stays { OnOk result (StaysAtStarts area.old → StaysAtStarts area.new) }
    ensures ahead { IfOk result (λ after. after ≡ true →
        index_of area.old.document.text area.old.document.cursor
        < index_of area.old.document.text area.new.document.cursor) }
    ensures within { OnOk result (IsPlace area.new.document.text area.new.document.cursor) }
    ensures listed { OnOk result (places.new.items
        ≡ places.old.items ++ area.old.document.cursor ∷ []) }
    ensures passed { (starts : List Place) → StaysAtStarts area.old →
        HasPassed starts places.old.items true area.old →
        IfOk result (λ after. HasPassed starts places.new.items after area.new) }
{
    matches_in_order(area);
    let place = area.cursor();
    places.push(place)?;
    area.search_forward(false)?;
    Ok(is_after(area.cursor(), place))
}

// Returns whether the one position is after the other in the text.
fn is_after(one: (usize, usize), other: (usize, usize)) -> bool
    ensures { result ≡ is_later other false one }
{
    one.0 > other.0 || (one.0 == other.0 && one.1 > other.1)
}
