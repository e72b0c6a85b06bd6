//! Laws of text areas, each the contract of a function that does nothing.
ghost use Rattle.std.specs.Prelude.{ℕ, ◌≡◌, ◌<◌, ◌≤◌, Bool, true, IfSome, List};
ghost use Rattle.textarea_text.specs.Text.{Symbol};
ghost use Rattle.tui_textarea.specs.Prelude.{Call, IsEditUndoneAtOnce, IsInsertion, IsPlace, IsReplacement, IsReplacementUndoneAtOnce, IsUndoneAtOnce, MakesFewEdits, Fits, Splice, done_groups, RestoresAll, RestoresDocument, ListsFit, AreInTextOrder, LeadsToFirstMatch, LeadsToMatchAfter, match_starts, after_edit, is_editable, is_selected, IsSound, HasRowsFromScratch, PastesCopy};
ghost use Rattle.tui_textarea.specs.Matches.{BeginsWithFirst, GoesThroughMatches};
ghost use Rattle.tui_textarea.specs.TextsBefore.{StepsBack};

use crate::textarea::TextArea;
use textarea_lines::laws::one_list_of_rows;
use textarea_wrap::laws::one_wrapping;

/// The law of undo, for every text area: `count` undos, at most one for each done group, give the
/// text before the edits of the last `count` groups; then `count` redos restore the text and both
/// lists of edits, and leave the cursor where the newest edit leaves it. An edit that is in no group
/// with another counts as a group.
pub fn undos_restore(area: &TextArea<'_>)
    ensures { (count : ℕ) → count ≤ done_groups area.now.document.log
        → RestoresDocument area.now.document count }
{
    area.document.undos_restore();
}

/// The law of a text from before, such as the saved one, for every text area: undos can give it
/// exactly if it is the present text, or if they can give it from where one undo leads, with fewer
/// groups left to undo. So one undo after another finds it, or ends without it.
pub fn undos_reach_back(area: &TextArea<'_>)
    ensures { StepsBack area.now }
{
    area.document.undos_restore();
}

/// The law of one edit, for every text area that remembers edits: after each edit that fits the
/// text, an undo of its group and a redo restore the text, both lists of edits, and the cursor.
pub fn redo_restores_all(area: &TextArea<'_>)
    ensures { (splice : Splice) (typed : Bool) (now : ℕ) →
        Fits area.now.document.text splice → 0 < area.now.document.log.maximum
        → RestoresAll (after_edit area.now.document splice typed now) }
{
    area.document.redo_restores_all();
}

/// The law of one undo, for every text area, if no group is open. With `undo_grouping`, and if at
/// least two edits are remembered, it takes back an insertion that changed the text, also over a
/// selection; without a selection no run of typing may be open, since what is typed may join it,
/// and is then undone with it. It takes back any other edit that joins none. With grouping or
/// without, it takes back a whole replacement, if as many edits are remembered as that made, which
/// for `replace_all` are at most two for each match.
pub fn calls_are_undone_at_once(area: &TextArea<'_>)
    ensures insertions { (made : Call) → IsInsertion made → IsUndoneAtOnce area.now made }
    ensures edits { (splice : Splice) (typed : Bool) (now : ℕ) →
        IsEditUndoneAtOnce area.now.document splice typed now }
    ensures replacements { (made : Call) → IsReplacement made
        → IsReplacementUndoneAtOnce area.now made }
    ensures few { (symbols : List Symbol) → MakesFewEdits area.now symbols }
{
    area.document.is_sound();
}

/// The law of matches, for every text area: their starts are in the order of the text, each once. A
/// search from one of them goes to the next, and from the last one to the first; a search from the
/// text's start that may stay there goes to the first. So a walk that begins there, and goes on as
/// long as a search leads to a position after the last, passes each match once, in order: `begin`
/// and `next` say what it has passed after each search (`HasPassed`). If the cursor goes by clusters,
/// the matches are those that cut none, and no match may begin inside an atomic range for the walk.
pub fn matches_in_order(area: &TextArea<'_>)
    ensures order { AreInTextOrder (match_starts area.now) }
    ensures after { LeadsToMatchAfter area.now }
    ensures first { LeadsToFirstMatch area.now }
    ensures next { GoesThroughMatches area.now }
    ensures begin { BeginsWithFirst area.now }
{
    let _ = area.lines();
}

/// The law of both history lists, for every text area: the done edits can be undone one after
/// another, the newest first, and the undone ones redone, the next one first. Each has at least one
/// symbol, and fits the text at that time.
pub fn edits_fit(area: &TextArea<'_>)
    ensures { ListsFit area.now.document }
{
    area.document.edits_fit();
}

/// The law of copying, for every text area with selected text that can be edited: a `paste` after a
/// `copy` inserts exactly the selected symbols, at the cursor or at the end of the atomic range that
/// strictly contains it, and returns true. If there is a greatest number of characters, it inserts
/// what fits of them beside the whole text, and returns whether that is something.
pub fn copy_then_paste(area: &TextArea<'_>)
    ensures { is_editable area.now ≡ true → is_selected area.now.document ≡ true
        → PastesCopy area.now }
{
    let _ = area.document.filled_selection();
}

/// In every text area the cursor and the anchor are positions of the text, the ranges are valid for
/// it and sorted, the done edits can be undone and the undone ones redone, together they are at most
/// the maximum, and no group is undone partly.
pub fn is_sound(area: &TextArea<'_>)
    ensures { IsSound area.now.document }
{
    area.document.is_sound();
}

/// In every text area the cursor, and the beginning of a selection, are positions of the text.
pub fn cursor_and_anchor_are_places(area: &TextArea<'_>)
    ensures cursor { IsPlace area.now.document.text area.now.document.cursor }
    ensures anchor { IfSome area.now.document.anchor (IsPlace area.now.document.text) }
{
    let _ = (area.document.cursor(), area.document.anchor());
}

/// The law of visual rows, for every text area: there is exactly one correct list of visual rows of
/// the text, with those that `line_ranges` returns for each line. The contracts of `measure`,
/// `render`, `cursor_at_position` and the moves up and down are about these rows.
pub fn rows_are_those_from_scratch(area: &TextArea<'_>)
    ensures { HasRowsFromScratch area.now }
{
    let _ = area.document.view();
    one_list_of_rows();
    one_wrapping();
}
