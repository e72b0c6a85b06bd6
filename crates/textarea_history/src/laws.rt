//! Laws of edits, each stated as the contract of a function without a body.
ghost use Rattle.std.specs.Prelude.{◌≡◌, ◌<◌, ℕ, List, length};
ghost use Rattle.textarea_history.specs.Prelude.{Symbol, joined, lines, Splice, Fits, IsUndone};

/// `Edit::undo` after `Edit::redo` gives back the text: if an edit fits a text, its inverse fits
/// the text after it, and gives back the first one.
pub fn undo_inverts_edit()
    ensures { (text : List Symbol) (splice : Splice) →
        Fits text splice → IsUndone text splice }
{}

/// A text has one list of lines, so lines with the same text are the same lines.
pub fn lines_are_the_text()
    ensures { (rows : List (List ℕ)) → 0 < length rows → lines (joined rows) ≡ rows }
{}
