//! Laws of a text and the log of its edits, each stated as the contract of a function without a
//! body. They hold for every history whose edits were each made on the lines when they were
//! recorded. Lines with the same text are the same lines (`lines_are_the_text`).
ghost use Rattle.std.specs.Prelude.{◌≡◌, ◌≤◌, ℕ, Bool, List, Option, Some, length};
ghost use Rattle.textarea_history.specs.Prelude.{Symbol, Place, Splice, Fits, Logged, Redoes, Undoes, empty_log, newest, redone, undone, EachFits, RestoresText, IsRedone, IsSoundLog, edit_recorded};

/// The other laws require that the done edits can be undone and the undone ones redone. This holds
/// for a text without edits, and still after each recorded edit that fits, each undo and each redo.
pub fn stays_sound()
    ensures fresh { (text : List Symbol) (maximum : ℕ) →
        IsSoundLog (record { text = text; log = empty_log maximum }) }
    ensures edited { (logged : Logged) (splice : Splice) (coalesce : Bool) (now : ℕ) →
        IsSoundLog logged → Fits logged.text splice → IsSoundLog
        (edit_recorded logged splice coalesce now) }
    ensures undone { (logged : Logged) → IsSoundLog logged → IsSoundLog (undone logged) }
    ensures redone { (logged : Logged) → IsSoundLog logged → IsSoundLog (redone logged) }
{}

/// Each done edit, from the newest on, has a symbol, and its inverse fits the text after it. Each
/// undone one, from the next on, has a symbol, and fits. So each undo and each redo can be called.
pub fn each_edit_fits()
    ensures { (logged : Logged) → IsSoundLog logged → EachFits logged }
{}

/// `count` undos, at most the number of done edits, give the text before the last `count` of them.
/// The same number of redos gives back the text and both lists of edits.
pub fn undos_restore()
    ensures { (logged : Logged) (count : ℕ) →
        IsSoundLog logged → count ≤ length logged.log.done → RestoresText logged count }
{}

/// A redo after an undo gives back the text and both lists of edits, and puts the cursor where the
/// edit had left it.
pub fn redo_restores()
    ensures { (old back again : Logged) (splice : Splice) (undo_cursor redo_cursor : Option Place) →
        IsSoundLog old → newest old.log ≡ Some splice →
        Undoes old back undo_cursor → Redoes back again redo_cursor →
        IsRedone splice old again redo_cursor }
{}
