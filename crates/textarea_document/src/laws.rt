//! Laws of documents and their visual rows, each the contract of a function that does nothing.
ghost use Rattle.std.specs.Prelude.{◌≡◌, ℕ, Bool, false, List, [], ◌∷◌, Contains, None, Option, Some};
ghost use Rattle.textarea_document.specs.Prelude.{redo_splices, undo_splices, LayoutSettings, AtomicRange, TakesRange, moved_range, Place, end, Fits, Splice, Symbol, WrapsAll, WrapsBySettings, WrapsByWidth, SplicedAtOnce, SplicesBy, HasEffect, EditStep, splice_of_step, stepped, AllStayOrAreDropped, AllStemFrom, RangesFollowPast, RangesFollowSplices, RangesStayWhole, after_edit, after_redo, after_undo, SplitsNoRange, HasRowsAt, IsAboveCursor, IsBelowCursor, with_inner_width, with_layout_settings, IsSound, DocumentState, fresh_document, CoversNoMore, RemembersBefore, newest_group, ranges_before_group, ChangesLead, lines_replaced};
ghost use Rattle.textarea_document.specs.ReplacedText.{AreReplaceable, with_replaced};
ghost use Rattle.textarea_document.specs.Replacing.{all_replaced, all_splices};

use textarea_lines::laws::{one_list_of_rows, settings_wrap, splices_wrap, splices_wrap_at_once};
use textarea_ranges::laws::ranges_follow_the_text;

/// From a document's cursor at most one position is one visual row up, and at most one down.
pub fn one_place_up_and_down()
    ensures above { (document : DocumentState) (found other : Option Place) →
        IsAboveCursor document found → IsAboveCursor document other → found ≡ other }
    ensures below { (document : DocumentState) (found other : Option Place) →
        IsBelowCursor document found → IsBelowCursor document other → found ≡ other }
{
    textarea_lines::laws::one_place_up_and_down();
}

/// The number of a document's visual rows is determined by the width of the inner area, in columns.
pub fn one_row_count()
    ensures { (document : DocumentState) (inner_width count other : ℕ) →
        HasRowsAt document inner_width count → HasRowsAt document inner_width other →
        count ≡ other }
{
    textarea_screen_map::laws::one_row_count();
}

/// Which lines each edit wraps, and so adds to the wrap counter: those that its splice touches, if it
/// keeps the width of the map of visual rows, and otherwise all lines. An undo, a redo, and stretches
/// that are replaced at once wrap each line that one of their splices touches, once, if they keep that
/// width, and otherwise each line once.
pub fn edits_wrap()
    ensures edited { (document : DocumentState) (splice : Splice) (typed : Bool) (now : ℕ) →
        Fits document.text splice →
        SplicesBy document splice (after_edit document splice typed now) }
    ensures stepped { (document : DocumentState) (step : EditStep) (typed : Bool) (now : ℕ) →
        IsSound document → HasEffect document step →
        SplicesBy document (splice_of_step document step) (stepped document step typed now) }
    ensures undone { (document : DocumentState) →
        IsSound document → SplicedAtOnce document (undo_splices document) (after_undo document) }
    ensures redone { (document : DocumentState) →
        IsSound document → SplicedAtOnce document (redo_splices document) (after_redo document) }
    ensures replaced { (document : DocumentState) (stretches : List (ℕ × ℕ)) (symbols : List Symbol) (now : ℕ) →
        IsSound document →
        SplicedAtOnce document (all_splices document stretches symbols now)
        (all_replaced document stretches symbols now) }
{
    one_list_of_rows();
    splices_wrap();
    splices_wrap_at_once();
}

/// What else wraps lines of a document: another inner width wraps all lines if it changes the width
/// of the map of visual rows, settings wrap all lines if they change how lines wrap, and lines that
/// replace all others are always wrapped.
pub fn layout_changes_wrap()
    ensures width { (document : DocumentState) (inner_width : ℕ) →
        WrapsByWidth document (with_inner_width document inner_width) }
    ensures settings { (document : DocumentState) (settings : LayoutSettings) →
        WrapsBySettings document settings (with_layout_settings document settings) }
    ensures lines { (document : DocumentState) (text : List Symbol) (cursor : Place)
        (maximum : ℕ) →
        WrapsAll document
        (fresh_document text document.layout.settings document.layout.count cursor maximum) }
{
    settings_wrap();
}

/// The ranges of a document move with its text: over the splice of an edit that splits no range, as
/// each of the five steps does, and over those of an undo or a redo, unless ranges are remembered
/// for these. After such splices each range
/// comes from an old one, and covers the same characters, all in one line; and each old range either
/// is there, as the splices move it, or is disturbed by one of them: nothing else drops a range.
pub fn ranges_follow_splices()
    ensures edited { (document : DocumentState) (splice : Splice) (typed : Bool) (now : ℕ) →
        Fits document.text splice → SplitsNoRange document.ranges splice →
        RangesStayWhole document (splice ∷ []) (after_edit document splice typed now) }
    ensures stepped { (document : DocumentState) (step : EditStep) (typed : Bool) (now : ℕ) →
        IsSound document → HasEffect document step →
        RangesStayWhole document (splice_of_step document step ∷ [])
        (stepped document step typed now) }
    ensures undone { (document : DocumentState) → IsSound document →
        RangesFollowPast document (undo_splices document) (after_undo document) }
    ensures redone { (document : DocumentState) → IsSound document →
        RangesFollowPast document (redo_splices document) (after_redo document) }
    ensures stem { (old new : DocumentState) (splices : List Splice) →
        IsSound old → RangesFollowSplices old splices new → AllStemFrom old splices new }
    ensures dropped { (old new : DocumentState) (splices : List Splice) →
        RangesFollowSplices old splices new → AllStayOrAreDropped old splices new }
{
    ranges_follow_the_text();
}

/// With remembered ranges an undo of a group leaves exactly the ranges that were there before its
/// oldest edit, if these are remembered. They are those before an edit that is recorded separately
/// while ranges are to be remembered, as long as none are set or cleared: an undo after such an edit,
/// which is a group by itself, leaves the ranges of the document before it.
pub fn undo_gives_ranges_back()
    ensures group { (document : DocumentState) (ranges : List AtomicRange) → IsSound document →
        ranges_before_group document ≡ Some ranges → (after_undo document).ranges ≡ ranges }
    ensures edited { (document : DocumentState) (splice : Splice) (typed : Bool) (now : ℕ) →
        IsSound document → Fits document.text splice →
        RemembersBefore document splice typed now →
        newest_group (after_edit document splice typed now).log ≡ 1 →
        (after_undo (after_edit document splice typed now)).ranges ≡ document.ranges }
{}

/// What ranges cover stays what ranges covered before: after an edit, an undo or a redo each range
/// of the document, and each that is remembered, covers characters that one of them covered before
/// it, in the text of its time. So each range stems from the last ones that were set, also one that an
/// undo gives back.
pub fn ranges_cover_no_more()
    ensures edited { (document : DocumentState) (splice : Splice) (typed : Bool) (now : ℕ) →
        IsSound document → Fits document.text splice →
        CoversNoMore document (after_edit document splice typed now) }
    ensures undone { (document : DocumentState) → IsSound document →
        CoversNoMore document (after_undo document) }
    ensures redone { (document : DocumentState) → IsSound document →
        CoversNoMore document (after_redo document) }
{
    ranges_follow_the_text();
}

/// A splice that splits no range drops only those that it removes completely: it is a removal, and
/// they are between its start and its end.
pub fn only_removed_ranges_are_dropped()
    ensures { (ranges : List AtomicRange) (splice : Splice) (range : AtomicRange) →
        SplitsNoRange ranges splice → Contains ranges range → moved_range splice range ≡ None →
        (splice.inserts ≡ false)
        × TakesRange splice.place (end splice.place splice.symbols) range }
{
    ranges_follow_the_text();
}

/// The text after stretches of a document are replaced, if they are in order and no end of one is
/// strictly inside a range: exactly these are replaced, in the text as it was, and nothing in what
/// is inserted.
pub fn stretches_are_replaced()
    ensures { (document : DocumentState) (stretches : List (ℕ × ℕ)) (symbols : List Symbol) (now : ℕ) →
        IsSound document → AreReplaceable document stretches →
        (all_replaced document stretches symbols now).text
        ≡ with_replaced document.text 0 stretches symbols }
{}

/// How a document's log of changes leads from its text to the text after an edit, an undo, a redo,
/// and lines that replace all others: the changes are appended, and applied to the old text one
/// after another they give the new one. Without a log there are none.
pub fn changes_lead()
    ensures edited { (document : DocumentState) (splice : Splice) (typed : Bool) (now : ℕ) →
        Fits document.text splice →
        ChangesLead document (after_edit document splice typed now) }
    ensures undone { (document : DocumentState) →
        IsSound document → ChangesLead document (after_undo document) }
    ensures redone { (document : DocumentState) →
        IsSound document → ChangesLead document (after_redo document) }
    ensures lines { (document : DocumentState) (rows : List (List ℕ)) (cursor : Place) →
        ChangesLead document (lines_replaced document rows cursor) }
{}
