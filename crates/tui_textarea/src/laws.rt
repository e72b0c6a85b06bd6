//! Laws of text areas and their visual rows, each the contract of a function that does nothing.
ghost use Rattle.std.specs.Prelude.{if◌then◌else◌, ◌≡◌, ◌-◌, ◌<◌, ◌^◌, ◌↔◌, ℕ, Bool, List, [], true, false, length, take, None, Option};
ghost use Rattle.tui_textarea.specs.Prelude.{IsHitTest, IsLastArea, IsWithoutCell, Place, size_limit, CursorMove, Scrolling, text_and_layout, IsSound, IsCaretHit, frame_of, shows_placeholder, IsCaretVisible, Action, BorrowedRows, IsViewOf, row_total, Rect, saturated_u16, width_inside, TextAreaMeasure, weight, IsRendered, widget_of, HasLayoutFor, IsMeasured, IsMeasuredAround, IsAfterAction, IsMovedWith, IsScrolledWith, State};
ghost use Rattle.tui_textarea.specs.Prelude.{IsInsertOutOfMemory, IsTypedLine, bars_character, breaks_line, char_inserted, fragment_text, settled, symbol_before_removed, text_cleared, unless_read_only, unselected_or, with_character};
ghost use Rattle.textarea_data.specs.declared.range.AtomicCursorBias.TheVariants.{Forward};

use crate::drawing::laws::{caret_hit_is_cursor, caret_is_visible, one_nearest_place};
pub use crate::textarea::laws::{
    calls_are_undone_at_once, copy_then_paste, cursor_and_anchor_are_places, edits_fit, is_sound,
    matches_in_order, redo_restores_all, rows_are_those_from_scratch, undos_reach_back,
    undos_restore,
};
use textarea_document::laws::{one_place_up_and_down, one_row_count};
use textarea_lines::laws::{settings_stay, wrapped_as_measured};

/// A move determines the state after it, with or without Shift.
pub fn one_move()
    ensures { (old first second : State) (shift : Bool) (cursor_move : CursorMove) →
        IsMovedWith old shift cursor_move first → IsMovedWith old shift cursor_move second →
        first ≡ second }
{
    one_place_up_and_down();
    one_nearest_place();
}

/// The action of an input determines the state after it.
pub fn one_input()
    ensures { (old first second : State) (action : Action) →
        IsAfterAction old action first → IsAfterAction old action second → first ≡ second }
{
    one_move();
}

/// A text of one line that is typed from its start, and can be edited, stays one, with the cursor
/// after it, which goes by characters: a character is added at its end, or left out if it would be
/// one more than the greatest number of characters, a removal of the symbol before the cursor removes
/// the last one, and `clear` removes all. An insertion that runs out of memory leaves it as it was.
/// Its text is written as its characters.
pub fn typed_line_stays()
    ensures typed { (old new : State) (maximum : Option ℕ) (line : List ℕ) (c : ℕ) →
        IsTypedLine old maximum line → breaks_line c ≡ false →
        new ≡ (if bars_character old c then old else settled Forward (char_inserted old c)) →
        IsTypedLine new maximum (with_character maximum line c) }
    ensures removed { (old new : State) (maximum : Option ℕ) (line : List ℕ) →
        IsTypedLine old maximum line →
        new ≡ unless_read_only old
        (settled Forward (unselected_or old (symbol_before_removed old))) →
        IsTypedLine new maximum (take (length line - 1) line) }
    ensures cleared { (old new : State) (maximum : Option ℕ) (line : List ℕ) →
        IsTypedLine old maximum line →
        new ≡ unless_read_only old (settled Forward (text_cleared old)) →
        IsTypedLine new maximum [] }
    ensures out_of_memory { (old new : State) (maximum : Option ℕ) (line : List ℕ) →
        IsTypedLine old maximum line → IsInsertOutOfMemory old new →
        IsTypedLine new maximum line }
    ensures written { (state : State) (maximum : Option ℕ) (line : List ℕ) →
        IsTypedLine state maximum line → fragment_text state.document.text ≡ line }
{}

/// The measure of an area is determined by the area's width, in columns.
pub fn one_measure()
    ensures { (state : State) (width : ℕ) (measure other : TextAreaMeasure) →
        IsMeasured state width measure → IsMeasured state width other → measure ≡ other }
{
    one_row_count();
}

/// A measure for the width of an area, before or after a drawing into that area, counts what the
/// drawing shows, up to 65535: its visual rows, if a column is left inside the block, or the
/// placeholder's lines, if these are shown instead.
pub fn measured_as_drawn()
    ensures rows { (old new : State) (area : Rect) (measure : TextAreaMeasure) (view : BorrowedRows)
        →
        IsMeasuredAround old new area.width measure → IsRendered old area new →
        0 < width_inside old.surround.block area.width →
        IsViewOf (text_and_layout new.document) view →
        shows_placeholder (frame_of (widget_of new) view) ≡ false →
        measure.content_rows ≡ saturated_u16 (row_total view.rows) }
    ensures placeholder { (old new : State) (area : Rect) (measure : TextAreaMeasure)
        (view : BorrowedRows) →
        IsMeasuredAround old new area.width measure → IsRendered old area new →
        shows_placeholder (frame_of (widget_of new) view) ≡ true →
        measure.content_rows ≡ saturated_u16 (length new.surround.placeholder.lines) }
{
    one_row_count();
    wrapped_as_measured();
    settings_stay();
}

/// After a drawing the layout has the width of the drawn area. If it has the width of an area
/// already, a drawing into that area leaves the document unchanged: no line is wrapped.
pub fn drawn_at_its_width()
    ensures put { (old new : State) (area : Rect) →
        IsRendered old area new → HasLayoutFor new area.width }
    ensures stays { (old new : State) (area : Rect) → HasLayoutFor old area.width →
        IsRendered old area new → new.document ≡ old.document }
{
    settings_stay();
}

/// A move or scroll, with or without Shift, leaves the layout and its width: no line is wrapped.
pub fn moves_wrap_nothing()
    ensures moved { (old new : State) (shift : Bool) (cursor_move : CursorMove) →
        IsMovedWith old shift cursor_move new → new.document.layout ≡ old.document.layout }
    ensures scrolled { (old new : State) (shift : Bool) (scrolling : Scrolling) →
        IsScrolledWith old shift scrolling new → new.document.layout ≡ old.document.layout }
    ensures width_moved { (old new : State) (shift : Bool) (cursor_move : CursorMove)
        (width : ℕ) → IsMovedWith old shift cursor_move new →
        HasLayoutFor old width → HasLayoutFor new width }
    ensures width_scrolled { (old new : State) (shift : Bool) (scrolling : Scrolling)
        (width : ℕ) → IsScrolledWith old shift scrolling new →
        HasLayoutFor old width → HasLayoutFor new width }
{}

/// The text is wrapped once for all drawings at one width: a second drawing into an area of the
/// same width leaves the document unchanged, even after a move or a scroll between the two.
pub fn frame_wraps_once()
    ensures again { (old first second : State) (area other : Rect) → other.width ≡ area.width →
        IsRendered old area first → IsRendered first other second →
        second.document ≡ first.document }
    ensures wraps_after_move { (old first moved second : State) (area other : Rect) (shift : Bool)
        (cursor_move : CursorMove) → other.width ≡ area.width →
        IsRendered old area first → IsMovedWith first shift cursor_move moved →
        IsRendered moved other second → second.document ≡ moved.document }
    ensures wraps_after_scroll { (old first scrolled second : State) (area other : Rect) (shift : Bool)
        (scrolling : Scrolling) → other.width ≡ area.width →
        IsRendered old area first → IsScrolledWith first shift scrolling scrolled →
        IsRendered scrolled other second → second.document ≡ scrolled.document }
{
    drawn_at_its_width();
    moves_wrap_nothing();
}

/// After every drawing, the position at the caret's cell is the cursor, if the caret is shown and
/// no character of the cursor's visual row has display width 0. With left alignment the caret is
/// shown if the inner area has room for it. Every text area satisfies the assumed limits of size.
pub fn caret_hits_are_cursors()
    ensures back { (old new : State) (area : Rect) → IsSound new.document →
        IsRendered old area new → IsCaretHit (widget_of new) }
    ensures displayed { (old new : State) (area : Rect) → weight new.document.text < size_limit →
        new.document.layout.settings.tab_len < 2 ^ 8 →
        IsRendered old area new → IsCaretVisible (widget_of new) }
{
    caret_hit_is_cursor();
    caret_is_visible();
}

/// A hit test has one answer: a state and a cell determine the result of `cursor_at_position`.
pub fn one_hit()
    ensures { (state : State) (x y : ℕ) (found other : Option Place) →
        IsHitTest (widget_of state) x y found → IsHitTest (widget_of state) x y other →
        found ≡ other }
{
    crate::drawing::laws::one_hit();
}

/// A hit test returns `None` exactly if the cell is outside the inner area of the last drawing, or
/// that area is empty.
pub fn hit_exactly_inside()
    ensures { (state : State) (x y : ℕ) (found : Option Place) (inner : Rect) →
        IsLastArea state.document state.drawing inner →
        IsHitTest (widget_of state) x y found → (found ≡ None) ↔ IsWithoutCell inner x y }
{
    crate::drawing::laws::hit_exactly_inside();
}
