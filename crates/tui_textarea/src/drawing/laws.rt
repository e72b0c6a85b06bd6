//! Laws of drawings, each the contract of a function that does nothing.
ghost use Rattle.std.specs.Prelude.{◌≡◌, ◌<◌, ◌^◌, ℕ, Option, is_some};
ghost use Rattle.tui_textarea.specs.DrawingPrelude.{size_limit, DocumentState, IsCaretHit, WidgetState, IsHitTest, IsNearestVisible, IsLastArea, IsDrawn, IsWidgetRendered, IsCaretVisible, cell_at, contains, Buffer, Rect, IsPlace, Place, weight, ViewportState};

use textarea_lines::laws::{one_view, settings_stay};
use textarea_screen_map::laws::{
    cursors_within_width, few_columns, few_rows, one_place, one_visual_position,
    visual_position_within, visual_round_trip,
};
use textarea_view::scene::laws::{one_filling, one_row_start};
use textarea_view::viewport::laws::{
    caret_hit_is_row, placeholder_has_its_caret_in_the_corner, wrapped_caret_is_visible,
};

/// The visible position nearest to a document's cursor in a viewport is unique.
pub fn one_nearest_place()
    ensures { (document : DocumentState) (viewport : ViewportState) (place other : Place) →
        IsNearestVisible document viewport place → IsNearestVisible document viewport other → place
        ≡
        other }
{
    one_view();
    one_visual_position();
    one_place();
}

/// A cell shows at most one position.
pub fn one_hit()
    ensures { (widget : WidgetState) (x y : ℕ) (found other : Option Place) →
        IsHitTest widget x y found → IsHitTest widget x y other → found ≡ other }
{
    one_view();
    one_place();
    one_row_start();
}

/// A cell shows a position exactly if it is in the inner area of the last drawing.
pub fn hit_exactly_inside()
    ensures { (widget : WidgetState) (x y : ℕ) (found : Option Place) →
        IsHitTest widget x y found → (inner : Rect) → IsLastArea widget.document widget.drawing
        inner →
        is_some found ≡ contains inner x y }
{}

/// The parts after a drawing into an area are determined by those before.
pub fn one_rendering()
    ensures { (old first second : WidgetState) (area : Rect) →
        IsWidgetRendered old area first → IsWidgetRendered old area second → first ≡ second }
{
    one_view();
    one_visual_position();
    one_row_start();
}

/// The cells after a drawing are determined by the parts, the area and the cells before.
pub fn one_drawing()
    ensures { (widget : WidgetState) (area : Rect) (old first second : Buffer) →
        IsDrawn widget area old first → IsDrawn widget area old second →
        (x y : ℕ) → cell_at first x y ≡ cell_at second x y }
{
    one_view();
    one_filling();
}

/// Right after a drawing the hit test of the caret's cell returns the cursor, if the caret is shown
/// and no character of the cursor's visual row has display width 0.
pub fn caret_hit_is_cursor()
    ensures { (old new : WidgetState) (area : Rect) → IsWidgetRendered old area new →
        IsPlace new.document.text new.document.cursor → IsCaretHit new }
{
    one_view();
    one_row_start();
    visual_round_trip();
    visual_position_within();
    settings_stay();
    caret_hit_is_row();
    placeholder_has_its_caret_in_the_corner();
}

/// Right after a drawing the caret is shown if the alignment is left, and the inner area has a row
/// and is wide enough, even with a placeholder. Without wrapping it must be wider than twice the
/// line numbers. With wrapping it must be at least two columns wider than the line numbers, the tab
/// length must be at least 1, the width beside the line numbers and one column for the caret must
/// fit each grapheme cluster, and a tab at its full length, and each whitespace cluster with a
/// width must be one character.
pub fn caret_is_visible()
    ensures { (old new : WidgetState) (area : Rect) → IsWidgetRendered old area new →
        weight new.document.text < size_limit → new.document.layout.settings.tab_len < 2 ^ 8 →
        IsCaretVisible new }
{
    visual_position_within();
    cursors_within_width();
    few_columns();
    few_rows();
    settings_stay();
    textarea_view::viewport::laws::caret_is_visible();
    wrapped_caret_is_visible();
}
