//! Laws of the caret (the cursor on the screen), as contracts of functions that do nothing.
ghost use Rattle.std.specs.Prelude.{◌≡◌, ◌⊎◌, ◌+◌, ◌*◌, ◌^◌, ◌<◌, ◌≤◌, ℕ, IsSome};
ghost use Rattle.textarea_view.specs.Prelude.{Rect, caret_at, hit_column, hit_row, left_view, at_start, showing_row, showing_row_and_column, ViewportState, RowView};

/// A hit test of the caret's cell gives the cursor's visual row and display column, if the row is
/// one of the text's and the column one that a cursor can have in it.
pub fn caret_hit_is_row()
    ensures row { (view : RowView) (row column last_row x y : ℕ) →
        caret_at view row column ≡ Some (x, y) → row ≤ last_row →
        hit_row view.top_row view.inner_area last_row x y ≡ Some row }
    ensures column { (view : RowView) (row column greatest x y : ℕ) →
        (view.offset ≡ 0) ⊎ (view.left_column ≡ 0) →
        caret_at view row column ≡ Some (x, y) → column ≤ greatest →
        hit_column view greatest x ≡ column }
{}

/// With unwrapped lines at the left, the caret is in view in an area wider than two line numbers
/// that has a row.
pub fn caret_is_visible()
    ensures { (viewport : ViewportState) (area : Rect) (row column line_number_width : ℕ) →
        0 < area.height → 2 * line_number_width < area.width →
        row < 2 ^ 64 → column + line_number_width < 2 ^ 64 →
        let displayed = showing_row_and_column viewport area row column line_number_width in
        IsSome (caret_at (left_view displayed area line_number_width) row column) }
{}

/// With wrapped lines and left alignment, the caret is in view if the area has a row and is wider
/// than the line number and the cursor's column together.
pub fn wrapped_caret_is_visible()
    ensures { (viewport : ViewportState) (area : Rect) (row column line_number_width : ℕ) →
        0 < area.height → column + line_number_width < area.width → row < 2 ^ 64 →
        let displayed = showing_row viewport area row in
        IsSome (caret_at (left_view displayed area line_number_width) row column) }
{}

/// With a placeholder, the caret of row 0 and column 0 is in the area's corner. In an area without
/// a cell, no caret is in view.
pub fn placeholder_has_its_caret_in_the_corner()
    ensures corner { (area : Rect) → 0 < area.width → 0 < area.height →
        caret_at (left_view (at_start area) area 0) 0 0 ≡ Some (area.x, area.y) }
    ensures none { (view : RowView) (row column : ℕ) →
        (view.inner_area.width ≡ 0) ⊎ (view.inner_area.height ≡ 0) →
        caret_at view row column ≡ None }
{}
