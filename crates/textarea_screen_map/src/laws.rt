//! Laws of the map. Each is the contract of a function without effect.
ghost use Rattle.std.specs.Prelude.{◌≡◌, ◌≢◌, ◌<◌, ◌≤◌, ◌^◌, ℕ, List, map, max};
ghost use Rattle.textarea_screen_map.specs.Prelude.{IsPlaceOf, Place, weight, following, HaveFittingClusters, RowsView, VisualPosition, Wrapping, AreRowsOf, row_total, size_total, IsRowCount, greatest_column, row_at, HasNoZeroWidth, IsAbove, IsBelow, IsPlaceAt, IsPlaceNear, IsVisualUpTo, IsVisualPosition};
ghost use Rattle.textarea_wrap.specs.declared.wrap.WrapMode.TheVariants as mode;

use textarea_wrap::laws::one_wrapping;

/// A position's visual row and column lead back to it, if the row has no zero-width characters. So
/// `ScreenMap::place_at` returns the position for what `ScreenMap::visual_position` returns.
pub fn visual_round_trip()
    ensures { (tab_len : ℕ) (lines : List (List ℕ)) (rows : List RowsView)
        (place : Place) (visual : VisualPosition) (found : Place) →
        IsVisualPosition tab_len lines rows place visual →
        HasNoZeroWidth (row_at lines rows visual.row).text →
        IsPlaceAt tab_len lines rows visual found → found ≡ place }
{}

/// A visual row and a display column lead to a position of the lines. If the column is at most the
/// row's greatest cursor column, that position is in that visual row, at or before that column.
pub fn look_up_leads_back()
    ensures place { (wrapping : Wrapping) (lines : List (List ℕ)) (rows : List RowsView)
        (visual : VisualPosition) (place : Place) →
        AreRowsOf wrapping lines rows → IsPlaceAt wrapping.tab_len lines rows visual place →
        IsPlaceOf lines place }
    ensures visual { (wrapping : Wrapping) (lines : List (List ℕ)) (rows : List RowsView)
        (visual : VisualPosition) (place : Place) →
        AreRowsOf wrapping lines rows → IsPlaceAt wrapping.tab_len lines rows visual place →
        visual.column ≤ greatest_column wrapping.tab_len (row_at lines rows visual.row) →
        IsVisualUpTo wrapping.tab_len lines rows visual place }
    ensures near { (wrapping : Wrapping) (lines : List (List ℕ)) (rows : List RowsView)
        (visual : VisualPosition) (place : Place) →
        AreRowsOf wrapping lines rows → IsPlaceNear wrapping.tab_len lines rows visual place →
        IsVisualUpTo wrapping.tab_len lines rows visual place }
{}

/// The visual row of a position is less than the number of visual rows of all lines. Its display
/// column is one at which a cursor can be: at most the row's greatest cursor column.
pub fn visual_position_within()
    ensures row { (wrapping : Wrapping) (lines : List (List ℕ)) (rows : List RowsView)
        (place : Place) (visual : VisualPosition) →
        AreRowsOf wrapping lines rows → IsVisualPosition wrapping.tab_len lines rows place visual →
        visual.row < row_total rows }
    ensures column { (tab_len : ℕ) (lines : List (List ℕ)) (rows : List RowsView)
        (place : Place) (visual : VisualPosition) →
        IsVisualPosition tab_len lines rows place visual →
        visual.column ≤ greatest_column tab_len (row_at lines rows visual.row) }
{}

/// A visual row and a display column lead to only one position.
pub fn one_place()
    ensures { (tab_len : ℕ) (lines : List (List ℕ)) (rows : List RowsView)
        (visual : VisualPosition) (place other : Place) →
        IsPlaceAt tab_len lines rows visual place → IsPlaceAt tab_len lines rows visual other →
        place ≡ other }
{}

/// A position has one visual position. A cursor moves from it to one position up and one down.
pub fn one_visual_position()
    ensures visual { (wrapping : Wrapping) (lines : List (List ℕ)) (rows : List RowsView)
        (place : Place) (visual other : VisualPosition) →
        AreRowsOf wrapping lines rows → IsVisualPosition wrapping.tab_len lines rows place visual →
        IsVisualPosition wrapping.tab_len lines rows place other → visual ≡ other }
    ensures above { (wrapping : Wrapping) (lines : List (List ℕ)) (rows : List RowsView)
        (place target other : Place) →
        AreRowsOf wrapping lines rows → IsAbove wrapping.tab_len lines rows place target →
        IsAbove wrapping.tab_len lines rows place other → target ≡ other }
    ensures below { (wrapping : Wrapping) (lines : List (List ℕ)) (rows : List RowsView)
        (place target other : Place) →
        AreRowsOf wrapping lines rows → IsBelow wrapping.tab_len lines rows place target →
        IsBelow wrapping.tab_len lines rows place other → target ≡ other }
{}

/// All maps of the same lines at one wrapping have the same rows, line by line.
pub fn one_map()
    ensures { (wrapping : Wrapping) (lines : List (List ℕ)) (rows others : List RowsView) →
        AreRowsOf wrapping lines rows → AreRowsOf wrapping lines others →
        map (λ (r : RowsView). r.ranges) rows ≡ map (λ (r : RowsView). r.ranges) others }
{
    one_wrapping();
}

/// Lines at one wrapping have only one number of visual rows.
pub fn one_row_count()
    ensures { (wrapping : Wrapping) (lines : List (List ℕ)) (count other : ℕ) →
        IsRowCount wrapping lines count → IsRowCount wrapping lines other → count ≡ other }
{
    one_wrapping();
}

/// Lines have no more visual rows than bytes and lines together, and the map computes their
/// size from their rows. So for right rows the limit on bytes and lines implies the limit on rows.
pub fn few_rows()
    ensures size { (wrapping : Wrapping) (lines : List (List ℕ)) (rows : List RowsView) →
        AreRowsOf wrapping lines rows → size_total rows ≡ weight (following lines) }
    ensures few { (wrapping : Wrapping) (lines : List (List ℕ)) (rows : List RowsView) →
        AreRowsOf wrapping lines rows → row_total rows ≤ size_total rows }
{}

/// If lines are wrapped and tab stops are at least one column apart, no cursor is past the width:
/// the greatest cursor column of each visual row is at most the width. Each grapheme cluster of a
/// line or a unit must fit the width, with tabs at full length, and each whitespace cluster with a
/// width must be one character.
pub fn cursors_within_width()
    ensures { (wrapping : Wrapping) (lines : List (List ℕ)) (rows : List RowsView) (row : ℕ) →
        AreRowsOf wrapping lines rows → wrapping.mode ≢ mode.None → 0 < wrapping.tab_len →
        HaveFittingClusters wrapping.tab_len (max wrapping.width 1) lines → row < row_total rows →
        greatest_column wrapping.tab_len (row_at lines rows row) ≤ max wrapping.width 1 }
{}

/// The column of a cursor is less than 2^56 for all lines, wrapped or not: a line has fewer than
/// 2^48 characters, and each takes fewer than 2^8 columns.
pub fn few_columns()
    ensures { (wrapping : Wrapping) (lines : List (List ℕ)) (rows : List RowsView) (row : ℕ) →
        AreRowsOf wrapping lines rows → wrapping.tab_len < 2 ^ 8 → row < row_total rows →
        greatest_column wrapping.tab_len (row_at lines rows row) < 2 ^ 56 }
{}
