//! Laws of drawn rows. Each is the contract of a function that does nothing.
ghost use Rattle.std.specs.Prelude.{◌≡◌, ℕ, List};
ghost use Rattle.textarea_view.specs.Prelude.{LineView, Rect, RowArea, FillsArea, IsRowStart, SceneState};

use textarea_highlight::laws::one_line_shows_a_row;

/// The scene, the first row and the areas determine the lines that an area shows.
pub fn one_filling()
    ensures { (scene : SceneState) (top : ℕ) (area buffer : Rect) (lines others : List LineView) →
        FillsArea scene top area buffer lines → FillsArea scene top area buffer others →
        lines ≡ others }
{
    one_line_shows_a_row();
}

/// A visual row begins at exactly one column.
pub fn one_row_start()
    ensures { (scene : SceneState) (rows : RowArea) (row start other : ℕ) →
        IsRowStart scene rows row start → IsRowStart scene rows row other → start ≡ other }
{
    one_line_shows_a_row();
}
