//! Laws of drawn rows. Each is the contract of a function with an empty body.
ghost use Rattle.std.specs.Prelude.{◌≡◌};
ghost use Rattle.textarea_screen.specs.Text.{LineView};
ghost use Rattle.textarea_highlight.specs.Highlights.{Highlights};
ghost use Rattle.textarea_highlight.specs.Row.{ShowsRow};

/// A row is shown by only one line.
pub fn one_line_shows_a_row()
    ensures { (h : Highlights) (line other : LineView) →
        ShowsRow h line → ShowsRow h other → line ≡ other }
{}
