//! Worked cases of the number of wrapped lines, each the contract of a function that does nothing.
ghost use Rattle.std.specs.Prelude.{◌≡◌, ◌+◌, Bool, Some};
ghost use Rattle.textarea_tests.specs.WrappedLines.{HoldsForHundred, HoldsForNine, wrapped_so_far, with_redone, with_undone, with_a, with_x_y_z};
ghost use Rattle.tui_textarea.specs.Prelude.{Down, Scrolling, WrapsNothing, text_and_layout, map_width, Rect, IsRendered, newline_inserted, IsMoved, IsScrolled, next_match, after_search, settled, State};
ghost use Rattle.textarea_data.specs.declared.range.AtomicCursorBias.TheVariants.{Forward};
ghost use Rattle.textarea_wrap.specs.declared.wrap.WrapMode.TheVariants as mode;

use tui_textarea::laws::{drawn_at_its_width, moves_wrap_nothing};

/// A hundred lines `abcdefgh`, wrapped by grapheme clusters, are drawn into an area of 6 columns.
/// Then a typed `a` wraps one line; `x`, `y` and `z`, three lines inserted at once, wrap three
/// lines; the undo of that wraps one, and the redo three.
pub fn hundred_lines_wrap()
    ensures typed { HoldsForHundred (λ drawn.
        wrapped_so_far (with_a drawn) ≡ wrapped_so_far drawn + 1) }
    ensures inserted { HoldsForHundred (λ drawn.
        wrapped_so_far (with_x_y_z (with_a drawn)) ≡ wrapped_so_far (with_a drawn) + 3) }
    ensures undone { HoldsForHundred (λ drawn.
        wrapped_so_far (with_undone (with_x_y_z (with_a drawn)))
        ≡ wrapped_so_far (with_x_y_z (with_a drawn)) + 1) }
    ensures redone { HoldsForHundred (λ drawn.
        wrapped_so_far (with_redone (with_undone (with_x_y_z (with_a drawn))))
        ≡ wrapped_so_far (with_undone (with_x_y_z (with_a drawn))) + 3) }
{}

/// Nine lines `abcdefg` with line numbers, wrapped by clusters, are drawn into an area of 11
/// columns, and the cursor moves to the end of the last one. Then a line break makes a tenth line,
/// whose number needs one more column: the map of visual rows shrinks from 7 columns to 6, and all
/// ten lines are wrapped. Its undo wraps all nine.
pub fn tenth_line_wraps_all()
    ensures width { HoldsForNine mode.Glyph 11 (λ ended.
        map_width (text_and_layout ended.document) ≡ Some 7) }
    ensures narrower { HoldsForNine mode.Glyph 11 (λ ended.
        map_width (text_and_layout (newline_inserted ended).document) ≡ Some 6) }
    ensures all { HoldsForNine mode.Glyph 11 (λ ended.
        wrapped_so_far (newline_inserted ended) ≡ wrapped_so_far ended + 10) }
    ensures undone { HoldsForNine mode.Glyph 11 (λ ended.
        wrapped_so_far (with_undone (newline_inserted ended))
        ≡ wrapped_so_far (newline_inserted ended) + 9) }
{}

/// The same lines in an area of 3 columns, where the map is one column wide with nine lines and
/// with ten, and in the mode `None`: the line break wraps only the two lines that it makes.
pub fn tenth_line_wraps_itself()
    ensures narrow { HoldsForNine mode.Glyph 3 (λ ended.
        wrapped_so_far (newline_inserted ended) ≡ wrapped_so_far ended + 2) }
    ensures whole { HoldsForNine mode.None 11 (λ ended.
        wrapped_so_far (newline_inserted ended) ≡ wrapped_so_far ended + 2) }
{}

/// After a drawing, a Down, a scroll, a search and a drawing into the same area wrap no line.
pub fn frames_wrap_nothing()
    ensures { (old drawn down scrolled again : State) (area : Rect) (scrolling : Scrolling)
        (at_cursor : Bool) → IsRendered old area drawn →
        IsMoved drawn Down down → IsScrolled down scrolling scrolled →
        IsRendered (settled Forward (after_search scrolled (next_match scrolled at_cursor))) area
        again →
        WrapsNothing drawn.document again.document }
{
    drawn_at_its_width();
    moves_wrap_nothing();
}
