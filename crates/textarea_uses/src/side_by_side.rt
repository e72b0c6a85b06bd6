//! Two text areas side by side. Their user can rely on it that they share no cell: each half of the
//! screen shows its own text area, as if the other one weren't there.
ghost use Rattle.std.specs.Prelude.{◌≡◌, ◌||◌, ℕ, IfOk};
ghost use Rattle.tui_textarea.specs.Prelude.{KeepsOutside, contains, widget_of};
ghost use Rattle.textarea_uses.specs.SideBySide.{ShareNoCell, AreDrawnApart};

use std::alloc::AllocError;
use tui_textarea::{Buffer, Rect, TextArea};

/// Returns the left and the right half of a screen, which share no cell.
pub fn halves(screen: Rect) -> (Rect, Rect)
    ensures apart { ShareNoCell result.0 result.1 }
    ensures whole { (x y : ℕ) → contains screen x y
        ≡ (contains result.0 x y || contains result.1 x y) }
{
    let width = screen.width / 2;
    let left = Rect::new(screen.x, screen.y, width, screen.height);
    let right = Rect::new(left.right(), screen.y, screen.width - width, screen.height);
    (left, right)
}

/// Draws the text areas into the halves of a screen.
pub fn draw_both(
    left: &mut TextArea<'_>,
    right: &mut TextArea<'_>,
    screen: Rect,
    buffer: &mut Buffer,
) -> Result<(Rect, Rect), AllocError>
    ensures drawn { IfOk result (λ areas. AreDrawnApart (widget_of left.new) (widget_of right.new)
        areas.0 areas.1 buffer.old buffer.new) }
    ensures outside { KeepsOutside (contains screen) buffer.old buffer.new }
{
    let (left_half, right_half) = halves(screen);
    let left_drawn = left.render(left_half, buffer);
    left_drawn?;
    let right_drawn = right.render(right_half, buffer);
    right_drawn?;
    Ok((left_half, right_half))
}
