//! A text at the bottom of the screen, as high as it was measured. Its user can rely on it that each
//! visual row of the text is visible, if the screen and the greatest height have room for all.
ghost use Rattle.std.specs.Prelude.{IfOk};
ghost use Rattle.textarea_uses.specs.Height.{ShowsAllRows};

use std::alloc::AllocError;
use tui_textarea::laws::measured_as_drawn;
use tui_textarea::{Buffer, Rect, TextArea};

/// Draws the text at the bottom of the screen, as high as it needs, and returns its area.
pub fn draw_at_bottom(
    text: &mut TextArea<'_>,
    screen: Rect,
    buffer: &mut Buffer,
) -> Result<Rect, AllocError>
    ensures { IfOk result (ShowsAllRows text.old text.new screen) }
{
    measured_as_drawn();
    let height = text.measure(screen.width)?.preferred_rows;
    let height = height.min(screen.height);
    let top = screen.bottom() - height;
    let area = Rect::new(screen.x, top, screen.width, height);
    text.render(area, buffer)?;
    Ok(area)
}
