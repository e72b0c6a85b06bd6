//! Colours and modifiers.
ghost use Rattle.std.specs.Prelude.{◌≡◌, ◌↔◌, Some, IsTrue};
ghost use Rattle.textarea_screen.specs.Cell.{cell_view};
ghost use Rattle.textarea_terminal.specs.Pen.{look_of};

use textarea_screen::screen::{Cell, Color, Modifier};

/// The colours and modifiers with which a terminal prints.
#[derive(Clone, Copy, Debug, PartialEq, Eq)]
pub struct Pen {
    pub fg: Color,
    pub bg: Color,
    pub modifier: Modifier,
}

/// The look of a cell of a terminal that was erased.
pub(super) const PLAIN: Pen = Pen {
    fg: Color::Reset,
    bg: Color::Reset,
    modifier: Modifier(0),
};

/// The look of a cell.
pub(super) fn look_of(cell: &Cell) -> Pen
    ensures { result ≡ look_of (cell_view cell.now) }
{
    Pen {
        fg: cell.fg,
        bg: cell.bg,
        modifier: cell.modifier,
    }
}

/// Whether two colours are the same.
#[inline]
fn is_same_color(a: Color, b: Color) -> bool
    ensures { IsTrue result ↔ (a ≡ b) }
{
    a == b
}

/// Whether two looks are the same.
#[inline]
pub(super) fn is_same_look(a: Pen, b: Pen) -> bool
    ensures { IsTrue result ↔ (a ≡ b) }
{
    is_same_color(a.fg, b.fg) && is_same_color(a.bg, b.bg) && a.modifier.0 == b.modifier.0
}

/// Whether a pen is known to have a look.
pub(super) fn has_look(pen: Option<Pen>, look: Pen) -> bool
    ensures { IsTrue result ↔ (pen ≡ Some look) }
{
    match pen {
        Some(known) => is_same_look(known, look),
        None => false,
    }
}
