//! The values of constants and defaults, as contracts of functions that at most read them.
ghost use Rattle.std.specs.Prelude.{◌≡◌, ◌+◌};
ghost use Rattle.textarea_screen.specs.Block.{top_side, right_side, bottom_side, left_side};

use crate::screen::cell::INLINE_BYTES;
use crate::screen::{Alignment, Borders, Color, Modifier, Padding, Position};

/// Each side of a block is one bit. `NONE` has no bit, and `ALL` has all four.
pub fn borders_are_bits()
    ensures none { Borders.NONE ≡ record { 0 = 0 } }
    ensures top { Borders.TOP ≡ record { 0 = top_side } }
    ensures right { Borders.RIGHT ≡ record { 0 = right_side } }
    ensures bottom { Borders.BOTTOM ≡ record { 0 = bottom_side } }
    ensures left { Borders.LEFT ≡ record { 0 = left_side } }
    ensures all { Borders.ALL ≡ record { 0 = top_side + right_side + bottom_side + left_side } }
{}

/// Each modifier is one bit, in this order.
pub fn modifiers_are_bits()
    ensures bold { Modifier.BOLD ≡ record { 0 = 1 } }
    ensures dim { Modifier.DIM ≡ record { 0 = 2 } }
    ensures italic { Modifier.ITALIC ≡ record { 0 = 4 } }
    ensures underlined { Modifier.UNDERLINED ≡ record { 0 = 8 } }
    ensures slow_blink { Modifier.SLOW_BLINK ≡ record { 0 = 16 } }
    ensures rapid_blink { Modifier.RAPID_BLINK ≡ record { 0 = 32 } }
    ensures reversed { Modifier.REVERSED ≡ record { 0 = 64 } }
    ensures hidden { Modifier.HIDDEN ≡ record { 0 = 128 } }
    ensures crossed_out { Modifier.CROSSED_OUT ≡ record { 0 = 256 } }
{}

/// The constants `ZERO` and `INLINE_BYTES`.
pub fn other_constants()
    ensures zero { Padding.ZERO ≡ record { left = 0; right = 0; top = 0; bottom = 0 } }
    ensures inline_bytes { INLINE_BYTES ≡ 24 }
{}

/// The derived defaults: left alignment, the terminal's own colour, empty sets of sides and of
/// modifiers, no padding, and the position of column 0 and row 0.
pub fn defaults() -> (Alignment, Color, Borders, Modifier, Padding, Position)
    ensures alignment { result.0 ≡ Alignment.Left }
    ensures color { result.1 ≡ Color.Reset }
    ensures borders { result.2 ≡ record { 0 = 0 } }
    ensures modifier { result.3 ≡ record { 0 = 0 } }
    ensures padding { result.4 ≡ record { left = 0; right = 0; top = 0; bottom = 0 } }
    ensures position { result.5 ≡ record { x = 0; y = 0 } }
{
    (
        Alignment::default(),
        Color::default(),
        Borders::default(),
        Modifier::default(),
        Padding::default(),
        Position::default(),
    )
}
