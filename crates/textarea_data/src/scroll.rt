//! How far to scroll.

ghost use Rattle.std.specs.Prelude.{◌≡◌};
ghost use Rattle.textarea_data.specs.Scroll.{delta_of};

use serde::{Deserialize, Serialize};

/// How far to scroll, and in which direction.
#[derive(Clone, Copy, Debug, PartialEq, Eq, Serialize, Deserialize)]
pub enum Scrolling {
    /// By visual rows, down if positive, and by columns, to the right if positive.
    Delta {
        /// The visual rows, down if positive.
        rows: i16,
        /// The columns, to the right if positive.
        cols: i16,
    },
    /// Down by the height of the viewport.
    PageDown,
    /// Up by the height of the viewport.
    PageUp,
    /// Down by half the height of the viewport.
    HalfPageDown,
    /// Up by half the height of the viewport.
    HalfPageUp,
}

/// Converts from (rows, columns).
impl From<(i16, i16)> for Scrolling {
    ghost from_gives = { λ amounts scrolling. scrolling ≡ delta_of amounts };

    fn from(amounts: (i16, i16)) -> Scrolling {
        let (rows, cols) = amounts;
        Scrolling::Delta { rows, cols }
    }
}
