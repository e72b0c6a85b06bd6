//! Cursor moves and positions, what the cursor goes over as a whole, and how it is drawn.

ghost use Rattle.std.specs.Prelude.{◌≡◌};
ghost use Rattle.textarea_data.specs.Cursor.{cursor_of, place_of_cursor};

use serde::{Deserialize, Serialize};

/// A way to move the cursor.
#[derive(Clone, Copy, Debug, PartialEq, Eq, Serialize, Deserialize)]
pub enum CursorMove {
    /// To the next position; from the end of a line, to the start of the next one.
    Forward,
    /// To the previous position; from the start of a line, to the end of the line above.
    Back,
    /// To the visual row above.
    Up,
    /// To the visual row below.
    Down,
    /// To the start of the cursor's line.
    Head,
    /// To the end of the cursor's line.
    End,
    /// To the first line.
    Top,
    /// To the last line.
    Bottom,
    /// To the start of the next word.
    WordForward,
    /// To the last character of a word.
    WordEnd,
    /// To the start of the previous word.
    WordBack,
    /// To the start of the next paragraph.
    ParagraphForward,
    /// To the start of the previous paragraph.
    ParagraphBack,
    /// To this row and column, both counted from 0.
    Jump(u16, u16),
    /// Into the area that was last drawn, if the cursor is outside of it.
    InViewport,
}

/// A position in a text: a row and a column in characters, both counted from 0.
#[derive(Clone, Copy, Debug, PartialEq, Eq)]
pub struct DataCursor(pub usize, pub usize);

/// Converts from (row, column).
impl From<(usize, usize)> for DataCursor {
    ghost from_gives = { λ place cursor. (cursor ≡ cursor_of place) × (place_of_cursor cursor ≡ place) };

    fn from(place: (usize, usize)) -> DataCursor {
        DataCursor(place.0, place.1)
    }
}

/// Converts to (row, column).
impl From<DataCursor> for (usize, usize) {
    ghost from_gives = { λ cursor place. (place ≡ place_of_cursor cursor) × (cursor_of place ≡ cursor) };

    fn from(cursor: DataCursor) -> (usize, usize) {
        (cursor.0, cursor.1)
    }
}

/// How the cell at the cursor is drawn.
#[derive(Clone, Copy, Debug, PartialEq, Eq)]
pub enum CursorRenderMode {
    /// The cell is drawn in the cursor's style.
    Cell,
    /// The cell is drawn as any other, for the terminal's own cursor.
    Hidden,
}

impl Default for CursorRenderMode {
    ghost use Rattle.textarea_data.specs.declared.cursor.CursorRenderMode.TheVariants.{Cell};

    ghost is_default = { λ mode. mode ≡ Cell };

    fn default() -> CursorRenderMode {
        CursorRenderMode::Cell
    }
}

/// What the cursor goes over as a whole, beside atomic ranges.
#[derive(Clone, Copy, Debug, PartialEq, Eq)]
pub enum CursorUnit {
    /// A character, as `char` is one.
    Character,
    /// An extended grapheme cluster, such as a letter with its accents, or a flag.
    Cluster,
}

impl Default for CursorUnit {
    ghost use Rattle.textarea_data.specs.declared.cursor.CursorUnit.TheVariants.{Character};

    ghost is_default = { λ unit. unit ≡ Character };

    fn default() -> CursorUnit {
        CursorUnit::Character
    }
}
