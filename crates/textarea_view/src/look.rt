//! The styles and other settings of a text's appearance, as plain values.
ghost use Rattle.std.specs.Prelude.{◌≡◌};
ghost use Rattle.textarea_view.specs.Look.{default_look};

use textarea_data::cursor::CursorRenderMode;
use textarea_screen::screen::{Alignment, Color, Modifier, Style};

/// The appearance of a text area, without its text and what surrounds it.
#[derive(Clone, Copy, Debug, PartialEq, Eq)]
pub struct Look {
    /// The style of each cell of the inner area, under all others; not used with a placeholder.
    pub style: Style,
    /// The style of the cell at the cursor.
    pub cursor_style: Style,
    /// The style of all visual rows of the cursor's line, where there is no highlight.
    pub cursor_line_style: Style,
    /// The style of line numbers, if there are any.
    pub line_number_style: Style,
    /// The style of the line number of the cursor's line, over that of all line numbers.
    pub cursor_line_number_style: Style,
    /// The style of the selection.
    pub selection_style: Style,
    /// The style of the matches of the pattern.
    pub search_style: Style,
    /// The alignment of rows in the inner area.
    pub alignment: Alignment,
    /// The character that is drawn instead of every other, if any.
    pub mask: Option<char>,
    pub cursor_render_mode: CursorRenderMode,
}

impl Default for Look {
    ghost is_default = { λ look. look ≡ default_look };

    /// Returns the default: the cursor reversed, its line underlined, the selection on light blue
    /// and matches on blue; all else in no style, aligned at the left and without a mask.
    fn default() -> Look {
        Look {
            style: Style::new(),
            cursor_style: Style::new().add_modifier(Modifier::REVERSED),
            cursor_line_style: Style::new().add_modifier(Modifier::UNDERLINED),
            line_number_style: Style::new(),
            cursor_line_number_style: Style::new(),
            selection_style: Style::new().bg(Color::LightBlue),
            search_style: Style::new().bg(Color::Blue),
            alignment: Alignment::Left,
            mask: None,
            cursor_render_mode: CursorRenderMode::Cell,
        }
    }
}

/// A highlight of the caller's own, from one (line, byte offset in it) to another. An offset inside
/// a character counts as the character's start, one past the line's end as the end.
#[derive(Clone, Copy, Debug, PartialEq, Eq)]
pub struct CustomHighlight {
    pub start: (usize, usize),
    pub end: (usize, usize),
    pub style: Style,
    /// Of several highlights that begin at one position, the one of the highest priority is drawn.
    /// The cursor's is 30, a match's 20 and a selection's 10.
    pub priority: u8,
}
