//! The text area, a multi-line editor widget for terminals, with definitions and laws of its calls.
#![tactic(auto)]

mod drawing;
pub mod input_laws;
pub mod laws;
mod matches;
pub mod outcomes;
pub mod textarea;
pub mod util;

pub use textarea::TextArea;
pub use textarea_change::{ChangeUnit, TextChange};
pub use textarea_data::cursor::{CursorMove, CursorRenderMode, CursorUnit, DataCursor};
pub use textarea_data::input::{Input, Key};
pub use textarea_data::measure::TextAreaMeasure;
pub use textarea_data::range::{
    AtomicCursorBias, AtomicDeleteDirection, AtomicRange, AtomicRangeError,
    AtomicRangeRejectReason, RejectedAtomicRange,
};
pub use textarea_data::scroll::Scrolling;
pub use textarea_paint::paint::DrawText;
pub use textarea_screen::screen::{
    Alignment, Block, Borders, Buffer, Cell, Color, Line, Modifier, Padding, Position, Rect, Span,
    SpanText, Style, Text,
};
pub use textarea_screen_map::layout::{VisualPosition, Wrapping};
pub use textarea_view::Viewport;
pub use textarea_wrap::wrap::WrapMode;

/// The spans of a visual row, as it is drawn.
pub mod highlight {
    pub use textarea_highlight::highlight::{CursorCellRender, LineHighlighter, RowMark, RowPart};
}

/// The history of a text's edits, and the laws of undo and redo.
pub mod history {
    pub use textarea_history::history::{Edit, EditKind, History};

    /// What undo and redo restore.
    pub mod laws {
        pub use textarea_history::history::laws::{
            each_edit_fits, redo_restores, stays_sound, undos_restore,
        };
    }
}

/// The numbers of a layout, and the digits of a number.
pub mod layout {
    pub use textarea_wrap::layout::{LayoutMetrics, num_digits};
}

/// The visual rows of all lines, updated line by line, with look-ups both ways.
pub mod screen_map {
    pub use textarea_screen_map::laws;
    pub use textarea_screen_map::layout::{VisualPosition, Wrapping};
    pub use textarea_screen_map::screen_map::{
        NewRows, PreparedRows, RowText, ScreenMap, new_rows,
    };
    pub use textarea_screen_map::wrapped_blocks::RowBlocks;
    pub use textarea_wrap::wrap::{Rows, WrapCount, WrapMode};
}

/// Searches for a pattern, and its matches in lines.
pub mod search {
    pub use textarea_search::search::{Matches, Search, SearchError};
}

/// Classes of characters, and searches for the words of a line.
pub mod word {
    pub use textarea_text::word::{
        CharKind, find_word_exclusive_end_forward, find_word_inclusive_end_forward,
        find_word_start_backward, find_word_start_forward,
    };
}

/// The visual rows of one line at a width.
pub mod wrap {
    pub use textarea_wrap::wrap::{Rows, WrapCount, WrapMode, line_ranges};
}
