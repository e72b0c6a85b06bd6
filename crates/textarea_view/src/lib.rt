//! The widget's appearance: styles, block, placeholder, viewport, rows to draw, and whole frames.
#![tactic(auto)]

pub mod frame;
pub mod hit;
pub mod look;
pub mod placement;
pub mod row_view;
pub mod scene;
pub mod surround;
pub mod viewport;

pub use row_view::RowView;
pub use surround::Surround;
pub use textarea_data::measure::TextAreaMeasure;
pub use viewport::Viewport;

/// Cursor moves and positions.
pub mod cursor {
    pub use textarea_data::cursor::{CursorMove, DataCursor};
}

/// The spans of a drawn row.
pub mod highlight {
    pub use textarea_highlight::highlight::{CursorCellRender, LineHighlighter, RowMark, RowPart};
}

/// The visual rows of all lines, cached line by line, with look-ups both ways.
pub mod screen_map {
    pub use textarea_screen_map::laws;
    pub use textarea_screen_map::layout::{VisualPosition, Wrapping};
    pub use textarea_screen_map::screen_map::{
        NewRows, PreparedRows, RowText, ScreenMap, new_rows,
    };
    pub use textarea_screen_map::wrapped_blocks::RowBlocks;
    pub use textarea_wrap::wrap::{Rows, WrapCount, WrapMode};
}

/// The state that a widget has from its last drawing.
pub mod widget {
    pub use crate::viewport::Viewport;
}
