//! The highlighter of a row: highlights are added first, and then the row is split into spans.

mod borders;
mod brackets;
mod display;
mod highlighter;
mod marks;
mod numbers;
mod seams;
mod split;

pub use highlighter::{CursorCellRender, LineHighlighter, RowPart};
pub use marks::RowMark;
