//! Functions that draw into the cells of a buffer.

pub mod block;
mod cells;
mod clusters;
pub mod columns;
mod letters;
pub mod row;
mod simple;
pub mod text;
mod units;

pub use block::draw_block;
pub use row::{RowArea, draw_row, row_start};
pub use text::DrawText;
