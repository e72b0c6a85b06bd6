//! Cells of a buffer as the bytes that a terminal is sent.

mod area;
mod brush;
pub mod colors;
mod controls;
mod frame;
pub mod laws;
pub mod look;
mod painter;
mod part;
mod spot;
mod symbol;
pub mod title;
mod whole;
mod width;

pub use colors::Colors;
pub use look::Pen;
pub use painter::Painter;
pub use title::CursorShape;
