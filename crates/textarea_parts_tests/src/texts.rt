//! Lines for the tests, and positions in them.
ghost use Rattle.std.specs.Prelude.{IsTrue};
ghost use Rattle.textarea_text.specs.Place.{IsPlaceOf};
ghost use Rattle.textarea_text.specs.Text.{lines_of};

use std::alloc::{AllocError, Global};
use textarea_screen_map::layout::VisualPosition;
use textarea_text::rows::column_count;

/// A line, and a column in it.
pub type Place = (usize, usize);

/// A visual row, and a display column in it, as cases are written.
pub type RowAndColumn = (usize, usize);

pub fn at((row, column): RowAndColumn) -> VisualPosition {
    VisualPosition { row, column }
}

pub fn strings(alloc: Global, texts: &[&str]) -> Result<Vec<String>, AllocError> {
    let mut lines = Vec::new(alloc);
    for text in texts {
        lines.push(String::from_str(alloc, text)?)?;
    }
    Ok(lines)
}

/// Whether the lines have this position.
pub fn is_place(lines: &[String], place: Place) -> bool
    ensures { IsTrue result → IsPlaceOf (lines_of lines.now) place }
{
    place.0 < lines.len() && place.1 <= column_count(lines[place.0].as_str())
}
