//! The blocks of the cases.

use std::alloc::{AllocError, Global};
use textarea_screen::screen::{Block, Borders, Line, Padding, Span, Text};

/// The borders of a block, whether it has a title, and its left, right, top and bottom padding.
pub type Sides = (Borders, bool, (u16, u16, u16, u16));

/// A border at each side.
pub const ALL: Sides = (Borders::ALL, false, (0, 0, 0, 0));

/// Only a title.
pub const TITLED: Sides = (Borders::NONE, true, (0, 0, 0, 0));

/// Appends a span of each text to a line.
pub fn push_spans<'a>(line: &mut Line<'a>, texts: &[&'a str]) -> Result<(), AllocError> {
    for text in texts {
        line.spans.push(Span::raw(text))?;
    }
    Ok(())
}

pub fn line(alloc: Global, text: &str) -> Result<Line<'static>, AllocError> {
    Line::raw(String::from_str(alloc, text)?)
}

/// Appends such a line to a text.
pub fn push_line(alloc: Global, text: &mut Text<'_>, words: &str) -> Result<(), AllocError> {
    text.lines.push(line(alloc, words)?)?;
    Ok(())
}

pub fn block(
    alloc: Global,
    (borders, has_title, (left, right, top, bottom)): Sides,
) -> Result<Block<'static>, AllocError> {
    let block = if has_title {
        Block::new().title(line(alloc, "title")?)
    } else {
        Block::new()
    };
    let padding = Padding::new(left, right, top, bottom);
    Ok(block.borders(borders).padding(padding))
}
