//! Draws frames and returns the first row of the last one.
//!
//! A job has four fields with one space between them: the number of frames, a width, a height, and
//! a text. A line has the text once for each column, and each frame draws that line into each row.

use std::alloc::{AllocError, Global};
use textarea_paint::paint::{RowArea, draw_row};
use textarea_screen::screen::{Alignment, Buffer, Line, Rect, Span, Style};

/// The number of frames, their size, and the text of each row.
#[derive(Drop)]
pub struct PaintJob<'a> {
    frames: usize,
    width: u16,
    height: u16,
    text: &'a str,
}

impl<'a> PaintJob<'a> {
    pub fn parse(line: &'a str) -> Option<PaintJob<'a>> {
        let mut components = line.splitn(4, ' ');
        let frames = components.next()?.parse().ok()?;
        let width = components.next()?.parse().ok()?;
        let height = components.next()?.parse().ok()?;
        let text = components.next()?;
        Some(PaintJob {
            frames,
            width,
            height,
            text,
        })
    }

    /// Returns the symbols of the first row after all frames are drawn into one buffer.
    pub fn run(&self, alloc: Global) -> Result<String, AllocError> {
        let text = repeat(alloc, self.text, usize::from(self.width))?;
        let mut spans = Vec::new(alloc);
        spans.push(Span::raw(text.as_str()))?;
        let line = Line::from_spans(spans);
        let row = self.draw(alloc, &line);
        drop(line);
        row
    }

    // Returns the symbols of the first row after all frames of the line are drawn into one buffer.
    fn draw(&self, alloc: Global, line: &Line) -> Result<String, AllocError> {
        let area = Rect::new(0, 0, self.width, self.height);
        let mut buffer = Buffer::empty(alloc, area)?;
        let row = self.draw_into(alloc, &mut buffer, line);
        drop(buffer);
        row
    }

    fn draw_into(
        &self,
        alloc: Global,
        buffer: &mut Buffer,
        line: &Line,
    ) -> Result<String, AllocError> {
        let area = buffer.area();
        for _ in 0..self.frames {
            draw_frame(buffer, area, line)?;
        }
        first_row(alloc, buffer)
    }
}

// Returns the text, repeated `times` times.
fn repeat(alloc: Global, text: &str, times: usize) -> Result<String, AllocError> {
    let mut line = String::new(alloc);
    for _ in 0..times {
        line.push_str(text)?;
    }
    Ok(line)
}

// Draws the line into each row of the area.
fn draw_frame(buffer: &mut Buffer, area: Rect, line: &Line) -> Result<(), AllocError> {
    let rows = RowArea {
        area,
        alignment: Alignment::Left,
        left: 0,
        style: Style::new(),
    };
    for y in area.y()..area.y() + area.height() {
        draw_row(buffer, rows, y, line)?;
    }
    Ok(())
}

/// Returns the symbols of the cells of the first row.
pub fn first_row(alloc: Global, buffer: &Buffer) -> Result<String, AllocError> {
    let mut row = String::new(alloc);
    let area = buffer.area();
    for x in area.x()..area.x() + area.width() {
        if let Some(cell) = buffer.cell(x, area.y()) {
            row.push_str(cell.symbol())?;
        }
    }
    Ok(row)
}
