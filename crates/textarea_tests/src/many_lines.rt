// More lines than the greatest height.
use crate::trial::{Trial, succeeds};
use std::alloc::{AllocError, Global};
use std::test::Fail;
use tui_textarea::{Buffer, Position, Rect, Scrolling, TextArea, TextAreaMeasure};

#[test]
fn many_lines(rt: HostRuntime) -> Result<(), Fail> {
    assert!(rt; succeeds(rt.alloc(), Trial::ManyLines)?);
    Ok(())
}

pub fn lines_of_x(alloc: Global) -> Result<Vec<String>, AllocError> {
    vec![in alloc; String::from_str(alloc, "x")?; 70_000]
}

/// Selects, draws and scrolls many lines, and returns whether each state is correct.
pub fn are_drawn_and_scrolled(alloc: Global, area: &mut TextArea<'_>) -> Result<bool, AllocError> {
    area.select_all();
    draw(alloc, area)?;
    Ok(are_drawn(area)? && are_scrolled(area))
}

fn draw(alloc: Global, area: &mut TextArea<'_>) -> Result<(), AllocError> {
    let mut buffer = Buffer::empty(alloc, Rect::new(0, 0, 10, 5))?;
    let drawn = area.render(Rect::new(0, 0, 10, 5), &mut buffer);
    drop(buffer);
    drawn
}

const HEIGHT: TextAreaMeasure = TextAreaMeasure {
    content_rows: 65535,
    preferred_rows: 65535,
    min_rows: 1,
    max_rows: 65535,
};

fn are_drawn(area: &mut TextArea<'_>) -> Result<bool, AllocError> {
    let is_at_end = area.cursor() == (69_999, 1)
        && area.rendered_cursor_position() == Some(Position { x: 1, y: 4 })
        && area.viewport().scroll_top() == (69_995, 0);
    Ok(is_at_end && area.measure(10)? == HEIGHT)
}

// The longest scroll up: the cursor follows it, and so does the end of the selection.
fn are_scrolled(area: &mut TextArea<'_>) -> bool {
    area.scroll(Scrolling::Delta {
        rows: -32768,
        cols: 0,
    });
    area.cursor() == (37_231, 1)
        && area.selection_range() == Some(((0, 0), (37_231, 1)))
        && area.viewport().scroll_top() == (37_227, 0)
}
