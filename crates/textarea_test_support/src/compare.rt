//! Compares two text areas by all that can be observed of them.
use crate::end::{Difference, EndReason, same};
use std::alloc::AllocError;
use textarea_text::fragment::copy_fragment;
use tui_textarea::{Buffer, Cell, Position, Rect, TextArea};

/// The width of the area in which text areas are drawn for a comparison, in columns.
const COLUMNS: u16 = 24;

/// The height of that area, in rows.
const ROWS: u16 = 8;

/// More edits than any case makes.
const MOST_EDITS: usize = 1000;

/// Compares two text areas: their state, a drawing, a character that is typed into clones of them,
/// all further undos and redos with the state after each, and a drawing after these.
pub fn compare(area: &mut TextArea<'_>, other: &mut TextArea<'_>) -> Result<(), EndReason> {
    compare_display(area, other)?;
    compare_yanks(area, other)?;
    compare_drawn(area, other)?;
    compare_typed(area, other)?;
    compare_edits(area, other, Difference::Redo)?;
    compare_edits(area, other, Difference::Undo)?;
    compare_edits(area, other, Difference::Redo)?;
    compare_drawn(area, other)
}

/// Compares the state of two text areas, as far as that allocates nothing.
pub fn compare_display(area: &TextArea<'_>, other: &TextArea<'_>) -> Result<(), EndReason> {
    same(area.lines() == other.lines(), Difference::Lines)?;
    same(area.cursor() == other.cursor(), Difference::Cursor)?;
    let is_selected_alike = area.selection_range() == other.selection_range();
    same(is_selected_alike, Difference::Selection)?;
    let have_same_ranges = area.atomic_ranges() == other.atomic_ranges();
    same(have_same_ranges, Difference::Ranges)?;
    let is_caret_alike = area.rendered_cursor_position() == other.rendered_cursor_position();
    same(is_caret_alike, Difference::Caret)?;
    let is_viewport_alike = area.viewport().rect() == other.viewport().rect();
    same(is_viewport_alike, Difference::Viewport)?;
    let have_same_pattern = area.search_pattern() == other.search_pattern();
    same(have_same_pattern, Difference::Pattern)
}

fn compare_yanks(area: &TextArea<'_>, other: &TextArea<'_>) -> Result<(), EndReason> {
    let yank = area.yank_text()?;
    let other_yank = other.yank_text()?;
    same(yank.as_str() == other_yank.as_str(), Difference::Yank)
}

// Measures and draws both, at a width at which no case draws.
fn compare_drawn(area: &mut TextArea<'_>, other: &mut TextArea<'_>) -> Result<(), EndReason> {
    let is_measured_alike = area.measure(COLUMNS)? == other.measure(COLUMNS)?;
    same(is_measured_alike, Difference::Measure)?;
    let buffer = drawn(area)?;
    let are_alike = is_drawn_so(other, &buffer);
    drop(buffer);
    same(are_alike?, Difference::Cells)?;
    compare_display(area, other)
}

fn is_drawn_so(area: &mut TextArea<'_>, wanted: &Buffer) -> Result<bool, AllocError> {
    let buffer = drawn(area)?;
    let is_alike = are_alike_outside(wanted, &buffer, Rect::default());
    drop(buffer);
    Ok(is_alike)
}

fn drawn(area: &mut TextArea<'_>) -> Result<Buffer, AllocError> {
    let alloc = area.allocator();
    let mut buffer = Buffer::empty(alloc, Rect::new(0, 0, COLUMNS + 2, ROWS + 2))?;
    area.render(Rect::new(1, 1, COLUMNS, ROWS), &mut buffer)?;
    Ok(buffer)
}

/// Returns whether the cells of two buffers outside an area are equal.
pub fn are_alike_outside(buffer: &Buffer, other: &Buffer, area: Rect) -> bool {
    let whole = buffer.area();
    for y in whole.y..whole.y + whole.height {
        for x in whole.x..whole.x + whole.width {
            let is_inside = area.contains(Position { x, y });
            if !is_inside && !is_cell_alike(buffer.cell(x, y), other.cell(x, y)) {
                return false;
            }
        }
    }
    true
}

fn is_cell_alike(cell: Option<&Cell>, other: Option<&Cell>) -> bool {
    match (cell, other) {
        (Some(cell), Some(other)) => {
            cell.symbol() == other.symbol() && cell.style() == other.style()
        }
        (None, None) => true,
        _ => false,
    }
}

// Compares the lines after a typed character is undone; it may have joined the last edit.
fn compare_typed(area: &TextArea<'_>, other: &TextArea<'_>) -> Result<(), EndReason> {
    let lines = typed_lines(area)?;
    let other_lines = typed_lines(other)?;
    same(lines == other_lines, Difference::Typing)
}

// The lines of a clone after a character was typed and undone.
fn typed_lines(area: &TextArea<'_>) -> Result<Vec<String>, AllocError> {
    let mut typed = area.clone()?;
    let lines = type_and_undo(&mut typed);
    drop(typed);
    lines
}

fn type_and_undo(area: &mut TextArea<'_>) -> Result<Vec<String>, AllocError> {
    area.insert_char('x')?;
    area.undo()?;
    let lines = area.lines();
    copy_fragment(*lines[0].allocator(), lines)
}

// Undoes or redoes all edits of both, and compares the state after each.
fn compare_edits(
    area: &mut TextArea<'_>,
    other: &mut TextArea<'_>,
    way: Difference,
) -> Result<(), EndReason> {
    for _ in 0..MOST_EDITS {
        let has_gone = go(area, way)?;
        same(has_gone == go(other, way)?, way)?;
        compare_display(area, other)?;
        if !has_gone {
            break;
        }
    }
    Ok(())
}

fn go(area: &mut TextArea<'_>, way: Difference) -> Result<bool, AllocError> {
    match way {
        Difference::Undo => area.undo(),
        _ => area.redo(),
    }
}
