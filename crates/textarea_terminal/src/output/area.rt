//! The cells and the caret of an area.
ghost use Rattle.std.specs.Prelude.{◌≡◌, ◌<◌, map, length, replicate, vec_len, IfOk, IfSome};
ghost use Rattle.textarea_screen.specs.Cell.{cell_view, fresh_cell};
ghost use Rattle.textarea_terminal.specs.PaintArea.{cell_count, caret_in};

use std::alloc::{AllocError, Global};
use textarea_screen::screen::{Cell, Position, Rect};

/// Returns `count` fresh cells.
pub(super) fn fresh_cells(alloc: Global, count: usize) -> Result<Vec<Cell>, AllocError>
    ensures len { IfOk result (λ cells. vec_len cells ≡ count) }
    ensures cells { IfOk result (λ cells.
        map cell_view cells.items ≡ replicate count fresh_cell) }
{
    let mut cells = Vec::with_capacity(alloc, count)?;
    for _ in 0..count {
        cells.push(Cell::fresh())?;
    }
    Ok(cells)
}

/// The index of the caret's cell in an area; `None` for a caret outside of it.
pub(super) fn caret_in(area: Rect, caret: Option<Position>) -> Option<usize>
    ensures value { result ≡ caret_in area caret }
    ensures bound { IfSome result (λ index. index < cell_count area) }
{
    let position = caret?;
    if area.contains(position) {
        let row = usize::from(position.y - area.y);
        Some(row * usize::from(area.width) + usize::from(position.x - area.x))
    } else {
        None
    }
}
