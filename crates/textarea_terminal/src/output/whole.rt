//! A whole frame: its cells, its caret, and the update around them.
ghost use Rattle.std.specs.Prelude.{◌≡◌, ℕ, ◌*◌, ◌<◌, ◌≤◌, ◌^◌, map, length, OnOk, IfSome, Some, None, IsTrue, if◌then◌else◌};
ghost use Rattle.textarea_screen.specs.Cell.{cell_view};
ghost use Rattle.textarea_terminal.specs.Control.{control_bytes};
ghost use Rattle.textarea_terminal.specs.Control.Control.{ShowCursor, HideCursor};
ghost use Rattle.textarea_terminal.specs.PaintCells.{are_whole};
ghost use Rattle.textarea_terminal.specs.Paint.{Wrote, Clears, SetsCursor, EndsUpdate, PutsCaret, EndsFrame, Paints};

use super::brush::{Brush, move_to, write_all_cells, write_cells};
use super::look::PLAIN;
use super::spot::Spot;
use std::alloc::AllocError;
use textarea_screen::screen::Cell;

/// Begins an update, resets the modes and the pen, and erases all cells.
fn clear(bytes: &mut Vec<u8>) -> Result<(), AllocError>
    ensures { OnOk result (Wrote bytes.old.items bytes.new.items Clears) }
{
    // The modes are those that a terminal has at first: the characters of ASCII, no origin, no
    // margins, no insertion, and wrapping.
    let controls = b"\x1b[?2026h\x1b(B\x0f\x1b[?6l\x1b[?69l\x1b[r\x1b[4l\x1b[?7h\x1b[0m\x1b[2J";
    bytes.extend_from_slice(controls)?;
    Ok(())
}

/// Shows or hides the cursor, unless it is known to be so.
fn set_cursor(bytes: &mut Vec<u8>, known: Option<bool>, wanted: bool) -> Result<(), AllocError>
    ensures { OnOk result (Wrote bytes.old.items bytes.new.items (SetsCursor known wanted)) }
{
    if known == Some(wanted) {
        return Ok(());
    }
    bytes.extend_from_slice(cursor_control(wanted))?;
    Ok(())
}

/// The bytes that show or hide the cursor.
fn cursor_control(is_visible: bool) -> &'static [u8]
    ensures { result.now ≡ control_bytes (if is_visible then ShowCursor else HideCursor) }
{
    if is_visible {
        b"\x1b[?25h"
    } else {
        b"\x1b[?25l"
    }
}

/// EndsFrame an update, if one has begun.
fn end_update(bytes: &mut Vec<u8>, is_updating: bool) -> Result<(), AllocError>
    ensures { OnOk result (Wrote bytes.old.items bytes.new.items (EndsUpdate is_updating)) }
{
    if is_updating {
        bytes.extend_from_slice(b"\x1b[?2026l")?;
    }
    Ok(())
}

/// Moves the cursor to the caret and shows it, or hides it if there is no caret.
fn write_caret(
    bytes: &mut Vec<u8>,
    at: Option<usize>,
    known: Option<bool>,
    columns: usize,
    caret: Option<usize>,
) -> Result<(), AllocError>
    requires { (columns < 2 ^ 16) × IfSome caret (λ index. (index < 2 ^ 32) × (0 < columns)) }
    ensures { OnOk result (Wrote bytes.old.items bytes.new.items
        (PutsCaret at known columns caret)) }
{
    match caret {
        Some(index) => {
            move_to(bytes, at, columns, Spot::new(index, columns))?;
            set_cursor(bytes, known, true)?;
        }
        None => set_cursor(bytes, known, false)?,
    }
    Ok(())
}

/// Writes the caret, and ends the update.
fn write_end(
    bytes: &mut Vec<u8>,
    brush: Brush,
    known: Option<bool>,
    columns: usize,
    caret: Option<usize>,
) -> Result<(), AllocError>
    requires { (columns < 2 ^ 16) × IfSome caret (λ index. (index < 2 ^ 32) × (0 < columns)) }
    ensures { OnOk result (Wrote bytes.old.items bytes.new.items
        (EndsFrame brush known columns caret)) }
{
    write_caret(bytes, brush.at, known, columns, caret)?;
    end_update(bytes, brush.is_updating)?;
    Ok(())
}

/// Writes the changes from the old frame to the new one.
pub(super) fn write_frame(
    bytes: &mut Vec<u8>,
    columns: usize,
    old: &[Cell],
    old_caret: Option<usize>,
    new: &[Cell],
    caret: Option<usize>,
) -> Result<(), AllocError>
    requires some { 0 < length new.now → 0 < columns }
    requires columns { columns < 2 ^ 16 }
    requires length { length old.now ≡ length new.now }
    requires size { length new.now < 2 ^ 32 }
    requires old_whole { IsTrue (are_whole columns 0 0 (map cell_view old.now)) }
    requires new_whole { IsTrue (are_whole columns 0 0 (map cell_view new.now)) }
    requires caret { IfSome caret (λ index. index < length new.now) }
    ensures { OnOk result (Wrote bytes.old.items bytes.new.items
        (Paints columns (length new.now)
        (Some (record { cells = map cell_view old.now; caret = old_caret }))
        (record { cells = map cell_view new.now; caret = caret }))) }
{
    let start = Brush {
        at: old_caret,
        pen: None,
        is_updating: false,
    };
    let brush = write_cells(bytes, start, columns, old, new)?;
    write_end(bytes, brush, Some(old_caret.is_some()), columns, caret)?;
    Ok(())
}

/// Erases a terminal whose content is unknown, and writes a frame.
pub(super) fn write_first_frame(
    bytes: &mut Vec<u8>,
    columns: usize,
    new: &[Cell],
    caret: Option<usize>,
) -> Result<(), AllocError>
    requires some { 0 < length new.now → 0 < columns }
    requires columns { columns < 2 ^ 16 }
    requires size { length new.now < 2 ^ 32 }
    requires whole { IsTrue (are_whole columns 0 0 (map cell_view new.now)) }
    requires caret { IfSome caret (λ index. index < length new.now) }
    ensures { OnOk result (Wrote bytes.old.items bytes.new.items
        (Paints columns (length new.now) None
        (record { cells = map cell_view new.now; caret = caret }))) }
{
    clear(bytes)?;
    let start = Brush {
        at: None,
        pen: Some(PLAIN),
        is_updating: true,
    };
    let brush = write_all_cells(bytes, start, columns, new)?;
    write_end(bytes, brush, None, columns, caret)?;
    Ok(())
}
