//! Moves of the cursor, and scrolls.
ghost use Rattle.std.specs.Prelude.{◌≡◌, ◌≢◌, IfSome};
ghost use Rattle.textarea_data.specs.declared.cursor.CursorMove.TheVariants as move;
ghost use Rattle.textarea_data.specs.declared.scroll.Scrolling.TheVariants as scrolling;
ghost use Rattle.textarea_text.specs.Place.{IsPlace};
ghost use Rattle.tui_textarea.specs.Moves.{IsMoved, IsScrolled, gone_to};
ghost use Rattle.textarea_data.specs.declared.range.AtomicCursorBias.TheVariants.{Forward};
ghost use Rattle.tui_textarea.specs.Units.{settled};
ghost use Rattle.textarea_c.specs.Calls.{Calls, Goes, GoesBy, OnlyReads, Sets};
ghost use Rattle.textarea_c_data.specs.Numbers.{move_of, page_of};

use crate::calls::on;
use crate::editor::Editor;
use crate::handle::Handle;
use std::alloc::Global;
use textarea_c_data::numbers::{read_move, read_page};
use textarea_c_data::status::{INVALID_ARGUMENT, OK};
use textarea_data::cursor::CursorMove;
use textarea_data::scroll::Scrolling;

/// Moves the cursor by one of `TA_MOVE_..`. An open selection follows it, and a run of typing ends.
/// A target strictly inside an atomic range is moved to the range's start for `TA_MOVE_BACK`,
/// `TA_MOVE_UP`, `TA_MOVE_HEAD`, `TA_MOVE_TOP`, `TA_MOVE_WORD_BACK` and `TA_MOVE_PARAGRAPH_BACK`,
/// and to its end for other moves. A move without a target changes nothing.
///
/// Statuses: ok, invalid argument (there is no such move), empty handle.
#[unsafe(no_mangle)]
pub extern "C" fn ta_move_cursor(handle: &mut Handle, alloc: Global, cursor_move: u32) -> u32
    ensures { Calls handle.old.stored.content result handle.new.stored.content
        (λ a b. GoesBy (move_of cursor_move) (λ m. IsMoved a.area m) result a b) }
{
    on!(handle, alloc, editor => match read_move(cursor_move) {
        Some(cursor_move) => {
            editor.area.move_cursor(cursor_move);
            OK
        }
        None => INVALID_ARGUMENT,
    })
}

/// Moves the cursor to this row and column, both counted from 0, or to the nearest position.
///
/// Statuses: ok, empty handle.
#[unsafe(no_mangle)]
pub extern "C" fn ta_jump(handle: &mut Handle, alloc: Global, row: u16, column: u16) -> u32
    ensures { Calls handle.old.stored.content result handle.new.stored.content
        (λ a b. Goes (IsMoved a.area (move.Jump row column)) result a b) }
{
    on!(handle, alloc, editor => {
        editor.area.move_cursor(CursorMove::Jump(row, column));
        OK
    })
}

/// Moves the cursor to this row and column, both counted from 0, or to the nearest position: the row
/// is at most the last, the column at most its line's length. A position strictly inside an atomic
/// range is moved to the range's end. An open selection follows the cursor, and a run of typing
/// ends. Unlike `ta_jump` it reaches every row.
///
/// Statuses: ok, empty handle.
#[unsafe(no_mangle)]
pub extern "C" fn ta_go_to(handle: &mut Handle, alloc: Global, row: usize, column: usize) -> u32
    ensures { Calls handle.old.stored.content result handle.new.stored.content
        (λ a b. Sets (settled Forward (gone_to a.area (row, column))) result a b) }
{
    on!(handle, alloc, editor => go_to_position(&mut editor, (row, column)))
}

// Moves the cursor to the position that is nearest to `place`, and returns the status.
fn go_to_position(editor: &mut Editor, place: (usize, usize)) -> u32
    ensures { Sets (settled Forward (gone_to editor.old.area place)) result
        editor.old editor.new }
{
    editor.area.go_to(place);
    OK
}

/// Returns the cursor's row and column, which is always a position of the text.
///
/// Statuses: ok, empty handle.
#[unsafe(no_mangle)]
pub extern "C" fn ta_cursor(
    handle: &mut Handle,
    alloc: Global,
    row: &mut usize,
    column: &mut usize,
) -> u32
    ensures unchanged { Calls handle.old.stored.content result handle.new.stored.content
        (λ a b. OnlyReads result a b) }
    ensures cursor { IfSome handle.old.stored.content
        (λ a. (row.new, column.new) ≡ a.area.document.cursor) }
    ensures place { result ≡ 0 → IfSome handle.old.stored.content
        (λ a. IsPlace a.area.document.text (row.new, column.new)) }
    ensures unwritten { result ≢ 0 → (row.new ≡ row.old) × (column.new ≡ column.old) }
{
    on!(handle, alloc, editor => {
        (*row, *column) = editor.area.cursor();
        OK
    })
}

/// Scrolls the viewport by rows, down if positive, and by columns, to the right if positive, and
/// moves the cursor into it, to the nearest visible row and column. An open selection follows the
/// cursor, and a run of typing ends.
///
/// Statuses: ok, empty handle.
#[unsafe(no_mangle)]
pub extern "C" fn ta_scroll(handle: &mut Handle, alloc: Global, rows: i16, columns: i16) -> u32
    ensures { Calls handle.old.stored.content result handle.new.stored.content
        (λ a b. Goes (IsScrolled a.area (scrolling.Delta rows columns)) result a b) }
{
    on!(handle, alloc, editor => {
        editor.area.scroll(Scrolling::Delta {
            rows,
            cols: columns,
        });
        OK
    })
}

/// Scrolls by one of `TA_SCROLL_..`, as `ta_scroll` does. A page has the height of the last
/// `ta_render`, 0 rows before the first one.
///
/// Statuses: ok, invalid argument (there is no such scroll), empty handle.
#[unsafe(no_mangle)]
pub extern "C" fn ta_scroll_page(handle: &mut Handle, alloc: Global, page: u32) -> u32
    ensures { Calls handle.old.stored.content result handle.new.stored.content
        (λ a b. GoesBy (page_of page) (λ s. IsScrolled a.area s) result a b) }
{
    on!(handle, alloc, editor => match read_page(page) {
        Some(scrolling) => {
            editor.area.scroll(scrolling);
            OK
        }
        None => INVALID_ARGUMENT,
    })
}
