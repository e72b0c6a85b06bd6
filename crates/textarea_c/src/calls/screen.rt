//! The screen of a text area, and drawing on it.
ghost use Rattle.std.specs.Prelude.{◌≡◌, ◌≢◌, ◌<◌, ◌≤◌, ◌==◌, ◌&&◌, ℕ, IfSome, MatchOption, None, Some, if◌then◌else◌, is_some, length};
ghost use Rattle.textarea_screen.specs.Buffer.{Changes, KeepsOutside, area_of, cell_at};
ghost use Rattle.textarea_screen.specs.Cell.{fresh_cell, with_symbol};
ghost use Rattle.textarea_screen.specs.Rect.{contains};
ghost use Rattle.textarea_screen.specs.declared.screen.cell.TheConstants.{INLINE_BYTES};
ghost use Rattle.textarea_screen.specs.declared.screen.alignment.Alignment.TheVariants.{Left};
ghost use Rattle.textarea_text.specs.Place.{IsPlace};
ghost use Rattle.tui_textarea.specs.CaretHit.{IsCaretHit, IsCursorAtCaret};
ghost use Rattle.tui_textarea.specs.CaretVisible.{IsCaretVisible};
ghost use Rattle.tui_textarea.specs.Drawing.{IsRendered, widget_of};
ghost use Rattle.tui_textarea.specs.Hit.{IsHitTest};
ghost use Rattle.tui_textarea.specs.Rendered.{IsDrawn};
ghost use Rattle.textarea_c_data.specs.Areas.{IsArea};
ghost use Rattle.textarea_c.specs.Calls.{Asks, Calls, Given, ChangesScreen, OnlyReads, Restyles};
ghost use Rattle.textarea_c_data.specs.Cells.{plain_cell, plain_cells};
ghost use Rattle.textarea_c.specs.Drawn.{IsStyledIn};
ghost use Rattle.textarea_c.specs.Rendered.{IsRenderedIn};
ghost use Rattle.textarea_c_data.specs.Copied.{IsCopiedOut};
ghost use Rattle.textarea_c_data.specs.Styles.{style_of_numbers};
ghost use Rattle.textarea_c_data.specs.Texts.{text_in};

use crate::calls::on;
use crate::editor::Editor;
use crate::handle::Handle;
use std::alloc::Global;
use textarea_c_data::area::Area;
use textarea_c_data::cell::{CCell, write_cells};
use textarea_c_data::slices::{copy_out, text_of};
use textarea_c_data::status::{FALSE, INVALID_ARGUMENT, OK, OUT_OF_MEMORY, done};
use textarea_c_data::style::CStyle;
use textarea_screen::screen;
use textarea_screen::screen::{Buffer, Position, Rect};

/// Gives the screen of the text area the cells of this rectangle, each a blank in the terminal's
/// own colours. Columns and rows past 65535 are left out. A new text area's screen has no cells.
///
/// Statuses: ok, out of memory, empty handle.
#[unsafe(no_mangle)]
pub extern "C" fn ta_screen_reset(handle: &mut Handle, alloc: Global, area: &Area) -> u32
    ensures { Calls handle.old.stored.content result handle.new.stored.content
        (λ a b. ChangesScreen (λ _ after. IsArea area.now (area_of after.screen)
        × ((x y : ℕ) → cell_at after.screen x y
        ≡ (if contains (area_of after.screen) x y then Some fresh_cell else None))) result a b) }
{
    on!(handle, alloc, editor => match Buffer::empty(alloc, area.read()) {
        Ok(screen) => {
            editor.screen = screen;
            OK
        }
        Err(_) => OUT_OF_MEMORY,
    })
}

/// Makes each cell of the screen a blank in the terminal's own colours.
///
/// Statuses: ok, empty handle.
#[unsafe(no_mangle)]
pub extern "C" fn ta_screen_clear(handle: &mut Handle, alloc: Global) -> u32
    ensures { Calls handle.old.stored.content result handle.new.stored.content
        (λ a b. Restyles (λ before after. Changes before.screen after.screen
        (λ x y cell. fresh_cell)) result a b) }
{
    on!(handle, alloc, editor => {
        clear_screen(&mut editor);
        OK
    })
}

// Makes each cell of the screen a blank in the terminal's own colours.
fn clear_screen(editor: &mut Editor)
    ensures screen { Changes editor.old.screen editor.new.screen (λ x y cell. fresh_cell) }
    ensures rest { editor.new ≡ record editor.old { screen = editor.new.screen } }
{
    editor.screen.reset();
}

/// Returns the rectangle whose cells the screen has.
///
/// Statuses: ok, empty handle.
#[unsafe(no_mangle)]
pub extern "C" fn ta_screen_area(handle: &mut Handle, alloc: Global, area: &mut Area) -> u32
    ensures unchanged { Calls handle.old.stored.content result handle.new.stored.content
        (λ a b. OnlyReads result a b) }
    ensures area { IfSome handle.old.stored.content (λ a. IsArea area.new (area_of a.screen)) }
    ensures unwritten { result ≢ 0 → area.new ≡ area.old }
{
    on!(handle, alloc, editor => {
        *area = Area::of(editor.screen.area());
        OK
    })
}

/// Replaces the text of the cell at column `x` and row `y` of the screen, and applies a style to
/// it. Does nothing outside of the screen.
///
/// Statuses: ok, out of memory, invalid argument (the text is not UTF-8, or a colour's kind does
/// not exist), empty handle. Where it is not ok, nothing changes.
#[unsafe(no_mangle)]
pub extern "C" fn ta_screen_put(
    handle: &mut Handle,
    alloc: Global,
    x: u16,
    y: u16,
    text: &[u8],
    style: &CStyle,
) -> u32
    ensures put { Calls handle.old.stored.content result handle.new.stored.content
        (λ a b. Given (text_in text.now) (λ t. Given (style_of_numbers style.now) (λ s. ChangesScreen (λ before
        after. Changes before.screen after.screen (λ column row cell.
        if (column == x) && (row == y) then with_symbol t s cell else cell)))) result a b) }
    ensures inline { IfSome (text_in text.now) (λ t. length t ≤ INLINE_BYTES → result ≢ 2) }
{
    on!(handle, alloc, editor => match text_of(text) {
        Some(text) => match style.read() {
            Some(style) => done(editor.screen.put(x, y, text, style)),
            None => INVALID_ARGUMENT,
        },
        None => INVALID_ARGUMENT,
    })
}

/// Applies a style to those cells of an area that the screen has.
///
/// Statuses: ok, invalid argument (a colour's kind does not exist), empty handle.
#[unsafe(no_mangle)]
pub extern "C" fn ta_screen_set_style(
    handle: &mut Handle,
    alloc: Global,
    area: &Area,
    style: &CStyle,
) -> u32
    ensures { Calls handle.old.stored.content result handle.new.stored.content
        (λ a b. Given (style_of_numbers style.now) (λ s. Restyles (λ before after.
        IsStyledIn area.now s before.screen after.screen)) result a b) }
{
    on!(handle, alloc, editor => match style.read() {
        Some(style) => {
            apply_style(&mut editor, *area, style);
            OK
        }
        None => INVALID_ARGUMENT,
    })
}

// Applies a style to cells of the screen.
fn apply_style(editor: &mut Editor, area: Area, style: screen::Style)
    ensures screen { IsStyledIn area style editor.old.screen editor.new.screen }
    ensures rest { editor.new ≡ record editor.old { screen = editor.new.screen } }
{
    editor.screen.set_style(area.read(), style);
}

/// Returns the cell at column `x` and row `y` of the screen.
///
/// Statuses: ok, false (it is outside of the screen), empty handle.
#[unsafe(no_mangle)]
pub extern "C" fn ta_screen_cell(
    handle: &mut Handle,
    alloc: Global,
    x: u16,
    y: u16,
    cell: &mut CCell,
) -> u32
    ensures unchanged { Calls handle.old.stored.content result handle.new.stored.content
        (λ a b. Asks result a b) }
    ensures cell { IfSome handle.old.stored.content
        (λ a. MatchOption (cell_at a.screen x y) (result ≡ 1)
        (λ displayed. (result ≡ 0) × (cell.new ≡ plain_cell displayed))) }
    ensures unwritten { result ≢ 0 → cell.new ≡ cell.old }
{
    on!(handle, alloc, editor => match editor.screen.cell(x, y) {
        Some(found) => {
            cell.set(found);
            OK
        }
        None => FALSE,
    })
}

/// Returns the text of the cell at column `x` and row `y` of the screen. `out` gets the first of
/// its bytes, as many as there is room for, and `needed` the number of all.
///
/// Statuses: ok, false (it is outside of the screen), empty handle.
#[unsafe(no_mangle)]
pub extern "C" fn ta_screen_symbol(
    handle: &mut Handle,
    alloc: Global,
    x: u16,
    y: u16,
    out: &mut [u8],
    needed: &mut usize,
) -> u32
    ensures unchanged { Calls handle.old.stored.content result handle.new.stored.content
        (λ a b. Asks result a b) }
    ensures text { IfSome handle.old.stored.content
        (λ a. MatchOption (cell_at a.screen x y) (result ≡ 1) (λ cell. (result ≡ 0)
        × IsCopiedOut out.old out.new needed.new cell.symbol)) }
    ensures unwritten { result ≢ 0 → (out.new ≡ out.old) × (needed.new ≡ needed.old) }
{
    on!(handle, alloc, editor => match editor.screen.cell(x, y) {
        Some(found) => copy_out(found.symbol().as_bytes(), out, needed),
        None => FALSE,
    })
}

/// Returns all cells of the screen, row after row. `out` gets the first of them, as many as there
/// is room for, and `needed` their number.
///
/// Statuses: ok, empty handle.
#[unsafe(no_mangle)]
pub extern "C" fn ta_screen_cells(
    handle: &mut Handle,
    alloc: Global,
    out: &mut [CCell],
    needed: &mut usize,
) -> u32
    ensures unchanged { Calls handle.old.stored.content result handle.new.stored.content
        (λ a b. OnlyReads result a b) }
    ensures cells { IfSome handle.old.stored.content
        (λ a. IsCopiedOut out.old out.new needed.new (plain_cells a.screen)) }
    ensures unwritten { result ≢ 0 → (out.new ≡ out.old) × (needed.new ≡ needed.old) }
{
    on!(handle, alloc, editor => {
        *needed = write_cells(&editor.screen, out);
        OK
    })
}

/// Draws the text area into an area of its screen: the block, and inside it the visual rows, or the
/// placeholder if the text is empty and the placeholder has lines. The viewport follows the cursor.
/// A cell that nothing is drawn on keeps its text, and no cell outside the area changes.
///
/// Statuses: ok, out of memory (cells of the area may have been drawn, but the text area is
/// unchanged), empty handle.
#[unsafe(no_mangle)]
pub extern "C" fn ta_render(handle: &mut Handle, alloc: Global, area: &Area) -> u32
    ensures { Calls handle.old.stored.content result handle.new.stored.content
        (λ a b. IsRenderedIn area.now result a b) }
{
    on!(handle, alloc, editor => draw(&mut editor, *area))
}

// Draws the text area into an area of its screen.
fn draw(editor: &mut Editor, area: Area) -> u32
    ensures { IsRenderedIn area result editor.old editor.new }
{
    draw_in(editor, area.read())
}

// Draws the text area into an area of its screen.
fn draw_in(editor: &mut Editor, area: Rect) -> u32
    ensures rendered { result ≡ 0 → IsRendered editor.old.area area editor.new.area }
    ensures drawn { result ≡ 0
        → IsDrawn (widget_of editor.new.area) area editor.old.screen editor.new.screen }
    ensures back { result ≡ 0 → IsCaretHit (widget_of editor.new.area) }
    ensures displayed { result ≡ 0 → IsCaretVisible (widget_of editor.new.area) }
    ensures outside { KeepsOutside (contains area) editor.old.screen editor.new.screen }
    ensures left { result ≢ 0 → (result ≡ 2) × (editor.new.area ≡ editor.old.area) }
    ensures rest { editor.new
        ≡ record editor.old { area = editor.new.area; screen = editor.new.screen } }
{
    match editor.area.render(area, &mut editor.screen) {
        Ok(()) => OK,
        Err(_) => OUT_OF_MEMORY,
    }
}

/// Returns the cursor's cell at the last `ta_render`, for the terminal's own cursor.
///
/// Statuses: ok, false (the cursor was outside the viewport, or nothing was drawn yet), empty
/// handle.
#[unsafe(no_mangle)]
pub extern "C" fn ta_rendered_cursor_position(
    handle: &mut Handle,
    alloc: Global,
    x: &mut u16,
    y: &mut u16,
) -> u32
    ensures unchanged { Calls handle.old.stored.content result handle.new.stored.content
        (λ a b. Asks result a b) }
    ensures cell { IfSome handle.old.stored.content (λ a. MatchOption a.area.drawing.caret
        (result ≡ 1) (λ cell. (result ≡ 0) × ((x.new, y.new) ≡ cell))) }
    ensures unwritten { result ≢ 0 → (x.new ≡ x.old) × (y.new ≡ y.old) }
{
    on!(handle, alloc, editor => match editor.area.rendered_cursor_position() {
        Some(position) => {
            *x = position.x;
            *y = position.y;
            OK
        }
        None => FALSE,
    })
}

/// Returns the position of the text that a cell of the screen shows, in the inner area of the last
/// `ta_render`, for the present text and viewport. A cell below the last visual row counts as one
/// in that row, and a cell past a row's end as its greatest cursor column; with a placeholder each
/// cell shows the text's start.
///
/// Statuses: ok, false (the cell is outside the inner area), out of memory, empty handle.
#[unsafe(no_mangle)]
pub extern "C" fn ta_cursor_at_position(
    handle: &mut Handle,
    alloc: Global,
    x: u16,
    y: u16,
    row: &mut usize,
    column: &mut usize,
) -> u32
    ensures unchanged { Calls handle.old.stored.content result handle.new.stored.content
        (λ a b. (b ≡ a) × (result < 3)) }
    ensures hit { result ≡ 0 → IfSome handle.old.stored.content
        (λ a. IsHitTest (widget_of a.area) x y (Some (row.new, column.new))) }
    ensures place { result ≡ 0 → IfSome handle.old.stored.content
        (λ a. IsPlace a.area.document.text (row.new, column.new)) }
    ensures back { result ≡ 0 → IfSome handle.old.stored.content
        (λ a. IsCursorAtCaret (widget_of a.area) x y (Some (row.new, column.new))) }
    ensures none { result ≡ 1 → IfSome handle.old.stored.content
        (λ a. IsHitTest (widget_of a.area) x y None × IsCursorAtCaret (widget_of a.area) x y None) }
    ensures left { IfSome handle.old.stored.content
        (λ a. a.area.drawing.look.alignment ≡ Left → result ≢ 2) }
    ensures unwritten { result ≢ 0 → (row.new ≡ row.old) × (column.new ≡ column.old) }
{
    on!(handle, alloc, editor => find_position(&editor, Position { x, y }, row, column))
}

// Writes the position of the text that a cell shows, if there is one, and returns the status.
fn find_position(editor: &Editor, cell: Position, row: &mut usize, column: &mut usize) -> u32
    ensures hit { result ≡ 0
        → IsHitTest (widget_of editor.now.area) cell.x cell.y (Some (row.new, column.new)) }
    ensures place { result ≡ 0 → IsPlace editor.now.area.document.text (row.new, column.new) }
    ensures back { result ≡ 0
        → IsCursorAtCaret (widget_of editor.now.area) cell.x cell.y (Some (row.new, column.new)) }
    ensures none { result ≡ 1 → IsHitTest (widget_of editor.now.area) cell.x cell.y None
        × IsCursorAtCaret (widget_of editor.now.area) cell.x cell.y None }
    ensures left { editor.now.area.drawing.look.alignment ≡ Left → result ≢ 2 }
    ensures status { result < 3 }
    ensures unwritten { result ≢ 0 → (row.new ≡ row.old) × (column.new ≡ column.old) }
{
    match editor.area.cursor_at_position(cell) {
        Ok(found) => write_place(found, row, column),
        Err(_) => OUT_OF_MEMORY,
    }
}

// Writes the position, if there is one, and returns the status.
fn write_place(found: Option<(usize, usize)>, row: &mut usize, column: &mut usize) -> u32
    ensures status { result ≡ (if is_some found then 0 else 1) }
    ensures place { result ≡ 0 → found ≡ Some (row.new, column.new) }
    ensures none { result ≡ 1 → found ≡ None }
    ensures unwritten { result ≢ 0 → (row.new ≡ row.old) × (column.new ≡ column.old) }
{
    match found {
        Some(place) => {
            (*row, *column) = place;
            OK
        }
        None => FALSE,
    }
}

/// Returns the viewport: the first visible visual row and column, and the width and height of the
/// inner area of the last `ta_render`. All four are 0 before the first one.
///
/// Statuses: ok, empty handle.
#[unsafe(no_mangle)]
pub extern "C" fn ta_viewport(
    handle: &mut Handle,
    alloc: Global,
    row: &mut usize,
    column: &mut usize,
    width: &mut usize,
    height: &mut usize,
) -> u32
    ensures unchanged { Calls handle.old.stored.content result handle.new.stored.content
        (λ a b. OnlyReads result a b) }
    ensures viewport { IfSome handle.old.stored.content
        (λ a. a.area.drawing.viewport ≡ record {
          row = row.new;
          column = column.new;
          width = width.new;
          height = height.new;
        }) }
    ensures unwritten { result ≢ 0 → (row.new ≡ row.old) × (column.new ≡ column.old)
        × (width.new ≡ width.old) × (height.new ≡ height.old) }
{
    on!(handle, alloc, editor => {
        (*row, *column, *width, *height) = editor.area.viewport().rect();
        OK
    })
}
