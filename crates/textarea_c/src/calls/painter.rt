//! Frames on a terminal.
ghost use Rattle.std.specs.Prelude.{◌≡◌, ◌≢◌, IfSome, MatchOption};
ghost use Rattle.textarea_c.specs.Calls.{Calls, Given, OnlyReads};
ghost use Rattle.textarea_c.specs.Terminals.{HasColors, IsUnpainted, PaintsScreen, Resizes, passed_caret};
ghost use Rattle.textarea_c_data.specs.Copied.{IsCopiedOut};
ghost use Rattle.textarea_c_data.specs.Numbers.{colors_of};

use crate::calls::on;
use crate::editor::Editor;
use crate::handle::{Handle, TerminalHandle};
use crate::terminal::Terminal;
use std::alloc::Global;
use textarea_c_data::area::Area;
use textarea_c_data::numbers::read_colors;
use textarea_c_data::slices::copy_out;
use textarea_c_data::status::{INVALID_ARGUMENT, OK, done};
use textarea_screen::screen::Position;

/// Paints the screen of a text area, on which `ta_render` draws: `ta_painter_bytes` returns the
/// bytes that the terminal is to be sent after those of the frame before. With `has_caret` the
/// terminal's cursor is shown in column `x` and row `y`, if the terminal's area has that cell;
/// otherwise it is hidden. A cell that the screen doesn't have is a blank. A frame that the terminal
/// shows already takes no byte.
///
/// Statuses: ok, out of memory, empty handle (one of the two). Where it is not ok, nothing changes.
#[unsafe(no_mangle)]
pub extern "C" fn ta_painter_paint(
    terminal: &mut TerminalHandle,
    alloc: Global,
    handle: &mut Handle,
    has_caret: bool,
    x: u16,
    y: u16,
) -> u32
    ensures unchanged { handle.new.stored.content ≡ handle.old.stored.content }
    ensures painted { Calls terminal.old.stored.content result terminal.new.stored.content
        (λ a b. MatchOption handle.old.stored.content ((result ≡ 5) × (b ≡ a))
        (λ editor. PaintsScreen editor.screen (passed_caret has_caret x y) result a b)) }
{
    let caret = caret_of(has_caret, x, y);
    on!(terminal, alloc, behind => paint_handle(&mut behind, alloc, handle, caret))
}

// Paints the screen of a text area, if there is one behind the handle, and returns the status.
fn paint_handle(
    terminal: &mut Terminal,
    alloc: Global,
    handle: &mut Handle,
    caret: Option<Position>,
) -> u32
    ensures unchanged { handle.new.stored.content ≡ handle.old.stored.content }
    ensures painted { MatchOption handle.old.stored.content
        ((result ≡ 5) × (terminal.new ≡ terminal.old))
        (λ editor. PaintsScreen editor.screen caret result terminal.old terminal.new) }
{
    on!(handle, alloc, editor => paint(terminal, &editor, caret))
}

// Paints the screen of an editor, and returns the status.
fn paint(terminal: &mut Terminal, editor: &Editor, caret: Option<Position>) -> u32
    ensures { PaintsScreen editor.now.screen caret result terminal.old terminal.new }
{
    done(terminal.outgoing.paint(&editor.screen, caret))
}

// Returns the caret's cell, if there is a caret.
fn caret_of(has_caret: bool, x: u16, y: u16) -> Option<Position>
    ensures { result ≡ passed_caret has_caret x y }
{
    if has_caret {
        Some(Position { x, y })
    } else {
        None
    }
}

/// Returns the bytes of the last `ta_painter_paint`, which the terminal is to be sent. `out` gets the
/// first of them, as many as there is room for, and `needed` the number of all.
///
/// Statuses: ok, empty handle.
#[unsafe(no_mangle)]
pub extern "C" fn ta_painter_bytes(
    terminal: &mut TerminalHandle,
    alloc: Global,
    out: &mut [u8],
    needed: &mut usize,
) -> u32
    ensures unchanged { Calls terminal.old.stored.content result terminal.new.stored.content
        (λ a b. OnlyReads result a b) }
    ensures bytes { IfSome terminal.old.stored.content
        (λ a. IsCopiedOut out.old out.new needed.new a.outgoing.bytes) }
    ensures unwritten { result ≢ 0 → (out.new ≡ out.old) × (needed.new ≡ needed.old) }
{
    on!(terminal, alloc, behind => copy_out(behind.outgoing.bytes(), out, needed))
}

/// Forgets what the terminal shows, and its modes, as after another program has written to it. The
/// next `ta_painter_paint` erases it.
///
/// Statuses: ok, empty handle.
#[unsafe(no_mangle)]
pub extern "C" fn ta_painter_reset(terminal: &mut TerminalHandle, alloc: Global) -> u32
    ensures { Calls terminal.old.stored.content result terminal.new.stored.content
        (λ a b. IsUnpainted result a b) }
{
    on!(terminal, alloc, behind => {
        behind.outgoing.reset();
        OK
    })
}

/// Changes the area that the terminal shows, and forgets what it shows. Call it at each
/// `TA_EVENT_SIZE`, also of the same size: the terminal may have had another in between.
///
/// Statuses: ok, out of memory, empty handle. Where it is not ok, nothing changes.
#[unsafe(no_mangle)]
pub extern "C" fn ta_painter_resize(
    terminal: &mut TerminalHandle,
    alloc: Global,
    area: &Area,
) -> u32
    ensures { Calls terminal.old.stored.content result terminal.new.stored.content
        (λ a b. Resizes area.now result a b) }
{
    on!(terminal, alloc, behind => resize(&mut behind, *area))
}

// Changes the area that the terminal shows, and returns the status.
fn resize(terminal: &mut Terminal, area: Area) -> u32
    ensures { Resizes area result terminal.old terminal.new }
{
    done(terminal.outgoing.resize(area.read()))
}

/// Sets the colours that the terminal has, to one of `TA_COLORS_..`, and forgets what it shows. At
/// first it has all. Other colours are shown as the nearest that it has.
///
/// Statuses: ok, invalid argument (there are no such colours), empty handle.
#[unsafe(no_mangle)]
pub extern "C" fn ta_painter_set_colors(
    terminal: &mut TerminalHandle,
    alloc: Global,
    colors: u32,
) -> u32
    ensures { Calls terminal.old.stored.content result terminal.new.stored.content
        (λ a b. Given (colors_of colors) (λ c. HasColors c) result a b) }
{
    on!(terminal, alloc, behind => match read_colors(colors) {
        Some(colors) => {
            behind.outgoing.set_colors(colors);
            OK
        }
        None => INVALID_ARGUMENT,
    })
}
