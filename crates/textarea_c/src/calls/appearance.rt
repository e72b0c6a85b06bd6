//! The mask, the cursor's cell, and custom highlights.
ghost use Rattle.std.specs.Prelude.{◌≡◌, ◌≢◌, IfSome, MatchOption, None, Some};
ghost use Rattle.tui_textarea.specs.Drawing.{highlighted, with_look_set};
ghost use Rattle.textarea_c.specs.Calls.{Asks, Calls, ChangesBy, OnlyReads, SetsBy};
ghost use Rattle.textarea_c_data.specs.Inputs.{character_of_number};
ghost use Rattle.textarea_c_data.specs.Modes.{render_mode_of};
ghost use Rattle.textarea_c_data.specs.Styles.{style_of_numbers};

use crate::calls::on;
use crate::handle::Handle;
use std::alloc::Global;
use textarea_c_data::modes::{read_render_mode, render_mode_number};
use textarea_c_data::status::{FALSE, INVALID_ARGUMENT, OK, done};
use textarea_c_data::style::CStyle;

/// Shows the character with this number instead of each character of the text. The cursor's cell
/// and `ta_cursor_at_position` still follow the columns of the text itself.
///
/// Statuses: ok, invalid argument (no character has this number), empty handle.
#[unsafe(no_mangle)]
pub extern "C" fn ta_set_mask_char(handle: &mut Handle, alloc: Global, mask: u32) -> u32
    ensures { Calls handle.old.stored.content result handle.new.stored.content
        (λ a b. SetsBy (character_of_number mask)
        (λ c. with_look_set a.area (record a.area.drawing.look { mask = Some c })) result a b) }
{
    on!(handle, alloc, editor => match char::from_u32(mask) {
        Some(mask) => {
            editor.area.set_mask_char(mask);
            OK
        }
        None => INVALID_ARGUMENT,
    })
}

/// Returns the number of the character that is shown instead of each character of the text.
///
/// Statuses: ok, false (none is set), empty handle.
#[unsafe(no_mangle)]
pub extern "C" fn ta_mask_char(handle: &mut Handle, alloc: Global, mask: &mut u32) -> u32
    ensures unchanged { Calls handle.old.stored.content result handle.new.stored.content
        (λ a b. Asks result a b) }
    ensures mask { IfSome handle.old.stored.content (λ a. MatchOption a.area.drawing.look.mask
        (result ≡ 1) (λ c. (result ≡ 0) × (mask.new ≡ c))) }
    ensures unwritten { result ≢ 0 → mask.new ≡ mask.old }
{
    on!(handle, alloc, editor => match editor.area.mask_char() {
        Some(found) => {
            *mask = u32::from(found);
            OK
        }
        None => FALSE,
    })
}

/// Sets whether the cell at the cursor has its own style (`TA_CURSOR_CELL`), or is drawn as any
/// other because the terminal's own cursor is there (`TA_CURSOR_HIDDEN`).
///
/// Statuses: ok, invalid argument (there is no such mode), empty handle.
#[unsafe(no_mangle)]
pub extern "C" fn ta_set_cursor_render_mode(handle: &mut Handle, alloc: Global, mode: u32) -> u32
    ensures { Calls handle.old.stored.content result handle.new.stored.content
        (λ a b. SetsBy (render_mode_of mode)
        (λ m. with_look_set a.area (record a.area.drawing.look { cursor_render_mode = m })) result
        a b) }
{
    on!(handle, alloc, editor => match read_render_mode(mode) {
        Some(mode) => {
            editor.area.set_cursor_render_mode(mode);
            OK
        }
        None => INVALID_ARGUMENT,
    })
}

/// Returns how the cell at the cursor is drawn.
///
/// Statuses: ok, empty handle.
#[unsafe(no_mangle)]
pub extern "C" fn ta_cursor_render_mode(handle: &mut Handle, alloc: Global, mode: &mut u32) -> u32
    ensures unchanged { Calls handle.old.stored.content result handle.new.stored.content
        (λ a b. OnlyReads result a b) }
    ensures mode { IfSome handle.old.stored.content
        (λ a. render_mode_of mode.new ≡ Some a.area.drawing.look.cursor_render_mode) }
    ensures unwritten { result ≢ 0 → mode.new ≡ mode.old }
{
    on!(handle, alloc, editor => {
        *mode = render_mode_number(editor.area.cursor_render_mode());
        OK
    })
}

/// Highlights the text between two positions, each a row and a byte offset in it. A byte inside a
/// character counts as the character's first byte, one past the line's end as the end. Where
/// several highlights begin at one position, the one of the highest priority is visible, among
/// equals the last one added. The cursor has priority 30, a match 20, a selection 10. Highlights do
/// not move when the text changes.
///
/// Statuses: ok, out of memory, invalid argument (a colour's kind does not exist), empty handle.
#[unsafe(no_mangle)]
pub extern "C" fn ta_custom_highlight(
    handle: &mut Handle,
    alloc: Global,
    start_row: usize,
    start_byte: usize,
    end_row: usize,
    end_byte: usize,
    style: &CStyle,
    priority: u8,
) -> u32
    ensures { Calls handle.old.stored.content result handle.new.stored.content
        (λ a b. ChangesBy (style_of_numbers style.now)
        (λ s. highlighted a.area ((start_row, start_byte), (end_row, end_byte)) s priority)
        result a b) }
{
    on!(handle, alloc, editor => match style.read() {
        Some(style) => done(editor.area.custom_highlight(
            ((start_row, start_byte), (end_row, end_byte)),
            style,
            priority,
        )),
        None => INVALID_ARGUMENT,
    })
}
