//! Keys: each input asks for one of the calls, by one of two key tables.
ghost use Rattle.tui_textarea.specs.Input.{asked_by, asked_without_shortcuts};
ghost use Rattle.textarea_c.specs.Acts.{ActsBy};
ghost use Rattle.textarea_c.specs.Calls.{Calls};
ghost use Rattle.textarea_c_data.specs.Inputs.{input_read};

use crate::calls::on;
use crate::handle::Handle;
use std::alloc::Global;
use textarea_c_data::input::CInput;
use textarea_c_data::status::{INVALID_ARGUMENT, flag};

/// Makes the call that the key table with shortcuts has for the input. With Shift, a move or scroll
/// extends the selection, or begins one; without Shift it drops the selection. A move without a
/// target changes nothing.
///
/// Statuses: ok (the text changed: a character or a line break was inserted, or the call of another
/// edit, an undo or a redo did something), false, out of memory (only for a key whose call may
/// return it, which leaves the text area as that call does), invalid argument (there is no such
/// key), empty handle.
#[unsafe(no_mangle)]
pub extern "C" fn ta_input(handle: &mut Handle, alloc: Global, input: &CInput) -> u32
    ensures { Calls handle.old.stored.content result handle.new.stored.content
        (λ a b. ActsBy (input_read input.now) asked_by result a b) }
{
    on!(handle, alloc, editor => match input.read() {
        Some(input) => flag(editor.area.input(input)),
        None => INVALID_ARGUMENT,
    })
}

/// As `ta_input`, but by the table without shortcuts, for a caller that has its own: only
/// characters, Tab, Backspace, Delete, Enter and the mouse wheel. The wheel scrolls as `ta_scroll`
/// does: an open selection stays open, and the input's Shift is ignored.
///
/// Statuses: as of `ta_input`.
#[unsafe(no_mangle)]
pub extern "C" fn ta_input_without_shortcuts(
    handle: &mut Handle,
    alloc: Global,
    input: &CInput,
) -> u32
    ensures { Calls handle.old.stored.content result handle.new.stored.content
        (λ a b. ActsBy (input_read input.now) asked_without_shortcuts result a b) }
{
    on!(handle, alloc, editor => match input.read() {
        Some(input) => flag(editor.area.input_without_shortcuts(input)),
        None => INVALID_ARGUMENT,
    })
}
