// Written by tools/calls from crates/textarea_calls/calls.txt.
//! Selections that only pass their arguments.
ghost use Rattle.textarea_c.specs.Calls.{Calls, MakesChange, MakesSetting};
ghost use Rattle.textarea_calls.specs.declared.call.Call.TheVariants as call;

use crate::calls::on;
use crate::handle::Handle;
use std::alloc::Global;
use textarea_c_data::status::{OK, done};

/// Begins an empty selection at the cursor.
///
/// Statuses: ok, empty handle.
#[unsafe(no_mangle)]
pub extern "C" fn ta_start_selection(handle: &mut Handle, alloc: Global) -> u32
    ensures { Calls handle.old.stored.content result handle.new.stored.content
        (λ a b. MakesSetting call.StartSelection result a b) }
{
    on!(handle, alloc, editor => {
        editor.area.start_selection();
        OK
    })
}

/// Drops the selection, if there is one; the text stays.
///
/// Statuses: ok, empty handle.
#[unsafe(no_mangle)]
pub extern "C" fn ta_cancel_selection(handle: &mut Handle, alloc: Global) -> u32
    ensures { Calls handle.old.stored.content result handle.new.stored.content
        (λ a b. MakesSetting call.CancelSelection result a b) }
{
    on!(handle, alloc, editor => {
        editor.area.cancel_selection();
        OK
    })
}

/// Selects the whole text, and moves the cursor to its end.
///
/// Statuses: ok, empty handle.
#[unsafe(no_mangle)]
pub extern "C" fn ta_select_all(handle: &mut Handle, alloc: Global) -> u32
    ensures { Calls handle.old.stored.content result handle.new.stored.content
        (λ a b. MakesSetting call.SelectAll result a b) }
{
    on!(handle, alloc, editor => {
        editor.area.select_all();
        OK
    })
}

/// Yanks the selected text, if there is any, and drops the selection.
///
/// Statuses: ok, out of memory, empty handle.
#[unsafe(no_mangle)]
pub extern "C" fn ta_copy(handle: &mut Handle, alloc: Global) -> u32
    ensures { Calls handle.old.stored.content result handle.new.stored.content
        (λ a b. MakesChange call.Copy result a b) }
{
    on!(handle, alloc, editor => done(editor.area.copy()))
}
