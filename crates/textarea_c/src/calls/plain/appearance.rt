// Written by tools/calls from crates/textarea_calls/calls.txt.
//! Looks that only pass their arguments.
ghost use Rattle.textarea_c.specs.Calls.{Calls, MakesSetting};
ghost use Rattle.textarea_calls.specs.declared.call.Call.TheVariants as call;

use crate::calls::on;
use crate::handle::Handle;
use std::alloc::Global;
use textarea_c_data::status::OK;

/// Shows the text itself again.
///
/// Statuses: ok, empty handle.
#[unsafe(no_mangle)]
pub extern "C" fn ta_clear_mask_char(handle: &mut Handle, alloc: Global) -> u32
    ensures { Calls handle.old.stored.content result handle.new.stored.content
        (λ a b. MakesSetting call.ClearMaskChar result a b) }
{
    on!(handle, alloc, editor => {
        editor.area.clear_mask_char();
        OK
    })
}

/// Removes all custom highlights.
///
/// Statuses: ok, empty handle.
#[unsafe(no_mangle)]
pub extern "C" fn ta_clear_custom_highlight(handle: &mut Handle, alloc: Global) -> u32
    ensures { Calls handle.old.stored.content result handle.new.stored.content
        (λ a b. MakesSetting call.ClearCustomHighlight result a b) }
{
    on!(handle, alloc, editor => {
        editor.area.clear_custom_highlight();
        OK
    })
}
