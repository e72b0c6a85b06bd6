// Written by tools/calls from crates/textarea_calls/calls.txt.
//! Atomic ranges, where only arguments are passed.
ghost use Rattle.textarea_c.specs.Calls.{Calls, MakesSetting};
ghost use Rattle.textarea_calls.specs.declared.call.Call.TheVariants as call;

use crate::calls::on;
use crate::handle::Handle;
use std::alloc::Global;
use textarea_c_data::status::OK;

/// Drops all atomic ranges.
///
/// Statuses: ok, empty handle.
#[unsafe(no_mangle)]
pub extern "C" fn ta_clear_atomic_ranges(handle: &mut Handle, alloc: Global) -> u32
    ensures { Calls handle.old.stored.content result handle.new.stored.content
        (λ a b. MakesSetting call.ClearAtomicRanges result a b) }
{
    on!(handle, alloc, editor => {
        editor.area.clear_atomic_ranges();
        OK
    })
}
