//! Undo and redo.
ghost use Rattle.textarea_c.specs.Calls.{Calls, Sets};

use crate::calls::on;
use crate::handle::Handle;
use std::alloc::Global;
use std::time::Duration;
use textarea_c_data::status::OK;

/// Sets the time of the edits that follow, in nanoseconds from any fixed time. A time before the
/// last edit's counts as no pause.
///
/// Statuses: ok, empty handle.
#[unsafe(no_mangle)]
pub extern "C" fn ta_set_now(handle: &mut Handle, alloc: Global, nanoseconds: u64) -> u32
    ensures { Calls handle.old.stored.content result handle.new.stored.content
        (λ a b. Sets (record a.area { time = nanoseconds }) result a b) }
{
    on!(handle, alloc, editor => {
        editor.area.set_now(Duration::from_nanos(nanoseconds));
        OK
    })
}
