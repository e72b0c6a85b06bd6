//! Makes one call on a text area.
ghost use Rattle.std.specs.Prelude.{◌≡◌, false, IfOk, OnErr, OnOk};
ghost use Rattle.textarea_calls.specs.Possible.{CanBeMade};
ghost use Rattle.textarea_calls.specs.Topics.{draws};
ghost use Rattle.tui_textarea.specs.Outcomes.{IsResultOf, IsAfterCall, IsBufferAfter, IsBufferOutOfMemory, RanOutOfMemory};
ghost use Rattle.tui_textarea.specs.CallResults.{call_result};

use crate::topics;
use std::alloc::AllocError;
use textarea_calls::topic::{Topic, topic_of};
use textarea_calls::{Answer, Call};
use textarea_screen::screen::Buffer;
use tui_textarea::TextArea;

/// Makes one call and returns its result. A rejected pattern is a result. An error means out of
/// memory; it is returned only where the call may allocate in the text area's state, and leaves the
/// text area as that call does when memory runs out. Only calls that draw change the buffer.
pub fn perform(
    area: &mut TextArea<'_>,
    call: Call<'_>,
    buffer: &mut Buffer,
) -> Result<Answer, AllocError>
    requires { CanBeMade call }
    ensures answer { IfOk result (λ answer. IsResultOf area.old call.entry (call_result answer)) }
    ensures ok { IfOk result
        (λ answer. IsAfterCall area.old call.entry (call_result answer) area.new) }
    ensures err { OnErr result (RanOutOfMemory area.old call.entry area.new) }
    ensures displayed { OnOk result (IsBufferAfter call.entry area.new buffer.old buffer.new) }
    ensures buffer_left { OnErr result (IsBufferOutOfMemory call.entry buffer.old buffer.new) }
{
    match call {
        Call::Render(place) => area.render(place, buffer).map(|()| Answer::Done),
        _ => make(area, call),
    }
}

/// Makes one call that doesn't draw, and returns its result, as `perform` does.
pub fn make(area: &mut TextArea<'_>, call: Call<'_>) -> Result<Answer, AllocError>
    requires can { CanBeMade call }
    requires undrawn { draws call ≡ false }
    ensures answer { IfOk result (λ answer. IsResultOf area.old call.entry (call_result answer)) }
    ensures ok { IfOk result
        (λ answer. IsAfterCall area.old call.entry (call_result answer) area.new) }
    ensures err { OnErr result (RanOutOfMemory area.old call.entry area.new) }
{
    match topic_of(call) {
        Topic::Insert(call) => topics::insert_call(area, call),
        Topic::Remove(call) => topics::remove_call(area, call),
        Topic::History(call) => topics::history_call(area, call),
        Topic::Changes(call) => topics::changes_call(area, call),
        Topic::Select(call) => topics::select_call(area, call),
        Topic::Move(call) => topics::move_call(area, call),
        Topic::Search(call) => topics::search_call(area, call),
        Topic::Ranges(call) => topics::ranges_call(area, call),
        Topic::Options(call) => topics::options_call(area, call),
        Topic::Appearance(call) => topics::appearance_call(area, call),
        Topic::Keys(call) => topics::keys_call(area, call),
        Topic::Read(call) => topics::read_call(area, call),
    }
}
