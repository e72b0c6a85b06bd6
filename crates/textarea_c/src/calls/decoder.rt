//! The bytes that a terminal sends, as events.
ghost use Rattle.std.specs.Prelude.{◌≡◌, ◌≢◌, IfSome};
ghost use Rattle.textarea_terminal.specs.InputState.{asked, fed, on_console, paused, resizing};
ghost use Rattle.textarea_c.specs.Calls.{Calls, OnlyReads};
ghost use Rattle.textarea_c.specs.Terminals.{Decodes, IsTold, TakesEvent};
ghost use Rattle.textarea_c_data.specs.Copied.{IsCopiedOut};

use crate::calls::on;
use crate::handle::TerminalHandle;
use std::alloc::Global;
use textarea_c_data::event::CEvent;
use textarea_c_data::slices::copy_out;
use textarea_c_data::status::{FALSE, OK, done};

/// Decodes the next bytes that the terminal sent, however they are split; `ta_decoder_event` takes
/// the events. The bytes of what is incomplete are stored until more are there: at most 4097, but
/// 1048576 in a string, and a pasted text until its end.
///
/// Statuses: ok, out of memory, empty handle. Where it is not ok, nothing changes.
#[unsafe(no_mangle)]
pub extern "C" fn ta_decoder_feed(terminal: &mut TerminalHandle, alloc: Global, bytes: &[u8]) -> u32
    ensures { Calls terminal.old.stored.content result terminal.new.stored.content
        (λ a b. Decodes (fed a.incoming.decoder bytes.now) result a b) }
{
    on!(terminal, alloc, behind => done(behind.incoming.feed(bytes)))
}

/// Tells that the terminal sent nothing for so many milliseconds, since the last byte or the last
/// call of this. The keys that are incomplete bytes by themselves are events then: a lone ESC is
/// the key Esc, and ESC with `[`, `O` or the start of a string is Alt with that character. After 5
/// seconds of such pauses nothing stays incomplete: what came of a pasted text is one, the rest of it
/// is dropped when it comes, and queries without a reply are given up.
///
/// Statuses: ok, out of memory, empty handle. Where it is not ok, nothing changes.
#[unsafe(no_mangle)]
pub extern "C" fn ta_decoder_idle(
    terminal: &mut TerminalHandle,
    alloc: Global,
    milliseconds: u32,
) -> u32
    ensures { Calls terminal.old.stored.content result terminal.new.stored.content
        (λ a b. Decodes (paused a.incoming.decoder milliseconds) result a b) }
{
    on!(terminal, alloc, behind => done(behind.incoming.idle(milliseconds)))
}

/// Takes the oldest event that was not taken yet.
///
/// Statuses: ok, false (there is none), empty handle.
#[unsafe(no_mangle)]
pub extern "C" fn ta_decoder_event(
    terminal: &mut TerminalHandle,
    alloc: Global,
    event: &mut CEvent,
) -> u32
    ensures taken { Calls terminal.old.stored.content result terminal.new.stored.content
        (λ a b. TakesEvent event.new result a b) }
    ensures unwritten { result ≢ 0 → event.new ≡ event.old }
{
    on!(terminal, alloc, behind => match behind.incoming.take() {
        Some(taken) => {
            *event = taken;
            OK
        }
        None => FALSE,
    })
}

/// Returns the text of the `TA_EVENT_PASTE` that `ta_decoder_event` returned last; empty before the
/// first. `out` gets the first of its bytes, as many as there is room for, and `needed` the number of
/// all.
///
/// Statuses: ok, empty handle.
#[unsafe(no_mangle)]
pub extern "C" fn ta_decoder_pasted(
    terminal: &mut TerminalHandle,
    alloc: Global,
    out: &mut [u8],
    needed: &mut usize,
) -> u32
    ensures unchanged { Calls terminal.old.stored.content result terminal.new.stored.content
        (λ a b. OnlyReads result a b) }
    ensures text { IfSome terminal.old.stored.content
        (λ a. IsCopiedOut out.old out.new needed.new a.incoming.pasted) }
    ensures unwritten { result ≢ 0 → (out.new ≡ out.old) × (needed.new ≡ needed.old) }
{
    on!(terminal, alloc, behind => copy_out(behind.incoming.pasted().as_bytes(), out, needed))
}

/// Tells that a query was sent whose reply is a size (`ESC [ 18 t`) or the cursor's position
/// (`ESC [ ? 6 n`). Its reply is then no part of a pasted text in which it is sent.
///
/// Statuses: ok, empty handle.
#[unsafe(no_mangle)]
pub extern "C" fn ta_decoder_asked(terminal: &mut TerminalHandle, alloc: Global) -> u32
    ensures { Calls terminal.old.stored.content result terminal.new.stored.content
        (λ a b. IsTold (asked a.incoming.decoder.expected) result a b) }
{
    on!(terminal, alloc, behind => {
        behind.incoming.asked();
        OK
    })
}

/// Sets whether the terminal reports a new size by itself (mode 2048). Such a report is then no part
/// of a pasted text in which it is sent.
///
/// Statuses: ok, empty handle.
#[unsafe(no_mangle)]
pub extern "C" fn ta_decoder_set_resizes(
    terminal: &mut TerminalHandle,
    alloc: Global,
    resizes: bool,
) -> u32
    ensures { Calls terminal.old.stored.content result terminal.new.stored.content
        (λ a b. IsTold (resizing resizes a.incoming.decoder.expected) result a b) }
{
    on!(terminal, alloc, behind => {
        behind.incoming.set_resizes(resizes);
        OK
    })
}

/// Sets whether the terminal is the Linux console, on which ESC and a tab are Tab with Shift.
///
/// Statuses: ok, empty handle.
#[unsafe(no_mangle)]
pub extern "C" fn ta_decoder_set_console(
    terminal: &mut TerminalHandle,
    alloc: Global,
    console: bool,
) -> u32
    ensures { Calls terminal.old.stored.content result terminal.new.stored.content
        (λ a b. IsTold (on_console console a.incoming.decoder.expected) result a b) }
{
    on!(terminal, alloc, behind => {
        behind.incoming.set_console(console);
        OK
    })
}
