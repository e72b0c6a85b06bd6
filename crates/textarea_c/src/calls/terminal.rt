//! A terminal: a decoder of the bytes that it sends, and a painter of frames for it.
ghost use Rattle.std.specs.Prelude.{◌≡◌, IfOk, None};
ghost use Rattle.textarea_c.specs.Made.{MakesBehind};
ghost use Rattle.textarea_c.specs.Terminals.{IsTerminalFor};

use crate::handle::TerminalHandle;
use crate::incoming::Incoming;
use crate::outgoing::Outgoing;
use crate::terminal::Terminal;
use std::alloc::{AllocError, Global};
use textarea_c_data::area::Area;
use textarea_c_data::status::{OK, OUT_OF_MEMORY};

// Returns a terminal, on the heap, that shows the cells of an area.
fn fresh_terminal(alloc: Global, area: Area) -> Result<Box<Terminal>, AllocError>
    ensures { IfOk result (λ terminal. IsTerminalFor area terminal.value) }
{
    let terminal = Terminal {
        incoming: Incoming::new(alloc),
        outgoing: Outgoing::new(alloc, area.read())?,
    };
    Ok(Box::new(alloc, terminal)?)
}

/// Makes a terminal behind the handle. It shows the cells of an area, of which the first is in its
/// first column and row; what it shows at first is unknown. A terminal that was behind the handle is
/// freed.
///
/// Statuses: ok, out of memory (the handle stays as it was).
#[unsafe(no_mangle)]
pub extern "C" fn ta_terminal_new(terminal: &mut TerminalHandle, alloc: Global, area: &Area) -> u32
    ensures { MakesBehind (IsTerminalFor area.now) terminal.old.stored.content result
        terminal.new.stored.content }
{
    match fresh_terminal(alloc, *area) {
        Ok(fresh) => {
            let _old = terminal.take(alloc);
            terminal.put(fresh);
            OK
        }
        Err(_) => OUT_OF_MEMORY,
    }
}

/// Frees the terminal behind the handle, which is empty then. An empty handle stays empty.
#[unsafe(no_mangle)]
pub extern "C" fn ta_terminal_free(terminal: &mut TerminalHandle, alloc: Global)
    ensures { terminal.new.stored.content ≡ None }
{
    let _terminal = terminal.take(alloc);
}
