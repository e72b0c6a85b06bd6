// The first printed lines of a session that didn't run out of memory.
ghost use Rattle.std.specs.Prelude.{◌≡◌, IfOk, string_bytes};
ghost use Rattle.textarea_script.specs.Session.{head, mode_name, stop_name};

use std::alloc::{AllocError, Global};
use textarea_modal::mode::Mode;
use textarea_modal::{ModalEnd, ModalStop};

// Three lines: the mode, the number of used inputs, and why the session ended.
pub fn head(alloc: Global, mode: Mode, end: ModalEnd) -> Result<String, AllocError>
    ensures { IfOk result (λ text. string_bytes text ≡ head mode end.taken end.stop) }
{
    format!(in alloc;
        "mode {}\ntaken {}\n{}\n",
        mode_name(mode),
        end.taken,
        stop_name(end.stop)
    )
}

fn mode_name(mode: Mode) -> &'static str
    ensures { result.now ≡ mode_name mode }
{
    match mode {
        Mode::Normal => "normal",
        Mode::Insert => "insert",
        Mode::Visual => "visual",
        Mode::Operator(_) => "operator",
    }
}

fn stop_name(stop: ModalStop) -> &'static str
    ensures { result.now ≡ stop_name stop }
{
    match stop {
        ModalStop::End => "end",
        ModalStop::Quit => "quit",
        ModalStop::Memory => "memory",
    }
}
