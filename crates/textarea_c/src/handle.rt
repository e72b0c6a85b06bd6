//! The handle of a text area.
ghost use Rattle.std.specs.Prelude.{◌≡◌, Some, None, is_some, option_map};
ghost use Rattle.std.specs.Box.{box_value};

use crate::editor::Editor;
use crate::loose::Loose;
use crate::stored::{Held, HeldTerminal};
use crate::terminal::Terminal;
use std::alloc::Global;
use std::mem;

/// What C has of a text area, with its screen. C makes one with all bytes zero, which is empty, and
/// passes it by its address to `ta_new`, then to other calls, and to `ta_free` at the end. C reads
/// and writes none of its fields, and uses no copy of it beside it. It may move between the calls,
/// but only one call has it at a time, and all calls are on one thread.
#[repr(C)]
#[derive(Drop)]
pub struct Handle {
    pub stored: Held,
    pub full: bool,
    ghost in_step: { full ≡ is_some stored.content },
}

impl Handle {
    /// Takes the editor behind the handle, which is empty then.
    pub(crate) fn take(&mut self, alloc: Global) -> Option<Box<Editor>>
        ensures taken { option_map box_value result ≡ self.old.stored.content }
        ensures empty { self.new.stored.content ≡ None }
    {
        if !self.full {
            return None;
        }
        let stored = mem::replace(&mut self.stored, Held::empty(alloc));
        self.full = false;
        Some(stored.into_loose().into_box())
    }

    /// Puts an editor behind the handle, which is empty, so that no editor is lost.
    pub(crate) fn put(&mut self, editor: Box<Editor>)
        requires { self.old.stored.content ≡ None }
        ensures { self.new.stored.content ≡ Some editor.value }
    {
        self.stored = Held::of(Loose::of(editor));
        self.full = true;
    }
}

/// What C has of a terminal: a decoder of the bytes that it sends, and a painter of frames for it. C
/// makes one with all bytes zero, which is empty, and passes it by its address to `ta_terminal_new`,
/// then to other calls, and to `ta_terminal_free` at the end. The rules are those of a text area's.
#[repr(C)]
#[derive(Drop)]
pub struct TerminalHandle {
    pub stored: HeldTerminal,
    pub full: bool,
    ghost in_step: { full ≡ is_some stored.content },
}

impl TerminalHandle {
    /// Takes the terminal behind the handle, which is empty then.
    pub(crate) fn take(&mut self, alloc: Global) -> Option<Box<Terminal>>
        ensures taken { option_map box_value result ≡ self.old.stored.content }
        ensures empty { self.new.stored.content ≡ None }
    {
        if !self.full {
            return None;
        }
        let stored = mem::replace(&mut self.stored, HeldTerminal::empty(alloc));
        self.full = false;
        Some(stored.into_loose().into_box())
    }

    /// Puts a terminal behind the handle, which is empty, so that no terminal is lost.
    pub(crate) fn put(&mut self, terminal: Box<Terminal>)
        requires { self.old.stored.content ≡ None }
        ensures { self.new.stored.content ≡ Some terminal.value }
    {
        self.stored = HeldTerminal::of(Loose::of(terminal));
        self.full = true;
    }
}
