//! The pointers in handles, and what is behind them. Each handle has its own struct, since neither a
//! struct that crosses to C nor a field of one can be generic.
ghost use Rattle.std.specs.Prelude.{◌≡◌, Option, Some, None, IsSome};
ghost use Rattle.textarea_c.specs.declared.editor.Editor.{Editor};
ghost use Rattle.textarea_c.specs.contracts.editor.Editor.{the_row as editor};
ghost use Rattle.textarea_c.specs.declared.terminal.Terminal.{Terminal};
ghost use Rattle.textarea_c.specs.contracts.terminal.Terminal.{the_row as terminal};
ghost use Rattle.textarea_c.specs.Held.{owns_content};

use crate::editor::Editor;
use crate::loose::Loose;
use crate::terminal::Terminal;
use std::alloc::Global;
use std::marker::Model;

/// A pointer to an editor, or null. Dropping one forgets the editor, so a handle drops none that
/// has one.
#[repr(C)]
#[derive(Drop)]
pub struct Held {
    at: *mut u8,
    alloc: Global,
    pub ghost content: { Option Editor },
}

impl Model for Held {
    ghost also_owns = { λ h. owns_content h.alloc editor h.at h.content };
}

impl Held {
    pub(crate) fn of(l: Loose<Editor, Global>) -> Held
        ensures { result.content ≡ Some l.value }
    {
        let Loose { at, alloc } = l;
        Held {
            at: at as *mut u8,
            alloc,
        }
    }

    pub(crate) fn into_loose(self) -> Loose<Editor, Global>
        requires { IsSome self.content }
        ensures { self.content ≡ Some result.value }
    {
        let Held { at, alloc } = self;
        Loose {
            at: at as *mut Editor,
            alloc,
        }
    }

    pub(crate) fn empty(alloc: Global) -> Held
        ensures { result.content ≡ None }
    {
        Held {
            at: std::ptr::null_mut(),
            alloc,
        }
    }
}

/// A pointer to a terminal, or null. Dropping one forgets the terminal, so a handle drops none that
/// has one.
#[repr(C)]
#[derive(Drop)]
pub struct HeldTerminal {
    at: *mut u8,
    alloc: Global,
    pub ghost content: { Option Terminal },
}

impl Model for HeldTerminal {
    ghost also_owns = { λ h. owns_content h.alloc terminal h.at h.content };
}

impl HeldTerminal {
    pub(crate) fn of(l: Loose<Terminal, Global>) -> HeldTerminal
        ensures { result.content ≡ Some l.value }
    {
        let Loose { at, alloc } = l;
        HeldTerminal {
            at: at as *mut u8,
            alloc,
        }
    }

    pub(crate) fn into_loose(self) -> Loose<Terminal, Global>
        requires { IsSome self.content }
        ensures { self.content ≡ Some result.value }
    {
        let HeldTerminal { at, alloc } = self;
        Loose {
            at: at as *mut Terminal,
            alloc,
        }
    }

    pub(crate) fn empty(alloc: Global) -> HeldTerminal
        ensures { result.content ≡ None }
    {
        HeldTerminal {
            at: std::ptr::null_mut(),
            alloc,
        }
    }
}
