// Written by tools/calls from crates/textarea_calls/calls.txt.
//! Removals that only pass their arguments.
ghost use Rattle.textarea_c.specs.Calls.{Calls, MakesAttempt};
ghost use Rattle.textarea_calls.specs.declared.call.Call.TheVariants as call;

use crate::calls::on;
use crate::handle::Handle;
use std::alloc::Global;
use textarea_c_data::status::flag;

/// Removes the atomic range that ends at the cursor or strictly contains it, or else the character
/// before the cursor, or at column 0 the line break. Returns whether it removed text.
///
/// Statuses: ok (true), false, out of memory, empty handle.
#[unsafe(no_mangle)]
pub extern "C" fn ta_delete_char(handle: &mut Handle, alloc: Global) -> u32
    ensures { Calls handle.old.stored.content result handle.new.stored.content
        (λ a b. MakesAttempt call.DeleteChar result a b) }
{
    on!(handle, alloc, editor => flag(editor.area.delete_char()))
}

/// Removes the atomic range that starts at the cursor or strictly contains it, or else the
/// character after the cursor, or at a line's end the line break. Returns whether it removed text.
///
/// Statuses: ok (true), false, out of memory, empty handle.
#[unsafe(no_mangle)]
pub extern "C" fn ta_delete_next_char(handle: &mut Handle, alloc: Global) -> u32
    ensures { Calls handle.old.stored.content result handle.new.stored.content
        (λ a b. MakesAttempt call.DeleteNextChar result a b) }
{
    on!(handle, alloc, editor => flag(editor.area.delete_next_char()))
}

/// Removes the line break before the cursor's line. Returns whether it removed text.
///
/// Statuses: ok (true), false, out of memory, empty handle.
#[unsafe(no_mangle)]
pub extern "C" fn ta_delete_newline(handle: &mut Handle, alloc: Global) -> u32
    ensures { Calls handle.old.stored.content result handle.new.stored.content
        (λ a b. MakesAttempt call.DeleteNewline result a b) }
{
    on!(handle, alloc, editor => flag(editor.area.delete_newline()))
}

/// Removes and yanks the next characters after the cursor, at most this number; each line break
/// counts as one. Returns whether it removed text.
///
/// Statuses: ok (true), false, out of memory, empty handle.
#[unsafe(no_mangle)]
pub extern "C" fn ta_delete_str(handle: &mut Handle, alloc: Global, count: usize) -> u32
    ensures { Calls handle.old.stored.content result handle.new.stored.content
        (λ a b. MakesAttempt (call.DeleteStr count) result a b) }
{
    on!(handle, alloc, editor => flag(editor.area.delete_str(count)))
}

/// Removes and yanks the text from the cursor to its line's end; at the line's end it does what
/// `ta_delete_next_char` does. Returns whether it removed text.
///
/// Statuses: ok (true), false, out of memory, empty handle.
#[unsafe(no_mangle)]
pub extern "C" fn ta_delete_line_by_end(handle: &mut Handle, alloc: Global) -> u32
    ensures { Calls handle.old.stored.content result handle.new.stored.content
        (λ a b. MakesAttempt call.DeleteLineByEnd result a b) }
{
    on!(handle, alloc, editor => flag(editor.area.delete_line_by_end()))
}

/// Removes and yanks the text from the line's start to the cursor; at the line's start it does what
/// `ta_delete_newline` does. Returns whether it removed text.
///
/// Statuses: ok (true), false, out of memory, empty handle.
#[unsafe(no_mangle)]
pub extern "C" fn ta_delete_line_by_head(handle: &mut Handle, alloc: Global) -> u32
    ensures { Calls handle.old.stored.content result handle.new.stored.content
        (λ a b. MakesAttempt call.DeleteLineByHead result a b) }
{
    on!(handle, alloc, editor => flag(editor.area.delete_line_by_head()))
}

/// Removes and yanks the whole text, as one edit, and returns whether there was any.
///
/// Statuses: ok (true), false, out of memory, empty handle.
#[unsafe(no_mangle)]
pub extern "C" fn ta_clear(handle: &mut Handle, alloc: Global) -> u32
    ensures { Calls handle.old.stored.content result handle.new.stored.content
        (λ a b. MakesAttempt call.Clear result a b) }
{
    on!(handle, alloc, editor => flag(editor.area.clear()))
}

/// Yanks and removes the selected text, returns whether there was any, and drops the selection.
///
/// Statuses: ok (true), false, out of memory, empty handle.
#[unsafe(no_mangle)]
pub extern "C" fn ta_cut(handle: &mut Handle, alloc: Global) -> u32
    ensures { Calls handle.old.stored.content result handle.new.stored.content
        (λ a b. MakesAttempt call.Cut result a b) }
{
    on!(handle, alloc, editor => flag(editor.area.cut()))
}
