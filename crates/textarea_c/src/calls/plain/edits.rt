// Written by tools/calls from crates/textarea_calls/calls.txt.
//! Insertions that only pass their arguments.
ghost use Rattle.textarea_c.specs.Calls.{Calls, MakesAttempt, MakesChange};
ghost use Rattle.textarea_calls.specs.declared.call.Call.TheVariants as call;

use crate::calls::on;
use crate::handle::Handle;
use std::alloc::Global;
use textarea_c_data::status::{done, flag};

/// Inserts the cursor's line once more below it, or the lines of the selection below the last of
/// them, as one edit. The selection's lines are those of which it holds a character or the break.
/// Cursor and selection move down into the copy, and keep their columns.
///
/// Statuses: ok, out of memory, empty handle.
#[unsafe(no_mangle)]
pub extern "C" fn ta_duplicate_line(handle: &mut Handle, alloc: Global) -> u32
    ensures { Calls handle.old.stored.content result handle.new.stored.content
        (λ a b. MakesChange call.DuplicateLine result a b) }
{
    on!(handle, alloc, editor => done(editor.area.duplicate_line()))
}

/// Moves the cursor's line, or the lines of the selection, up by one row. The line above is then
/// below them; the result is whether there was one. It is one group of edits. Cursor, selection and
/// the atomic ranges of these lines move along; those of the line above are removed with it.
///
/// Statuses: ok (true), false, out of memory, empty handle.
#[unsafe(no_mangle)]
pub extern "C" fn ta_move_lines_up(handle: &mut Handle, alloc: Global) -> u32
    ensures { Calls handle.old.stored.content result handle.new.stored.content
        (λ a b. MakesAttempt call.MoveLinesUp result a b) }
{
    on!(handle, alloc, editor => flag(editor.area.move_lines_up()))
}

/// Moves these lines down by one row. The line below is then above them; the result is whether
/// there was one. All else is as for `ta_move_lines_up`.
///
/// Statuses: ok (true), false, out of memory, empty handle.
#[unsafe(no_mangle)]
pub extern "C" fn ta_move_lines_down(handle: &mut Handle, alloc: Global) -> u32
    ensures { Calls handle.old.stored.content result handle.new.stored.content
        (λ a b. MakesAttempt call.MoveLinesDown result a b) }
{
    on!(handle, alloc, editor => flag(editor.area.move_lines_down()))
}
