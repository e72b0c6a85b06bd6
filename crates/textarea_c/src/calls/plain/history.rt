// Written by tools/calls from crates/textarea_calls/calls.txt.
//! Undo, redo, and options of the history.
ghost use Rattle.std.specs.Prelude.{◌≡◌, ◌≢◌, ◌+◌, ◌≤◌, IfSome, length};
ghost use Rattle.tui_textarea.specs.Calls.{result_of_call};
ghost use Rattle.tui_textarea.specs.Input.{flag_of};
ghost use Rattle.textarea_c.specs.Calls.{Answers, Calls, MakesAttempt, MakesSetting, OnlyReads, number_in};
ghost use Rattle.textarea_calls.specs.declared.call.Call.TheVariants as call;

use crate::calls::on;
use crate::handle::Handle;
use std::alloc::Global;
use textarea_c_data::status::{OK, flag, truth};

/// Undoes the newest edit, with all of its group, and returns whether there was one. The cursor is
/// then after the restored text, or where the removed text began, and nothing is selected.
///
/// Statuses: ok (true), false, out of memory, empty handle.
#[unsafe(no_mangle)]
pub extern "C" fn ta_undo(handle: &mut Handle, alloc: Global) -> u32
    ensures { Calls handle.old.stored.content result handle.new.stored.content
        (λ a b. MakesAttempt call.Undo result a b) }
{
    on!(handle, alloc, editor => flag(editor.area.undo()))
}

/// Redoes the edit that was undone last, with all of its group, and returns whether there was one.
/// The cursor is then where that edit left it, and nothing is selected.
///
/// Statuses: ok (true), false, out of memory, empty handle.
#[unsafe(no_mangle)]
pub extern "C" fn ta_redo(handle: &mut Handle, alloc: Global) -> u32
    ensures { Calls handle.old.stored.content result handle.new.stored.content
        (λ a b. MakesAttempt call.Redo result a b) }
{
    on!(handle, alloc, editor => flag(editor.area.redo()))
}

/// Forgets all edits, and remembers at most this number from now on, done and undone together.
///
/// Statuses: ok, empty handle.
#[unsafe(no_mangle)]
pub extern "C" fn ta_set_max_histories(handle: &mut Handle, alloc: Global, maximum: usize) -> u32
    ensures { Calls handle.old.stored.content result handle.new.stored.content
        (λ a b. MakesSetting (call.SetMaxHistories maximum) result a b) }
{
    on!(handle, alloc, editor => {
        editor.area.set_max_histories(maximum);
        OK
    })
}

/// Sets whether typed edits join into one edit, which is undone at once. A run of typing ends.
///
/// Statuses: ok, empty handle.
#[unsafe(no_mangle)]
pub extern "C" fn ta_set_undo_coalescing(handle: &mut Handle, alloc: Global, joins: bool) -> u32
    ensures { Calls handle.old.stored.content result handle.new.stored.content
        (λ a b. MakesSetting (call.SetUndoCoalescing joins) result a b) }
{
    on!(handle, alloc, editor => {
        editor.area.set_undo_coalescing(joins);
        OK
    })
}

/// Sets whether all edits of one call are one group, which is undone and redone at once. So an undo
/// of a text that was typed or pasted over a selection brings the selected text back.
///
/// Statuses: ok, empty handle.
#[unsafe(no_mangle)]
pub extern "C" fn ta_set_undo_grouping(handle: &mut Handle, alloc: Global, groups: bool) -> u32
    ensures { Calls handle.old.stored.content result handle.new.stored.content
        (λ a b. MakesSetting (call.SetUndoGrouping groups) result a b) }
{
    on!(handle, alloc, editor => {
        editor.area.set_undo_grouping(groups);
        OK
    })
}

/// Sets whether atomic ranges are remembered for undo and redo. Then an undo of an edit, or of a
/// group of edits, leaves exactly the ranges that were there before it, and a redo those after it:
/// a range that was removed is there again. Where ranges were set or cleared since the edit, or
/// this was off, they move with the text instead. Each edit takes a copy of the ranges. Off at
/// first.
///
/// Statuses: ok, empty handle.
#[unsafe(no_mangle)]
pub extern "C" fn ta_set_undo_ranges(handle: &mut Handle, alloc: Global, on: bool) -> u32
    ensures { Calls handle.old.stored.content result handle.new.stored.content
        (λ a b. MakesSetting (call.SetUndoRanges on) result a b) }
{
    on!(handle, alloc, editor => {
        editor.area.set_undo_ranges(on);
        OK
    })
}

/// Begins a group, if none is open, and ends a run of typing. The edits until `ta_end_undo_group`
/// are undone and redone together. If they are more than are remembered, all edits are forgotten.
///
/// Statuses: ok, empty handle.
#[unsafe(no_mangle)]
pub extern "C" fn ta_begin_undo_group(handle: &mut Handle, alloc: Global) -> u32
    ensures { Calls handle.old.stored.content result handle.new.stored.content
        (λ a b. MakesSetting call.BeginUndoGroup result a b) }
{
    on!(handle, alloc, editor => {
        editor.area.begin_undo_group();
        OK
    })
}

/// Ends the open group, if one is open, and a run of typing. An undo or a redo of something, new
/// lines and `ta_set_max_histories` close a group too.
///
/// Statuses: ok, empty handle.
#[unsafe(no_mangle)]
pub extern "C" fn ta_end_undo_group(handle: &mut Handle, alloc: Global) -> u32
    ensures { Calls handle.old.stored.content result handle.new.stored.content
        (λ a b. MakesSetting call.EndUndoGroup result a b) }
{
    on!(handle, alloc, editor => {
        editor.area.end_undo_group();
        OK
    })
}

/// Ends a run of typing: the next edit is recorded separately.
///
/// Statuses: ok, empty handle.
#[unsafe(no_mangle)]
pub extern "C" fn ta_end_run(handle: &mut Handle, alloc: Global) -> u32
    ensures { Calls handle.old.stored.content result handle.new.stored.content
        (λ a b. MakesSetting call.EndRun result a b) }
{
    on!(handle, alloc, editor => {
        editor.area.end_run();
        OK
    })
}

/// Returns the greatest number of edits that are remembered, done and undone together.
///
/// Statuses: ok, empty handle.
#[unsafe(no_mangle)]
pub extern "C" fn ta_max_histories(
    handle: &mut Handle,
    alloc: Global,
    max_histories: &mut usize,
) -> u32
    ensures unchanged { Calls handle.old.stored.content result handle.new.stored.content
        (λ a b. OnlyReads result a b) }
    ensures value { IfSome handle.old.stored.content
        (λ a. max_histories.new ≡ number_in (result_of_call a.area call.MaxHistories)) }
    ensures bound { IfSome handle.old.stored.content
        (λ a. length a.area.document.log.done + length a.area.document.log.undone
        ≤ max_histories.new) }
    ensures unwritten { result ≢ 0 → max_histories.new ≡ max_histories.old }
{
    on!(handle, alloc, editor => {
        *max_histories = editor.area.max_histories();
        OK
    })
}

/// Returns whether typed edits join into one.
///
/// Statuses: ok (true), false, empty handle.
#[unsafe(no_mangle)]
pub extern "C" fn ta_undo_coalescing(handle: &mut Handle, alloc: Global) -> u32
    ensures { Calls handle.old.stored.content result handle.new.stored.content
        (λ a b. Answers (flag_of (result_of_call a.area call.UndoCoalescing)) result a b) }
{
    on!(handle, alloc, editor => truth(editor.area.undo_coalescing()))
}

/// Returns whether all edits of one call are one group.
///
/// Statuses: ok (true), false, empty handle.
#[unsafe(no_mangle)]
pub extern "C" fn ta_undo_grouping(handle: &mut Handle, alloc: Global) -> u32
    ensures { Calls handle.old.stored.content result handle.new.stored.content
        (λ a b. Answers (flag_of (result_of_call a.area call.UndoGrouping)) result a b) }
{
    on!(handle, alloc, editor => truth(editor.area.undo_grouping()))
}

/// Returns whether atomic ranges are remembered for undo and redo.
///
/// Statuses: ok (true), false, empty handle.
#[unsafe(no_mangle)]
pub extern "C" fn ta_undo_ranges(handle: &mut Handle, alloc: Global) -> u32
    ensures { Calls handle.old.stored.content result handle.new.stored.content
        (λ a b. Answers (flag_of (result_of_call a.area call.UndoRanges)) result a b) }
{
    on!(handle, alloc, editor => truth(editor.area.undo_ranges()))
}
