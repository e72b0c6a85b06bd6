// Written by tools/calls from crates/textarea_calls/calls.txt.
//! Options that are numbers or truth values.
ghost use Rattle.std.specs.Prelude.{◌≡◌, ◌≢◌, IfSome};
ghost use Rattle.textarea_view.specs.SurroundState.{AreBounds};
ghost use Rattle.tui_textarea.specs.Calls.{result_of_call};
ghost use Rattle.tui_textarea.specs.Input.{flag_of};
ghost use Rattle.textarea_c.specs.Calls.{Answers, Calls, MakesAttempt, MakesChange, MakesSetting, OnlyReads, number_in};
ghost use Rattle.textarea_calls.specs.declared.call.Call.TheVariants as call;

use crate::calls::on;
use crate::handle::Handle;
use std::alloc::Global;
use textarea_c_data::status::{OK, done, truth};

/// Sets the distance of tab stops, in columns; at 0 a tab inserts nothing.
///
/// Statuses: ok, out of memory, empty handle.
#[unsafe(no_mangle)]
pub extern "C" fn ta_set_tab_length(handle: &mut Handle, alloc: Global, columns: u8) -> u32
    ensures { Calls handle.old.stored.content result handle.new.stored.content
        (λ a b. MakesChange (call.SetTabLength columns) result a b) }
{
    on!(handle, alloc, editor => done(editor.area.set_tab_length(columns)))
}

/// Sets whether a tab is inserted as a tab character, and not as spaces.
///
/// Statuses: ok, empty handle.
#[unsafe(no_mangle)]
pub extern "C" fn ta_set_hard_tab_indent(handle: &mut Handle, alloc: Global, hard: bool) -> u32
    ensures { Calls handle.old.stored.content result handle.new.stored.content
        (λ a b. MakesSetting (call.SetHardTabIndent hard) result a b) }
{
    on!(handle, alloc, editor => {
        editor.area.set_hard_tab_indent(hard);
        OK
    })
}

/// Sets whether the text area is read only. Then no call but `ta_set_lines` changes the text: every
/// other call that edits, and an undo and a redo, changes nothing, neither what is yanked nor the
/// selection, and returns false, 0 or nothing. But `ta_cut` does what `ta_copy` does, and returns
/// whether a text was selected. Off at first.
///
/// Statuses: ok, empty handle.
#[unsafe(no_mangle)]
pub extern "C" fn ta_set_read_only(handle: &mut Handle, alloc: Global, read_only: bool) -> u32
    ensures { Calls handle.old.stored.content result handle.new.stored.content
        (λ a b. MakesSetting (call.SetReadOnly read_only) result a b) }
{
    on!(handle, alloc, editor => {
        editor.area.set_read_only(read_only);
        OK
    })
}

/// Sets whether the text is kept in a single line, and returns whether it could be set: a text of
/// several lines can't be. Then a line break that is typed, and `ta_duplicate_line`, do nothing,
/// breaks of a text that is inserted or pasted become spaces, and `ta_set_lines` of several lines
/// does nothing. Setting it forgets all edits. Off at first.
///
/// Statuses: ok (true), false, empty handle.
#[unsafe(no_mangle)]
pub extern "C" fn ta_set_single_line(handle: &mut Handle, alloc: Global, single_line: bool) -> u32
    ensures { Calls handle.old.stored.content result handle.new.stored.content
        (λ a b. MakesAttempt (call.SetSingleLine single_line) result a b) }
{
    on!(handle, alloc, editor => truth(editor.area.set_single_line(single_line)))
}

/// Hides the line numbers.
///
/// Statuses: ok, out of memory, empty handle.
#[unsafe(no_mangle)]
pub extern "C" fn ta_remove_line_number(handle: &mut Handle, alloc: Global) -> u32
    ensures { Calls handle.old.stored.content result handle.new.stored.content
        (λ a b. MakesChange call.RemoveLineNumber result a b) }
{
    on!(handle, alloc, editor => done(editor.area.remove_line_number()))
}

/// Sets the least height of the whole area, in screen rows; 0 counts as 1. The greatest height is
/// raised to it if it is less.
///
/// Statuses: ok, empty handle.
#[unsafe(no_mangle)]
pub extern "C" fn ta_set_min_rows(handle: &mut Handle, alloc: Global, rows: u16) -> u32
    ensures { Calls handle.old.stored.content result handle.new.stored.content
        (λ a b. MakesSetting (call.SetMinRows rows) result a b) }
{
    on!(handle, alloc, editor => {
        editor.area.set_min_rows(rows);
        OK
    })
}

/// Sets the greatest height of the whole area, in screen rows; 0 counts as 1, and less than the
/// least height as that height.
///
/// Statuses: ok, empty handle.
#[unsafe(no_mangle)]
pub extern "C" fn ta_set_max_rows(handle: &mut Handle, alloc: Global, rows: u16) -> u32
    ensures { Calls handle.old.stored.content result handle.new.stored.content
        (λ a b. MakesSetting (call.SetMaxRows rows) result a b) }
{
    on!(handle, alloc, editor => {
        editor.area.set_max_rows(rows);
        OK
    })
}

/// Returns whether the text area is read only.
///
/// Statuses: ok (true), false, empty handle.
#[unsafe(no_mangle)]
pub extern "C" fn ta_read_only(handle: &mut Handle, alloc: Global) -> u32
    ensures { Calls handle.old.stored.content result handle.new.stored.content
        (λ a b. Answers (flag_of (result_of_call a.area call.ReadOnly)) result a b) }
{
    on!(handle, alloc, editor => truth(editor.area.read_only()))
}

/// Returns whether the text is kept in a single line.
///
/// Statuses: ok (true), false, empty handle.
#[unsafe(no_mangle)]
pub extern "C" fn ta_single_line(handle: &mut Handle, alloc: Global) -> u32
    ensures { Calls handle.old.stored.content result handle.new.stored.content
        (λ a b. Answers (flag_of (result_of_call a.area call.SingleLine)) result a b) }
{
    on!(handle, alloc, editor => truth(editor.area.single_line()))
}

/// Returns the distance of tab stops, in columns.
///
/// Statuses: ok, empty handle.
#[unsafe(no_mangle)]
pub extern "C" fn ta_tab_length(handle: &mut Handle, alloc: Global, tab_length: &mut u8) -> u32
    ensures unchanged { Calls handle.old.stored.content result handle.new.stored.content
        (λ a b. OnlyReads result a b) }
    ensures value { IfSome handle.old.stored.content
        (λ a. tab_length.new ≡ number_in (result_of_call a.area call.TabLength)) }
    ensures unwritten { result ≢ 0 → tab_length.new ≡ tab_length.old }
{
    on!(handle, alloc, editor => {
        *tab_length = editor.area.tab_length();
        OK
    })
}

/// Returns whether a tab is inserted as a tab character.
///
/// Statuses: ok (true), false, empty handle.
#[unsafe(no_mangle)]
pub extern "C" fn ta_hard_tab_indent(handle: &mut Handle, alloc: Global) -> u32
    ensures { Calls handle.old.stored.content result handle.new.stored.content
        (λ a b. Answers (flag_of (result_of_call a.area call.HardTabIndent)) result a b) }
{
    on!(handle, alloc, editor => truth(editor.area.hard_tab_indent()))
}

/// Returns the least height of the whole area, in screen rows, from 1 to the greatest height.
///
/// Statuses: ok, empty handle.
#[unsafe(no_mangle)]
pub extern "C" fn ta_min_rows(handle: &mut Handle, alloc: Global, min_rows: &mut u16) -> u32
    ensures unchanged { Calls handle.old.stored.content result handle.new.stored.content
        (λ a b. OnlyReads result a b) }
    ensures value { IfSome handle.old.stored.content
        (λ a. min_rows.new ≡ number_in (result_of_call a.area call.MinRows)) }
    ensures bounds { IfSome handle.old.stored.content
        (λ a. AreBounds min_rows.new a.area.surround.max_rows) }
    ensures unwritten { result ≢ 0 → min_rows.new ≡ min_rows.old }
{
    on!(handle, alloc, editor => {
        *min_rows = editor.area.min_rows();
        OK
    })
}

/// Returns the greatest height of the whole area, in screen rows: at least the least height.
///
/// Statuses: ok, empty handle.
#[unsafe(no_mangle)]
pub extern "C" fn ta_max_rows(handle: &mut Handle, alloc: Global, max_rows: &mut u16) -> u32
    ensures unchanged { Calls handle.old.stored.content result handle.new.stored.content
        (λ a b. OnlyReads result a b) }
    ensures value { IfSome handle.old.stored.content
        (λ a. max_rows.new ≡ number_in (result_of_call a.area call.MaxRows)) }
    ensures bounds { IfSome handle.old.stored.content
        (λ a. AreBounds a.area.surround.min_rows max_rows.new) }
    ensures unwritten { result ≢ 0 → max_rows.new ≡ max_rows.old }
{
    on!(handle, alloc, editor => {
        *max_rows = editor.area.max_rows();
        OK
    })
}
