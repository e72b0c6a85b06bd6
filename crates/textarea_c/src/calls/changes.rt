//! What changed in the text.
ghost use Rattle.std.specs.Prelude.{◌≡◌, ◌≢◌, Some, IfSome, MatchOption, length, map, slice_get, None};
ghost use Rattle.textarea_calls.specs.declared.call.Call.TheVariants as call;
ghost use Rattle.textarea_document.specs.Changes.{change_view};
ghost use Rattle.textarea_c.specs.Calls.{Asks, Calls, MakesSetting, MakesSettingBy};
ghost use Rattle.textarea_c.specs.Changes.{IsChangeOut, TakesChanges, changed_line};
ghost use Rattle.textarea_c_data.specs.Lines.{IsLineOut};
ghost use Rattle.textarea_c_data.specs.Numbers.{change_unit_of};

use crate::calls::on;
use crate::handle::Handle;
use std::alloc::Global;
use textarea_c_data::lines::copy_line;
use textarea_c_data::numbers::read_change_unit;
use textarea_c_data::status::{FALSE, INVALID_ARGUMENT, OK};

/// Begins a log of what changes in the text, with columns in the unit: `TA_UNIT_CHARACTERS`,
/// `TA_UNIT_BYTES` of UTF-8, or `TA_UNIT_UTF16`. The changes in the log before are forgotten.
///
/// Statuses: ok, invalid argument (there is no such unit), empty handle.
#[unsafe(no_mangle)]
pub extern "C" fn ta_set_change_log(handle: &mut Handle, alloc: Global, unit: u32) -> u32
    ensures { Calls handle.old.stored.content result handle.new.stored.content
        (λ a b. MakesSettingBy (change_unit_of unit) (λ unit. call.SetChangeLog (Some unit)) result
        a b) }
{
    on!(handle, alloc, editor => match read_change_unit(unit) {
        Some(unit) => {
            editor.area.set_change_log(Some(unit));
            OK
        }
        None => INVALID_ARGUMENT,
    })
}

/// Ends the log of what changes in the text, and forgets its changes.
///
/// Statuses: ok, empty handle.
#[unsafe(no_mangle)]
pub extern "C" fn ta_remove_change_log(handle: &mut Handle, alloc: Global) -> u32
    ensures { Calls handle.old.stored.content result handle.new.stored.content
        (λ a b. MakesSetting (call.SetChangeLog None) result a b) }
{
    on!(handle, alloc, editor => {
        editor.area.set_change_log(None);
        OK
    })
}

/// Takes the changes out of the log; `count` gets their number. `ta_change` and `ta_change_line`
/// return them, in place of those that were taken before.
///
/// Statuses: ok, empty handle.
#[unsafe(no_mangle)]
pub extern "C" fn ta_take_changes(handle: &mut Handle, alloc: Global, count: &mut usize) -> u32
    ensures taken { Calls handle.old.stored.content result handle.new.stored.content
        (λ a b. TakesChanges result a b) }
    ensures count { IfSome handle.old.stored.content
        (λ a. count.new ≡ length a.area.document.changes.made) }
    ensures unwritten { result ≢ 0 → count.new ≡ count.old }
{
    on!(handle, alloc, editor => {
        editor.changes = editor.area.take_changes();
        *count = editor.changes.len();
        OK
    })
}

/// Returns one of the changes that were taken last, by its index, from 0 in the order in which they
/// were made: its start, the end of what it removed, both in the text just before it, and the number
/// of the inserted lines, at least one.
///
/// Statuses: ok, false (there is no such change), empty handle.
#[unsafe(no_mangle)]
pub extern "C" fn ta_change(
    handle: &mut Handle,
    alloc: Global,
    index: usize,
    start_row: &mut usize,
    start_column: &mut usize,
    end_row: &mut usize,
    end_column: &mut usize,
    lines: &mut usize,
) -> u32
    ensures unchanged { Calls handle.old.stored.content result handle.new.stored.content
        (λ a b. Asks result a b) }
    ensures change { IfSome handle.old.stored.content
        (λ a. MatchOption (slice_get (map change_view a.changes.items) index) (result ≡ 1)
        (λ change. (result ≡ 0) × IsChangeOut change (start_row.new, start_column.new)
        (end_row.new, end_column.new) lines.new)) }
    ensures unwritten { result ≢ 0 → (start_row.new ≡ start_row.old)
        × (start_column.new ≡ start_column.old) × (end_row.new ≡ end_row.old)
        × (end_column.new ≡ end_column.old) × (lines.new ≡ lines.old) }
{
    on!(handle, alloc, editor => match editor.changes.get(index) {
        Some(change) => {
            (*start_row, *start_column) = change.start;
            (*end_row, *end_column) = change.end;
            *lines = change.lines.len();
            OK
        }
        None => FALSE,
    })
}

/// Returns one of the inserted lines of a change that was taken last, by its row in it, from 0. `out`
/// gets the first of its bytes, as many as there is room for, and `needed` the number of all. A line
/// feed in it is a character of the line.
///
/// Statuses: ok, false (there is no such change, or no such line), empty handle.
#[unsafe(no_mangle)]
pub extern "C" fn ta_change_line(
    handle: &mut Handle,
    alloc: Global,
    index: usize,
    row: usize,
    out: &mut [u8],
    needed: &mut usize,
) -> u32
    ensures unchanged { Calls handle.old.stored.content result handle.new.stored.content
        (λ a b. Asks result a b) }
    ensures line { IfSome handle.old.stored.content
        (λ a. IsLineOut (changed_line (map change_view a.changes.items) index row) result out.old
        out.new needed.new) }
    ensures unwritten { result ≢ 0 → (out.new ≡ out.old) × (needed.new ≡ needed.old) }
{
    on!(handle, alloc, editor => match editor.changes.get(index) {
        Some(change) => copy_line(change.lines.as_slice(), row, out, needed),
        None => FALSE,
    })
}
