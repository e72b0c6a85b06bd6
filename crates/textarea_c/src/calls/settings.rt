//! Options of tabs, the greatest number of characters, and what the cursor goes over.
ghost use Rattle.std.specs.Prelude.{◌≡◌, ◌≢◌, IfSome, MatchOption, None, Some};
ghost use Rattle.textarea_calls.specs.declared.call.Call.TheVariants as call;
ghost use Rattle.tui_textarea.specs.LayoutCalls.{indent_of};
ghost use Rattle.textarea_c.specs.Calls.{Asks, Calls, MakesSetting, MakesSettingBy, OnlyReads};
ghost use Rattle.textarea_c_data.specs.Modes.{cursor_unit_of};
ghost use Rattle.textarea_c_data.specs.Copied.{IsCopiedOut};

use crate::calls::on;
use crate::handle::Handle;
use std::alloc::Global;
use textarea_c_data::modes::{cursor_unit_number, read_cursor_unit};
use textarea_c_data::slices::copy_out;
use textarea_c_data::status::{FALSE, INVALID_ARGUMENT, OK};

/// Returns a tab at a line's start: a tab character, or a space for each column of its length.
/// `out` gets the first of its bytes, as many as there is room for, and `needed` the number of all.
///
/// Statuses: ok, empty handle.
#[unsafe(no_mangle)]
pub extern "C" fn ta_indent(
    handle: &mut Handle,
    alloc: Global,
    out: &mut [u8],
    needed: &mut usize,
) -> u32
    ensures unchanged { Calls handle.old.stored.content result handle.new.stored.content
        (λ a b. OnlyReads result a b) }
    ensures text { IfSome handle.old.stored.content
        (λ a. IsCopiedOut out.old out.new needed.new (indent_of a.area)) }
    ensures unwritten { result ≢ 0 → (out.new ≡ out.old) × (needed.new ≡ needed.old) }
{
    on!(handle, alloc, editor => copy_out(editor.area.indent().as_bytes(), out, needed))
}

/// Sets the greatest number of characters of the text, a line break counted as one. Then what is
/// typed does nothing if it doesn't fit, and an inserted text is cut at the end of the last of its
/// grapheme clusters that fits. `ta_duplicate_line`, `ta_indent_lines` and `ta_replace_all` do
/// nothing unless all that they insert fits. Undo, redo and `ta_set_lines` are never cut. There is
/// no such number at first, and after `ta_clear_max_chars`.
///
/// Statuses: ok, empty handle.
#[unsafe(no_mangle)]
pub extern "C" fn ta_set_max_chars(handle: &mut Handle, alloc: Global, maximum: usize) -> u32
    ensures { Calls handle.old.stored.content result handle.new.stored.content
        (λ a b. MakesSetting (call.SetMaxChars (Some maximum)) result a b) }
{
    on!(handle, alloc, editor => {
        editor.area.set_max_chars(Some(maximum));
        OK
    })
}

/// Lets the text have any number of characters, as at first.
///
/// Statuses: ok, empty handle.
#[unsafe(no_mangle)]
pub extern "C" fn ta_clear_max_chars(handle: &mut Handle, alloc: Global) -> u32
    ensures { Calls handle.old.stored.content result handle.new.stored.content
        (λ a b. MakesSetting (call.SetMaxChars None) result a b) }
{
    on!(handle, alloc, editor => {
        editor.area.set_max_chars(None);
        OK
    })
}

/// Returns the greatest number of characters of the text.
///
/// Statuses: ok, false (there is none: any number fits), empty handle.
#[unsafe(no_mangle)]
pub extern "C" fn ta_max_chars(handle: &mut Handle, alloc: Global, maximum: &mut usize) -> u32
    ensures unchanged { Calls handle.old.stored.content result handle.new.stored.content
        (λ a b. Asks result a b) }
    ensures value { IfSome handle.old.stored.content (λ a. MatchOption a.area.settings.max_chars
        (result ≡ 1) (λ found. (result ≡ 0) × (maximum.new ≡ found))) }
    ensures unwritten { result ≢ 0 → maximum.new ≡ maximum.old }
{
    on!(handle, alloc, editor => match editor.area.max_chars() {
        Some(found) => {
            *maximum = found;
            OK
        }
        None => FALSE,
    })
}

/// Sets what the cursor goes over as a whole, beside atomic ranges: a character
/// (`TA_CURSOR_UNIT_CHARACTER`, as at first) or an extended grapheme cluster
/// (`TA_CURSOR_UNIT_CLUSTER`), such as a letter with its accents. With clusters no call leaves the
/// cursor or the selection's beginning inside one, this call included. What is removed is whole
/// clusters of the text before it, but for `ta_delete_str`; what stays may form others, as flags do.
/// A match at an end of which no cluster begins or ends isn't found, counted or replaced.
///
/// Statuses: ok, invalid argument (there is no such unit), empty handle.
#[unsafe(no_mangle)]
pub extern "C" fn ta_set_cursor_unit(handle: &mut Handle, alloc: Global, unit: u32) -> u32
    ensures { Calls handle.old.stored.content result handle.new.stored.content
        (λ a b. MakesSettingBy (cursor_unit_of unit) call.SetCursorUnit result a b) }
{
    on!(handle, alloc, editor => match read_cursor_unit(unit) {
        Some(unit) => {
            editor.area.set_cursor_unit(unit);
            OK
        }
        None => INVALID_ARGUMENT,
    })
}

/// Returns what the cursor goes over as a whole.
///
/// Statuses: ok, empty handle.
#[unsafe(no_mangle)]
pub extern "C" fn ta_cursor_unit(handle: &mut Handle, alloc: Global, unit: &mut u32) -> u32
    ensures unchanged { Calls handle.old.stored.content result handle.new.stored.content
        (λ a b. OnlyReads result a b) }
    ensures unit { IfSome handle.old.stored.content
        (λ a. cursor_unit_of unit.new ≡ Some a.area.settings.cursor_unit) }
    ensures unwritten { result ≢ 0 → unit.new ≡ unit.old }
{
    on!(handle, alloc, editor => {
        *unit = cursor_unit_number(editor.area.cursor_unit());
        OK
    })
}
