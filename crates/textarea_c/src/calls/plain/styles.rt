// Written by tools/calls from crates/textarea_calls/calls.txt.
//! The styles of a text area.
ghost use Rattle.std.specs.Prelude.{◌≡◌, ◌≢◌, IfSome};
ghost use Rattle.tui_textarea.specs.Calls.{result_of_call};
ghost use Rattle.textarea_c.specs.Calls.{Calls, MakesSettingBy, OnlyReads, style_in};
ghost use Rattle.textarea_c_data.specs.Styles.{style_of_numbers};
ghost use Rattle.textarea_calls.specs.declared.call.Call.TheVariants as call;

use crate::calls::on;
use crate::handle::Handle;
use std::alloc::Global;
use textarea_c_data::status::{INVALID_ARGUMENT, OK};
use textarea_c_data::style::CStyle;

/// Sets the style of each cell of the inner area, under all others; a placeholder has its own.
///
/// Statuses: ok, invalid argument (a colour's kind does not exist), empty handle.
#[unsafe(no_mangle)]
pub extern "C" fn ta_set_style(handle: &mut Handle, alloc: Global, style: &CStyle) -> u32
    ensures { Calls handle.old.stored.content result handle.new.stored.content
        (λ a b. MakesSettingBy (style_of_numbers style.now) call.SetStyle result a b) }
{
    on!(handle, alloc, editor => match style.read() {
        Some(style) => {
            editor.area.set_style(style);
            OK
        }
        None => INVALID_ARGUMENT,
    })
}

/// Sets the style of the cell at the cursor.
///
/// Statuses: ok, invalid argument (a colour's kind does not exist), empty handle.
#[unsafe(no_mangle)]
pub extern "C" fn ta_set_cursor_style(handle: &mut Handle, alloc: Global, style: &CStyle) -> u32
    ensures { Calls handle.old.stored.content result handle.new.stored.content
        (λ a b. MakesSettingBy (style_of_numbers style.now) call.SetCursorStyle result a b) }
{
    on!(handle, alloc, editor => match style.read() {
        Some(style) => {
            editor.area.set_cursor_style(style);
            OK
        }
        None => INVALID_ARGUMENT,
    })
}

/// Sets the style of the cursor's line, in all its visual rows, where no highlight is.
///
/// Statuses: ok, invalid argument (a colour's kind does not exist), empty handle.
#[unsafe(no_mangle)]
pub extern "C" fn ta_set_cursor_line_style(
    handle: &mut Handle,
    alloc: Global,
    style: &CStyle,
) -> u32
    ensures { Calls handle.old.stored.content result handle.new.stored.content
        (λ a b. MakesSettingBy (style_of_numbers style.now) call.SetCursorLineStyle result a b) }
{
    on!(handle, alloc, editor => match style.read() {
        Some(style) => {
            editor.area.set_cursor_line_style(style);
            OK
        }
        None => INVALID_ARGUMENT,
    })
}

/// Sets the style of the line number of the cursor's line, over the style of all line numbers. The
/// blanks before the line's other visual rows aren't in it.
///
/// Statuses: ok, invalid argument (a colour's kind does not exist), empty handle.
#[unsafe(no_mangle)]
pub extern "C" fn ta_set_cursor_line_number_style(
    handle: &mut Handle,
    alloc: Global,
    style: &CStyle,
) -> u32
    ensures { Calls handle.old.stored.content result handle.new.stored.content
        (λ a b. MakesSettingBy (style_of_numbers style.now) call.SetCursorLineNumberStyle result a b) }
{
    on!(handle, alloc, editor => match style.read() {
        Some(style) => {
            editor.area.set_cursor_line_number_style(style);
            OK
        }
        None => INVALID_ARGUMENT,
    })
}

/// Sets the style of selected text.
///
/// Statuses: ok, invalid argument (a colour's kind does not exist), empty handle.
#[unsafe(no_mangle)]
pub extern "C" fn ta_set_selection_style(handle: &mut Handle, alloc: Global, style: &CStyle) -> u32
    ensures { Calls handle.old.stored.content result handle.new.stored.content
        (λ a b. MakesSettingBy (style_of_numbers style.now) call.SetSelectionStyle result a b) }
{
    on!(handle, alloc, editor => match style.read() {
        Some(style) => {
            editor.area.set_selection_style(style);
            OK
        }
        None => INVALID_ARGUMENT,
    })
}

/// Sets the style of the search pattern's matches.
///
/// Statuses: ok, invalid argument (a colour's kind does not exist), empty handle.
#[unsafe(no_mangle)]
pub extern "C" fn ta_set_search_style(handle: &mut Handle, alloc: Global, style: &CStyle) -> u32
    ensures { Calls handle.old.stored.content result handle.new.stored.content
        (λ a b. MakesSettingBy (style_of_numbers style.now) call.SetSearchStyle result a b) }
{
    on!(handle, alloc, editor => match style.read() {
        Some(style) => {
            editor.area.set_search_style(style);
            OK
        }
        None => INVALID_ARGUMENT,
    })
}

/// Returns the style of each cell of the inner area, under all others.
///
/// Statuses: ok, empty handle.
#[unsafe(no_mangle)]
pub extern "C" fn ta_style(handle: &mut Handle, alloc: Global, style: &mut CStyle) -> u32
    ensures unchanged { Calls handle.old.stored.content result handle.new.stored.content
        (λ a b. OnlyReads result a b) }
    ensures value { IfSome handle.old.stored.content
        (λ a. style_of_numbers style.new ≡ style_in (result_of_call a.area call.Style)) }
    ensures unwritten { result ≢ 0 → style.new ≡ style.old }
{
    on!(handle, alloc, editor => {
        *style = CStyle::of(editor.area.style());
        OK
    })
}

/// Returns the style of the cell at the cursor.
///
/// Statuses: ok, empty handle.
#[unsafe(no_mangle)]
pub extern "C" fn ta_cursor_style(handle: &mut Handle, alloc: Global, style: &mut CStyle) -> u32
    ensures unchanged { Calls handle.old.stored.content result handle.new.stored.content
        (λ a b. OnlyReads result a b) }
    ensures value { IfSome handle.old.stored.content
        (λ a. style_of_numbers style.new ≡ style_in (result_of_call a.area call.CursorStyle)) }
    ensures unwritten { result ≢ 0 → style.new ≡ style.old }
{
    on!(handle, alloc, editor => {
        *style = CStyle::of(editor.area.cursor_style());
        OK
    })
}

/// Returns the style of the cursor's line, where no highlight is.
///
/// Statuses: ok, empty handle.
#[unsafe(no_mangle)]
pub extern "C" fn ta_cursor_line_style(
    handle: &mut Handle,
    alloc: Global,
    style: &mut CStyle,
) -> u32
    ensures unchanged { Calls handle.old.stored.content result handle.new.stored.content
        (λ a b. OnlyReads result a b) }
    ensures value { IfSome handle.old.stored.content
        (λ a. style_of_numbers style.new ≡ style_in (result_of_call a.area call.CursorLineStyle)) }
    ensures unwritten { result ≢ 0 → style.new ≡ style.old }
{
    on!(handle, alloc, editor => {
        *style = CStyle::of(editor.area.cursor_line_style());
        OK
    })
}

/// Returns the style of the line number of the cursor's line, over the style of all line numbers.
///
/// Statuses: ok, empty handle.
#[unsafe(no_mangle)]
pub extern "C" fn ta_cursor_line_number_style(
    handle: &mut Handle,
    alloc: Global,
    style: &mut CStyle,
) -> u32
    ensures unchanged { Calls handle.old.stored.content result handle.new.stored.content
        (λ a b. OnlyReads result a b) }
    ensures value { IfSome handle.old.stored.content
        (λ a. style_of_numbers style.new ≡ style_in (result_of_call a.area call.CursorLineNumberStyle)) }
    ensures unwritten { result ≢ 0 → style.new ≡ style.old }
{
    on!(handle, alloc, editor => {
        *style = CStyle::of(editor.area.cursor_line_number_style());
        OK
    })
}

/// Returns the style of selected text.
///
/// Statuses: ok, empty handle.
#[unsafe(no_mangle)]
pub extern "C" fn ta_selection_style(handle: &mut Handle, alloc: Global, style: &mut CStyle) -> u32
    ensures unchanged { Calls handle.old.stored.content result handle.new.stored.content
        (λ a b. OnlyReads result a b) }
    ensures value { IfSome handle.old.stored.content
        (λ a. style_of_numbers style.new ≡ style_in (result_of_call a.area call.SelectionStyle)) }
    ensures unwritten { result ≢ 0 → style.new ≡ style.old }
{
    on!(handle, alloc, editor => {
        *style = CStyle::of(editor.area.selection_style());
        OK
    })
}

/// Returns the style of the search pattern's matches.
///
/// Statuses: ok, empty handle.
#[unsafe(no_mangle)]
pub extern "C" fn ta_search_style(handle: &mut Handle, alloc: Global, style: &mut CStyle) -> u32
    ensures unchanged { Calls handle.old.stored.content result handle.new.stored.content
        (λ a b. OnlyReads result a b) }
    ensures value { IfSome handle.old.stored.content
        (λ a. style_of_numbers style.new ≡ style_in (result_of_call a.area call.SearchStyle)) }
    ensures unwritten { result ≢ 0 → style.new ≡ style.old }
{
    on!(handle, alloc, editor => {
        *style = CStyle::of(editor.area.search_style());
        OK
    })
}
