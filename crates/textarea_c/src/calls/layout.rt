//! Wrapping, line numbers, alignment and measuring.
ghost use Rattle.std.specs.Prelude.{◌≡◌, ◌≢◌, ◌≤◌, IfSome, MatchOption, Some, true};
ghost use Rattle.textarea_calls.specs.declared.call.Call.TheVariants as call;
ghost use Rattle.textarea_view.specs.SurroundState.{AreBounds};
ghost use Rattle.tui_textarea.specs.LayoutCalls.{number_style};
ghost use Rattle.tui_textarea.specs.Measure.{IsMeasured, reads_rows};
ghost use Rattle.textarea_c.specs.Calls.{Asks, Calls, Copies, MakesChangeBy, OnlyReads};
ghost use Rattle.textarea_c_data.specs.Measures.{measure_of_numbers};
ghost use Rattle.textarea_c_data.specs.Modes.{wrap_mode_of};
ghost use Rattle.textarea_c_data.specs.Numbers.{alignment_of};
ghost use Rattle.textarea_c_data.specs.Styles.{style_of_numbers};

use crate::calls::on;
use crate::handle::Handle;
use std::alloc::Global;
use textarea_c_data::measure::Measure;
use textarea_c_data::modes::{read_wrap_mode, wrap_mode_number};
use textarea_c_data::numbers::{alignment_number, read_alignment};
use textarea_c_data::status::{FALSE, INVALID_ARGUMENT, OK, OUT_OF_MEMORY, done};
use textarea_c_data::style::CStyle;

/// Sets how lines are wrapped, to one of `TA_WRAP_..`. Before the first `ta_render` no line is
/// wrapped.
///
/// Statuses: ok, out of memory, invalid argument (there is no such mode), empty handle.
#[unsafe(no_mangle)]
pub extern "C" fn ta_set_wrap_mode(handle: &mut Handle, alloc: Global, mode: u32) -> u32
    ensures { Calls handle.old.stored.content result handle.new.stored.content
        (λ a b. MakesChangeBy (wrap_mode_of mode) call.SetWrapMode result a b) }
{
    on!(handle, alloc, editor => match read_wrap_mode(mode) {
        Some(mode) => done(editor.area.set_wrap_mode(mode)),
        None => INVALID_ARGUMENT,
    })
}

/// Returns how lines are wrapped.
///
/// Statuses: ok, empty handle.
#[unsafe(no_mangle)]
pub extern "C" fn ta_wrap_mode(handle: &mut Handle, alloc: Global, mode: &mut u32) -> u32
    ensures unchanged { Calls handle.old.stored.content result handle.new.stored.content
        (λ a b. OnlyReads result a b) }
    ensures mode { IfSome handle.old.stored.content
        (λ a. wrap_mode_of mode.new ≡ Some a.area.document.layout.settings.mode) }
    ensures unwritten { result ≢ 0 → mode.new ≡ mode.old }
{
    on!(handle, alloc, editor => {
        *mode = wrap_mode_number(editor.area.wrap_mode());
        OK
    })
}

/// Shows line numbers, counted from 1, in this style.
///
/// Statuses: ok, out of memory, invalid argument (a colour's kind does not exist), empty handle.
#[unsafe(no_mangle)]
pub extern "C" fn ta_set_line_number_style(
    handle: &mut Handle,
    alloc: Global,
    style: &CStyle,
) -> u32
    ensures { Calls handle.old.stored.content result handle.new.stored.content
        (λ a b. MakesChangeBy (style_of_numbers style.now) call.SetLineNumberStyle result a b) }
{
    on!(handle, alloc, editor => match style.read() {
        Some(style) => done(editor.area.set_line_number_style(style)),
        None => INVALID_ARGUMENT,
    })
}

/// Returns the style of the line numbers.
///
/// Statuses: ok, false (they are hidden), empty handle.
#[unsafe(no_mangle)]
pub extern "C" fn ta_line_number_style(
    handle: &mut Handle,
    alloc: Global,
    style: &mut CStyle,
) -> u32
    ensures unchanged { Calls handle.old.stored.content result handle.new.stored.content
        (λ a b. Asks result a b) }
    ensures style { IfSome handle.old.stored.content (λ a. MatchOption (number_style a.area)
        (result ≡ 1) (λ s. (result ≡ 0) × (style_of_numbers style.new ≡ Some s))) }
    ensures unwritten { result ≢ 0 → style.new ≡ style.old }
{
    on!(handle, alloc, editor => match editor.area.line_number_style() {
        Some(found) => {
            *style = CStyle::of(found);
            OK
        }
        None => FALSE,
    })
}

/// Sets the alignment of visual rows in the inner area, to one of `TA_ALIGNMENT_..`. In the middle
/// and at the right it also hides the line numbers.
///
/// Statuses: ok, out of memory, invalid argument (there is no such alignment), empty handle.
#[unsafe(no_mangle)]
pub extern "C" fn ta_set_alignment(handle: &mut Handle, alloc: Global, alignment: u32) -> u32
    ensures { Calls handle.old.stored.content result handle.new.stored.content
        (λ a b. MakesChangeBy (alignment_of alignment) call.SetAlignment result a b) }
{
    on!(handle, alloc, editor => match read_alignment(alignment) {
        Some(alignment) => done(editor.area.set_alignment(alignment)),
        None => INVALID_ARGUMENT,
    })
}

/// Returns the alignment of visual rows in the inner area.
///
/// Statuses: ok, empty handle.
#[unsafe(no_mangle)]
pub extern "C" fn ta_alignment(handle: &mut Handle, alloc: Global, alignment: &mut u32) -> u32
    ensures unchanged { Calls handle.old.stored.content result handle.new.stored.content
        (λ a b. OnlyReads result a b) }
    ensures alignment { IfSome handle.old.stored.content
        (λ a. alignment_of alignment.new ≡ Some a.area.drawing.look.alignment) }
    ensures unwritten { result ≢ 0 → alignment.new ≡ alignment.old }
{
    on!(handle, alloc, editor => {
        *alignment = alignment_number(editor.area.alignment());
        OK
    })
}

/// Returns the height that an area of this width, in columns, needs for the block and all visual
/// rows of the text, or for the placeholder if that is shown. The text area does not change.
///
/// Statuses: ok, out of memory, empty handle.
#[unsafe(no_mangle)]
pub extern "C" fn ta_measure(
    handle: &mut Handle,
    alloc: Global,
    width: u16,
    measure: &mut Measure,
) -> u32
    ensures unchanged { Calls handle.old.stored.content result handle.new.stored.content
        (λ a b. Copies result a b) }
    ensures measured { result ≡ 0 → IfSome handle.old.stored.content
        (λ a. IsMeasured a.area width (measure_of_numbers measure.new)) }
    ensures bounds { result ≡ 0 → AreBounds measure.new.min_rows measure.new.max_rows }
    ensures within { result ≡ 0 → (measure.new.min_rows ≤ measure.new.preferred_rows)
        × (measure.new.preferred_rows ≤ measure.new.max_rows) }
    ensures no_memory { IfSome handle.old.stored.content
        (λ a. reads_rows a.area width ≡ true → result ≢ 2) }
    ensures unwritten { result ≢ 0 → measure.new ≡ measure.old }
{
    on!(handle, alloc, editor => match editor.area.measure(width) {
        Ok(found) => {
            *measure = Measure::of(found);
            OK
        }
        Err(_) => OUT_OF_MEMORY,
    })
}
