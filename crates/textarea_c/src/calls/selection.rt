//! The selection, copying, and the yanked text.
ghost use Rattle.std.specs.Prelude.{◌≡◌, ◌≢◌, IfSome, MatchOption, is_some};
ghost use Rattle.std.specs.Str.{chars};
ghost use Rattle.textarea_document.specs.Selection.{selection};
ghost use Rattle.textarea_text.specs.Fragment.{fragment_symbols, fragment_text};
ghost use Rattle.textarea_text.specs.Place.{IsPlace};
ghost use Rattle.textarea_c.specs.Calls.{Answers, Asks, Calls, ChangesBy, Copies};
ghost use Rattle.textarea_c_data.specs.Lines.{AreCharactersOut};
ghost use Rattle.textarea_c_data.specs.Texts.{text_in};

use crate::calls::on;
use crate::handle::Handle;
use std::alloc::Global;
use textarea_c_data::slices::{copy_made, text_of};
use textarea_c_data::status::{FALSE, INVALID_ARGUMENT, OK, done, truth};

/// Returns whether a selection is open, even an empty one.
///
/// Statuses: ok (it is), false, empty handle.
#[unsafe(no_mangle)]
pub extern "C" fn ta_is_selecting(handle: &mut Handle, alloc: Global) -> u32
    ensures { Calls handle.old.stored.content result handle.new.stored.content
        (λ a b. Answers (is_some a.area.document.anchor) result a b) }
{
    on!(handle, alloc, editor => truth(editor.area.is_selecting()))
}

/// Returns the two ends of the selection, the first one first, even if it is empty.
///
/// Statuses: ok, false (no selection is open), empty handle.
#[unsafe(no_mangle)]
pub extern "C" fn ta_selection_range(
    handle: &mut Handle,
    alloc: Global,
    start_row: &mut usize,
    start_column: &mut usize,
    end_row: &mut usize,
    end_column: &mut usize,
) -> u32
    ensures unchanged { Calls handle.old.stored.content result handle.new.stored.content
        (λ a b. Asks result a b) }
    ensures ends { IfSome handle.old.stored.content
        (λ a. MatchOption (selection a.area.document) (result ≡ 1)
        (λ ends. (result ≡ 0) × ((start_row.new, start_column.new) ≡ ends.0)
        × ((end_row.new, end_column.new) ≡ ends.1))) }
    ensures places { result ≡ 0 → IfSome handle.old.stored.content
        (λ a. IsPlace a.area.document.text (start_row.new, start_column.new)
        × IsPlace a.area.document.text (end_row.new, end_column.new)) }
    ensures unwritten { result ≢ 0 → (start_row.new ≡ start_row.old)
        × (start_column.new ≡ start_column.old) × (end_row.new ≡ end_row.old)
        × (end_column.new ≡ end_column.old) }
{
    on!(handle, alloc, editor => match editor.area.selection_range() {
        Some((start, end)) => {
            (*start_row, *start_column) = start;
            (*end_row, *end_column) = end;
            OK
        }
        None => FALSE,
    })
}

/// Returns the text that was yanked last, with a line feed for each line break; empty at first.
/// `out` gets the first of its bytes, as many as there is room for, and `needed` the number of all.
///
/// Statuses: ok, out of memory, empty handle.
#[unsafe(no_mangle)]
pub extern "C" fn ta_yank_text(
    handle: &mut Handle,
    alloc: Global,
    out: &mut [u8],
    needed: &mut usize,
) -> u32
    ensures unchanged { Calls handle.old.stored.content result handle.new.stored.content
        (λ a b. Copies result a b) }
    ensures text { result ≡ 0 → IfSome handle.old.stored.content
        (λ a. AreCharactersOut (fragment_text a.area.yank) out.old out.new needed.new) }
    ensures unwritten { result ≢ 0 → (out.new ≡ out.old) × (needed.new ≡ needed.old) }
{
    on!(handle, alloc, editor => copy_made(editor.area.yank_text(), out, needed))
}

/// Sets the text that `ta_paste` inserts. Each line feed becomes a line break; a carriage return
/// directly before it is dropped.
///
/// Statuses: ok, out of memory, invalid argument (the text is not UTF-8), empty handle.
#[unsafe(no_mangle)]
pub extern "C" fn ta_set_yank_text(handle: &mut Handle, alloc: Global, text: &[u8]) -> u32
    ensures { Calls handle.old.stored.content result handle.new.stored.content
        (λ a b. ChangesBy (text_in text.now)
        (λ t. record a.area { yank = fragment_symbols (chars t) }) result a b) }
{
    on!(handle, alloc, editor => match text_of(text) {
        Some(text) => done(editor.area.set_yank_text(text)),
        None => INVALID_ARGUMENT,
    })
}
