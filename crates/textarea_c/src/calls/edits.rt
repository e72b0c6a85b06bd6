//! Insertions. Each first removes the selected text, as its own edit, and then moves a cursor that
//! is strictly inside an atomic range to the range's end.
ghost use Rattle.std.specs.Prelude.{◌&&◌, not, if◌then◌else◌};
ghost use Rattle.std.specs.Str.{chars};
ghost use Rattle.textarea_document.specs.Edits.{has_symbols};
ghost use Rattle.textarea_text.specs.Fragment.{fragment_symbols, pasted_symbols};
ghost use Rattle.tui_textarea.specs.Edits.{inserts_tab, inserts_text, newline_inserted, str_inserted, tab_inserted};
ghost use Rattle.tui_textarea.specs.Guards.{admitted_over_selection, bars_break, bars_tab, is_editable, unless_read_only};
ghost use Rattle.textarea_data.specs.declared.range.AtomicCursorBias.TheVariants.{Forward};
ghost use Rattle.tui_textarea.specs.Units.{settled};
ghost use Rattle.textarea_c.specs.Calls.{Calls, Given, Inserts, InsertsCharacter, TriesToInsert};
ghost use Rattle.textarea_c_data.specs.Inputs.{character_of_number};
ghost use Rattle.textarea_c_data.specs.Texts.{text_in};

use crate::calls::on;
use crate::editor::Editor;
use crate::handle::Handle;
use std::alloc::Global;
use textarea_c_data::slices::text_of;
use textarea_c_data::status::{INVALID_ARGUMENT, done, flag};

/// Inserts the character with this number at the cursor, or at the end of the atomic range that
/// strictly contains it, as typed; a line feed and a carriage return break the line.
///
/// Statuses: ok, out of memory (the selected text may have been removed), invalid argument (no
/// character has this number), empty handle.
#[unsafe(no_mangle)]
pub extern "C" fn ta_insert_char(handle: &mut Handle, alloc: Global, character: u32) -> u32
    ensures { Calls handle.old.stored.content result handle.new.stored.content
        (λ a b. Given (character_of_number character) InsertsCharacter result a b) }
{
    on!(handle, alloc, editor => match char::from_u32(character) {
        Some(c) => insert_character(&mut editor, c),
        None => INVALID_ARGUMENT,
    })
}

// Inserts the character, and returns the status.
fn insert_character(editor: &mut Editor, c: char) -> u32
    ensures { InsertsCharacter c result editor.old editor.new }
{
    done(editor.area.insert_char(c))
}

/// Breaks the line at the cursor, or at the end of the atomic range that strictly contains it.
///
/// Statuses: ok, out of memory (the selected text may have been removed), empty handle.
#[unsafe(no_mangle)]
pub extern "C" fn ta_insert_newline(handle: &mut Handle, alloc: Global) -> u32
    ensures { Calls handle.old.stored.content result handle.new.stored.content
        (λ a b. Inserts (if bars_break a.area then a.area
        else settled Forward (newline_inserted a.area)) result a b) }
{
    on!(handle, alloc, editor => done(editor.area.insert_newline()))
}

/// Inserts the text at the cursor, or at the end of the atomic range that strictly contains it.
/// Each line feed breaks the line; a carriage return directly before it is dropped.
///
/// Statuses: ok (it inserted something or removed a selection), false, out of memory (the selected
/// text may have been removed), invalid argument (the text is not UTF-8), empty handle.
#[unsafe(no_mangle)]
pub extern "C" fn ta_insert_str(handle: &mut Handle, alloc: Global, text: &[u8]) -> u32
    ensures { Calls handle.old.stored.content result handle.new.stored.content
        (λ a b. Given (text_in text.now) (λ t. TriesToInsert
        (is_editable a.area && inserts_text a.area
        (admitted_over_selection a.area (fragment_symbols (chars t))))
        (is_editable a.area && inserts_text a.area (fragment_symbols (chars t)))
        (unless_read_only a.area (settled Forward (str_inserted a.area
        (admitted_over_selection a.area (fragment_symbols (chars t))))))) result a b) }
{
    on!(handle, alloc, editor => match text_of(text) {
        Some(text) => flag(editor.area.insert_str(text)),
        None => INVALID_ARGUMENT,
    })
}

/// Inserts a text that was pasted from outside, where `ta_insert_str` inserts. Each line end breaks
/// the line: a line feed, a carriage return, or a carriage return and a line feed.
///
/// Statuses: ok (it inserted something or removed a selection), false, out of memory (the selected
/// text may have been removed), invalid argument (the text is not UTF-8), empty handle.
#[unsafe(no_mangle)]
pub extern "C" fn ta_insert_pasted(handle: &mut Handle, alloc: Global, text: &[u8]) -> u32
    ensures { Calls handle.old.stored.content result handle.new.stored.content
        (λ a b. Given (text_in text.now) (λ t. TriesToInsert
        (is_editable a.area && inserts_text a.area
        (admitted_over_selection a.area (pasted_symbols (chars t))))
        (is_editable a.area && inserts_text a.area (pasted_symbols (chars t)))
        (unless_read_only a.area (settled Forward (str_inserted a.area
        (admitted_over_selection a.area (pasted_symbols (chars t))))))) result a b) }
{
    on!(handle, alloc, editor => match text_of(text) {
        Some(text) => flag(editor.area.insert_pasted(text)),
        None => INVALID_ARGUMENT,
    })
}

/// Inserts a tab at the cursor, or at the end of the atomic range that strictly contains it: with
/// hard tabs a tab character, as typed, otherwise spaces up to the next tab stop; at tab length 0
/// nothing.
///
/// Statuses: ok (it inserted something or removed a selection), false, out of memory (the selected
/// text may have been removed), empty handle.
#[unsafe(no_mangle)]
pub extern "C" fn ta_insert_tab(handle: &mut Handle, alloc: Global) -> u32
    ensures { Calls handle.old.stored.content result handle.new.stored.content
        (λ a b. TriesToInsert (not (bars_tab a.area) && inserts_tab a.area)
        (not (bars_tab a.area) && inserts_tab a.area)
        (if bars_tab a.area then a.area else settled Forward (tab_inserted a.area)) result a b) }
{
    on!(handle, alloc, editor => flag(editor.area.insert_tab()))
}

/// Inserts the yanked text where `ta_insert_str` inserts.
///
/// Statuses: ok, false (there was none), out of memory (the selected text may have been removed),
/// empty handle.
#[unsafe(no_mangle)]
pub extern "C" fn ta_paste(handle: &mut Handle, alloc: Global) -> u32
    ensures { Calls handle.old.stored.content result handle.new.stored.content
        (λ a b. TriesToInsert
        (is_editable a.area && has_symbols (admitted_over_selection a.area a.area.yank))
        (is_editable a.area && inserts_text a.area a.area.yank)
        (unless_read_only a.area (settled Forward (str_inserted a.area
        (admitted_over_selection a.area a.area.yank)))) result a b) }
{
    on!(handle, alloc, editor => flag(editor.area.paste()))
}
