//! Replacements of text, and of what lines begin with, each one group of edits.
ghost use Rattle.std.specs.Prelude.{◌≡◌, ◌≢◌, ◌&&◌, IfSome, None, Some, if◌then◌else◌, is_some, length, not};
ghost use Rattle.std.specs.Str.{chars};
ghost use Rattle.textarea_document.specs.Indenting.{lines_indented, lines_outdented, shifts_lines};
ghost use Rattle.textarea_document.specs.Replacing.{stretch_symbols};
ghost use Rattle.textarea_text.specs.Fragment.{fragment_symbols, fragment_text};
ghost use Rattle.tui_textarea.specs.Prelude.{admitted, admitted_for, bars_indent, is_editable, replaces_whole, unless_read_only, whole_range_replaced, with_document};
ghost use Rattle.tui_textarea.specs.Replacing.{match_at_cursor, match_replaced, matches_replaced, replaceable};
ghost use Rattle.textarea_data.specs.declared.range.AtomicCursorBias.TheVariants.{Forward};
ghost use Rattle.tui_textarea.specs.Units.{settled};
ghost use Rattle.textarea_c.specs.Calls.{Calls, ChangesArea, Copies, Given, Replaces, bars_replacement};
ghost use Rattle.textarea_c_data.specs.Lines.{AreCharactersOut};
ghost use Rattle.textarea_c_data.specs.Texts.{text_in};

use crate::calls::on;
use crate::editor::Editor;
use crate::handle::Handle;
use std::alloc::Global;
use textarea_c_data::slices::{copy_made, text_of};
use textarea_c_data::status::{INVALID_ARGUMENT, OK, OUT_OF_MEMORY, flag};

/// Returns the text between two positions, in either order, with a line feed for each line break.
/// Positions beyond the text count as the nearest ones in it. `out` gets the first of its bytes, as
/// many as there is room for, and `needed` the number of all.
///
/// Statuses: ok, out of memory, empty handle.
#[unsafe(no_mangle)]
pub extern "C" fn ta_text_range(
    handle: &mut Handle,
    alloc: Global,
    from_row: usize,
    from_column: usize,
    to_row: usize,
    to_column: usize,
    out: &mut [u8],
    needed: &mut usize,
) -> u32
    ensures unchanged { Calls handle.old.stored.content result handle.new.stored.content
        (λ a b. Copies result a b) }
    ensures text { result ≡ 0 → IfSome handle.old.stored.content
        (λ a. AreCharactersOut (fragment_text (stretch_symbols a.area.document.text
        (from_row, from_column) (to_row, to_column))) out.old out.new needed.new) }
    ensures unwritten { result ≢ 0 → (out.new ≡ out.old) × (needed.new ≡ needed.old) }
{
    on!(handle, alloc, editor => {
        let text = editor.area.text_range((from_row, from_column), (to_row, to_column));
        copy_made(text, out, needed)
    })
}

/// Replaces the text between two positions, in either order, by this one; one undo takes both back.
/// Positions beyond the text count as the nearest ones in it. Each atomic range that the replaced
/// text overlaps is removed, and each line feed of the text breaks the line. The cursor is then
/// after what was inserted, and nothing is selected.
///
/// Statuses: ok (it removed or inserted something), false, out of memory (nothing changed), invalid
/// argument (the text is not UTF-8), empty handle.
#[unsafe(no_mangle)]
pub extern "C" fn ta_replace_range(
    handle: &mut Handle,
    alloc: Global,
    from_row: usize,
    from_column: usize,
    to_row: usize,
    to_column: usize,
    text: &[u8],
) -> u32
    ensures { Calls handle.old.stored.content result handle.new.stored.content
        (λ a b. Given (text_in text.now) (λ t. Replaces
        (is_editable a.area && replaces_whole a.area (from_row, from_column)
        (to_row, to_column) (fragment_symbols (chars t)))
        (unless_read_only a.area (settled Forward (whole_range_replaced a.area
        (from_row, from_column) (to_row, to_column) (fragment_symbols (chars t)))))) result a b) }
{
    on!(handle, alloc, editor => match text_of(text) {
        Some(text) => flag(editor.area.replace_range(
            (from_row, from_column),
            (to_row, to_column),
            text,
        )),
        None => INVALID_ARGUMENT,
    })
}

/// Replaces the match of the search pattern that begins at the cursor by this text, and moves the
/// cursor to the next match at or after what was inserted; after an empty match at least one
/// character later. Without such a match it searches as `ta_search_forward` does.
///
/// Statuses: ok (it replaced a match), false, out of memory (nothing changed, and a pattern is set),
/// invalid argument (the text is not UTF-8), empty handle.
#[unsafe(no_mangle)]
pub extern "C" fn ta_replace_match(handle: &mut Handle, alloc: Global, text: &[u8]) -> u32
    ensures replaced { Calls handle.old.stored.content result handle.new.stored.content
        (λ a b. Given (text_in text.now) (λ t. Replaces
        (is_editable a.area && is_some (match_at_cursor a.area))
        (unless_read_only a.area (settled Forward (match_replaced a.area
        (admitted_for (match_at_cursor a.area) a.area (fragment_symbols (chars t))))))) result a b) }
    ensures no_pattern { IfSome handle.old.stored.content
        (λ a. a.area.pattern ≡ None → result ≢ 2) }
{
    on!(handle, alloc, editor => match text_of(text) {
        Some(text) => flag(editor.area.replace_match(text)),
        None => INVALID_ARGUMENT,
    })
}

/// Replaces each match of the search pattern in the text as it is now by this text; one undo takes
/// all back, if as many edits are remembered, at most two for each match. Matches in what is inserted
/// are left, and so is a match of which an end is strictly inside an atomic range. An empty match
/// inserts the text. The cursor is then after the last one that was replaced, and `count` is their
/// number; without matches nothing changes.
///
/// Statuses: ok, out of memory (nothing changed, and a pattern is set), invalid argument (the text is
/// not UTF-8), empty handle.
#[unsafe(no_mangle)]
pub extern "C" fn ta_replace_all(
    handle: &mut Handle,
    alloc: Global,
    text: &[u8],
    count: &mut usize,
) -> u32
    ensures replaced { Calls handle.old.stored.content result handle.new.stored.content
        (λ a b. Given (text_in text.now) (λ t. ChangesArea
        (if bars_replacement a.area t then a.area else settled Forward (matches_replaced a.area
        (admitted a.area (fragment_symbols (chars t)))))) result a b) }
    ensures value { result ≡ 0 → IfSome handle.old.stored.content
        (λ a. IfSome (text_in text.now) (λ t. count.new
        ≡ (if bars_replacement a.area t then 0 else length (replaceable a.area)))) }
    ensures no_pattern { IfSome handle.old.stored.content
        (λ a. a.area.pattern ≡ None → result ≢ 2) }
    ensures unwritten { result ≢ 0 → count.new ≡ count.old }
{
    on!(handle, alloc, editor => match text_of(text) {
        Some(text) => replace_matches(&mut editor, text, count),
        None => INVALID_ARGUMENT,
    })
}

/// Inserts a tab at the start of the cursor's line, or of each line of the selection, as one group
/// of edits, and returns whether it inserted one. Empty lines are left, and at tab length 0 all
/// lines. Cursor and selection move with the text, but a selection that begins at column 0 still
/// does.
///
/// Statuses: ok (true), false, out of memory, empty handle.
#[unsafe(no_mangle)]
pub extern "C" fn ta_indent_lines(handle: &mut Handle, alloc: Global) -> u32
    ensures { Calls handle.old.stored.content result handle.new.stored.content
        (λ a b. Replaces (not (bars_indent a.area) && shifts_lines a.area.document None)
        (if bars_indent a.area then a.area else settled Forward (with_document a.area (lines_indented
        a.area.document a.area.settings.hard_tab_indent a.area.time))) result a b) }
{
    on!(handle, alloc, editor => flag(editor.area.indent_lines()))
}

/// Removes a tab character, or spaces, at most as many as the tab length, from the start of the
/// cursor's line, or of each line of the selection, as one group of edits, and returns whether
/// there were any. It removes no character of an atomic range. Cursor and selection move with the
/// text.
///
/// Statuses: ok (true), false, out of memory, empty handle.
#[unsafe(no_mangle)]
pub extern "C" fn ta_outdent_lines(handle: &mut Handle, alloc: Global) -> u32
    ensures { Calls handle.old.stored.content result handle.new.stored.content
        (λ a b. Replaces (is_editable a.area && shifts_lines a.area.document
        (Some a.area.settings.cursor_unit))
        (unless_read_only a.area (settled Forward (with_document a.area
        (lines_outdented a.area.document a.area.settings.cursor_unit a.area.time)))) result a b) }
{
    on!(handle, alloc, editor => flag(editor.area.outdent_lines()))
}

// Replaces each match, writes their number, and returns the status.
fn replace_matches(editor: &mut Editor, text: &str, count: &mut usize) -> u32
    ensures replaced { ChangesArea (if bars_replacement editor.old.area text.now
        then editor.old.area else settled Forward (matches_replaced editor.old.area
        (admitted editor.old.area (fragment_symbols (chars text.now)))))
        result editor.old editor.new }
    ensures value { result ≡ 0 → count.new ≡ (if bars_replacement editor.old.area text.now
        then 0 else length (replaceable editor.old.area)) }
    ensures no_pattern { editor.old.area.pattern ≡ None → result ≢ 2 }
    ensures unwritten { result ≢ 0 → count.new ≡ count.old }
{
    match editor.area.replace_all(text) {
        Ok(number) => {
            *count = number;
            OK
        }
        Err(_) => OUT_OF_MEMORY,
    }
}
