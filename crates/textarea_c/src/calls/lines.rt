//! The lines of a text area.
ghost use Rattle.std.specs.Prelude.{◌≡◌, ◌≢◌, ◌+◌, ◌<◌, ◌≤◌, [], IfSome, length, option_map, slice_get};
ghost use Rattle.std.specs.List.{concat};
ghost use Rattle.textarea_text.specs.Fragment.{fragment_text};
ghost use Rattle.textarea_text.specs.Text.{lines, lines_of};
ghost use Rattle.textarea_util.specs.Limit.{size_limit};
ghost use Rattle.textarea_c.specs.Calls.{Asks, Calls, ChangesIf, Copies, OnlyReads};
ghost use Rattle.tui_textarea.specs.Guards.{other_lines_set};
ghost use Rattle.textarea_c_data.specs.Copied.{IsCopiedOut, ends_of, copied_over};
ghost use Rattle.textarea_c_data.specs.Lines.{AreCharactersOut, IsLineOut, encoded_lines};
ghost use Rattle.textarea_c_data.specs.Split.{lines_between};
ghost use Rattle.textarea_c_data.specs.Texts.{some_of};

use crate::calls::on;
use crate::editor::Editor;
use crate::handle::Handle;
use std::alloc::Global;
use textarea_c_data::lines::{copy_line, read_lines, write_lines};
use textarea_c_data::slices::copy_made;
use textarea_c_data::status::{INVALID_ARGUMENT, OK, OUT_OF_MEMORY, done, truth};

/// Replaces all lines, and moves the cursor to the position in them that is nearest to `row` and
/// `column`. The lines follow one another in `text`; `ends` has the byte in `text` after each of
/// them. A line feed inside a line stays a character of that line. Forgets all edits, the
/// selection, the atomic ranges and the custom highlights, and resets the viewport's numbers to 0.
///
/// Statuses: ok, out of memory, invalid argument (there is no line, a line ends before its start or
/// past the text, or it is not UTF-8), empty handle. Where it is not ok, nothing changes.
#[unsafe(no_mangle)]
pub extern "C" fn ta_set_lines(
    handle: &mut Handle,
    alloc: Global,
    text: &[u8],
    ends: &[usize],
    row: usize,
    column: usize,
) -> u32
    ensures { Calls handle.old.stored.content result handle.new.stored.content
        (λ a b. ChangesIf (some_of (lines_between text.now 0 ends.now))
        (λ rows. other_lines_set a.area rows (row, column)) result a b) }
{
    on!(handle, alloc, editor => match read_lines(alloc, text, ends) {
        Ok(found) => replace_lines(&mut editor, found, (row, column)),
        Err(_) => OUT_OF_MEMORY,
    })
}

// Replaces the lines, if there are any, and returns the status.
fn replace_lines(editor: &mut Editor, found: Option<Vec<String>>, cursor: (usize, usize)) -> u32
    ensures { ChangesIf (some_of (option_map (λ lines. lines_of lines.items) found))
        (λ rows. other_lines_set editor.old.area rows cursor) result editor.old editor.new }
{
    let Some(lines) = found else {
        return INVALID_ARGUMENT;
    };
    if lines.is_empty() {
        return INVALID_ARGUMENT;
    }
    done(editor.area.set_lines(lines, cursor))
}

/// Returns the number of lines, at least one.
///
/// Statuses: ok, empty handle.
#[unsafe(no_mangle)]
pub extern "C" fn ta_line_count(handle: &mut Handle, alloc: Global, count: &mut usize) -> u32
    ensures unchanged { Calls handle.old.stored.content result handle.new.stored.content
        (λ a b. OnlyReads result a b) }
    ensures count { IfSome handle.old.stored.content
        (λ a. count.new ≡ length (lines a.area.document.text)) }
    ensures some { result ≡ 0 → 0 < count.new }
    ensures unwritten { result ≢ 0 → count.new ≡ count.old }
{
    on!(handle, alloc, editor => {
        *count = editor.area.lines().len();
        OK
    })
}

/// Returns one line, by its row. `out` gets the first of its bytes, as many as there is room for,
/// and `needed` the number of all.
///
/// Statuses: ok, false (there is no such row), empty handle.
#[unsafe(no_mangle)]
pub extern "C" fn ta_line(
    handle: &mut Handle,
    alloc: Global,
    row: usize,
    out: &mut [u8],
    needed: &mut usize,
) -> u32
    ensures unchanged { Calls handle.old.stored.content result handle.new.stored.content
        (λ a b. Asks result a b) }
    ensures line { IfSome handle.old.stored.content
        (λ a. IsLineOut (slice_get (lines a.area.document.text) row) result out.old out.new
        needed.new) }
    ensures unwritten { result ≢ 0 → (out.new ≡ out.old) × (needed.new ≡ needed.old) }
{
    on!(handle, alloc, editor => copy_line(editor.area.lines(), row, out, needed))
}

/// Returns all lines, one after another, without line feeds between them. `out` gets the first of
/// their bytes, as many as there is room for, and `needed` the number of all; `ends` gets the byte
/// after each of the first lines, as many as there is room for, and `count` the number of lines.
///
/// Statuses: ok, empty handle.
#[unsafe(no_mangle)]
pub extern "C" fn ta_lines(
    handle: &mut Handle,
    alloc: Global,
    out: &mut [u8],
    needed: &mut usize,
    ends: &mut [usize],
    count: &mut usize,
) -> u32
    ensures unchanged { Calls handle.old.stored.content result handle.new.stored.content
        (λ a b. OnlyReads result a b) }
    ensures count { IfSome handle.old.stored.content
        (λ a. count.new ≡ length (lines a.area.document.text)) }
    ensures bytes { IfSome handle.old.stored.content
        (λ a. IsCopiedOut out.old out.new needed.new
        (concat (encoded_lines (lines a.area.document.text)))) }
    ensures ends { IfSome handle.old.stored.content
        (λ a. ends.new ≡ copied_over ends.old (ends_of 0 (encoded_lines (lines a.area.document.text)))) }
    ensures some { result ≡ 0 → 0 < count.new }
    ensures limit { result ≡ 0 → needed.new + count.new ≤ size_limit }
    ensures unwritten { result ≢ 0 → (out.new ≡ out.old) × (needed.new ≡ needed.old)
        × (ends.new ≡ ends.old) × (count.new ≡ count.old) }
{
    on!(handle, alloc, editor => {
        let lines = editor.area.lines();
        *needed = write_lines(lines, out, ends);
        *count = lines.len();
        OK
    })
}

/// Returns the text: the lines, with a line feed between two. `out` gets the first of its bytes, as
/// many as there is room for, and `needed` the number of all.
///
/// Statuses: ok, out of memory, empty handle.
#[unsafe(no_mangle)]
pub extern "C" fn ta_text(
    handle: &mut Handle,
    alloc: Global,
    out: &mut [u8],
    needed: &mut usize,
) -> u32
    ensures unchanged { Calls handle.old.stored.content result handle.new.stored.content
        (λ a b. Copies result a b) }
    ensures text { result ≡ 0 → IfSome handle.old.stored.content
        (λ a. AreCharactersOut (fragment_text a.area.document.text) out.old out.new needed.new) }
    ensures unwritten { result ≢ 0 → (out.new ≡ out.old) × (needed.new ≡ needed.old) }
{
    on!(handle, alloc, editor => copy_made(editor.area.text(), out, needed))
}

/// Returns whether the text is one empty line.
///
/// Statuses: ok (it is), false, empty handle.
#[unsafe(no_mangle)]
pub extern "C" fn ta_is_empty(handle: &mut Handle, alloc: Global) -> u32
    ensures unchanged { Calls handle.old.stored.content result handle.new.stored.content
        (λ a b. Asks result a b) }
    ensures empty { IfSome handle.old.stored.content
        (λ a. (result ≡ 0 → a.area.document.text ≡ []) × (a.area.document.text ≡ [] → result ≡ 0)) }
{
    on!(handle, alloc, editor => truth(editor.area.is_empty()))
}
