//! Making, copying and freeing text areas.
ghost use Rattle.std.specs.Prelude.{◌≡◌, [], IfOk, MatchOption, None, Some};
ghost use Rattle.tui_textarea.specs.State.{new_state, with_changes_taken};
ghost use Rattle.textarea_c.specs.Calls.{Calls};
ghost use Rattle.textarea_c.specs.Fresh.{IsEditorOf, Loads, state_of_file};
ghost use Rattle.textarea_c.specs.Made.{MakesBehind};
ghost use Rattle.textarea_c_data.specs.Texts.{text_in};

use crate::calls::on;
use crate::editor::Editor;
use crate::handle::Handle;
use std::alloc::{AllocError, Global};
use textarea_c_data::slices::text_of;
use textarea_c_data::status::{INVALID_ARGUMENT, OK, OUT_OF_MEMORY};
use textarea_screen::screen::{Buffer, Rect};
use tui_textarea::TextArea;

// Returns an editor of this text area, on the heap, with an empty screen, nothing rejected, and no
// changes taken.
fn editor_of(alloc: Global, area: TextArea<'static>) -> Result<Box<Editor>, AllocError>
    ensures { IfOk result (λ editor. IsEditorOf area.entry editor.value) }
{
    let screen = match Buffer::empty(alloc, Rect::new(0, 0, 0, 0)) {
        Ok(screen) => screen,
        Err(error) => {
            drop(area);
            return Err(error);
        }
    };
    let editor = Editor {
        area,
        screen,
        rejected: Vec::new(alloc),
        pattern_error: String::new(alloc),
        changes: Vec::new(alloc),
    };
    Ok(Box::new(alloc, editor)?)
}

// Returns an editor of an empty text area.
fn fresh_editor(alloc: Global) -> Result<Box<Editor>, AllocError>
    ensures { IfOk result (λ editor. IsEditorOf (new_state []) editor.value) }
{
    editor_of(alloc, TextArea::try_default(alloc)?)
}

// Returns an editor with this text.
fn editor_with(alloc: Global, text: &str) -> Result<Box<Editor>, AllocError>
    ensures { IfOk result (λ editor. IsEditorOf (state_of_file text.now) editor.value) }
{
    editor_of(alloc, TextArea::from_text(alloc, text)?)
}

// Returns an editor of a copy of the text area.
fn copied_editor(alloc: Global, area: &TextArea<'static>) -> Result<Box<Editor>, AllocError>
    ensures { IfOk result (λ editor. IsEditorOf (with_changes_taken area.now) editor.value) }
{
    editor_of(alloc, area.clone()?)
}

/// Makes an empty text area, with one empty line, behind the handle. A text area that was behind it
/// is freed.
///
/// Statuses: ok, out of memory (the handle stays as it was).
#[unsafe(no_mangle)]
pub extern "C" fn ta_new(handle: &mut Handle, alloc: Global) -> u32
    ensures { MakesBehind (IsEditorOf (new_state [])) handle.old.stored.content result
        handle.new.stored.content }
{
    match fresh_editor(alloc) {
        Ok(editor) => {
            let _old = handle.take(alloc);
            handle.put(editor);
            OK
        }
        Err(_) => OUT_OF_MEMORY,
    }
}

/// Makes a text area with the text of a file behind the handle, and the cursor at the start. Each
/// line feed ends a line, and one at the text's end begins no line; a carriage return directly
/// before a line feed is dropped. A text area that was behind the handle is freed.
///
/// Statuses: ok, out of memory, invalid argument (the text is not UTF-8). Where it is not ok, the
/// handle stays as it was.
#[unsafe(no_mangle)]
pub extern "C" fn ta_from_text(handle: &mut Handle, alloc: Global, text: &[u8]) -> u32
    ensures { Loads (text_in text.now) handle.old.stored.content result handle.new.stored.content }
{
    match text_of(text) {
        Some(text) => load(handle, alloc, text),
        None => INVALID_ARGUMENT,
    }
}

// Replaces what is behind the handle by an editor with this text, and returns the status.
fn load(handle: &mut Handle, alloc: Global, text: &str) -> u32
    ensures { Loads (Some text.now) handle.old.stored.content result handle.new.stored.content }
{
    match editor_with(alloc, text) {
        Ok(editor) => {
            let _old = handle.take(alloc);
            handle.put(editor);
            OK
        }
        Err(_) => OUT_OF_MEMORY,
    }
}

/// Frees the text area behind the handle, which is empty then. An empty handle stays empty.
#[unsafe(no_mangle)]
pub extern "C" fn ta_free(handle: &mut Handle, alloc: Global)
    ensures { handle.new.stored.content ≡ None }
{
    let _editor = handle.take(alloc);
}

/// Makes a copy of the text area, with its history, behind another handle, `copy`. A text area that
/// was behind that one is freed. The copy's screen has no cells, it has no rejected ranges or
/// pattern, and its log of changes is empty.
///
/// Statuses: ok, out of memory, empty handle. Where it is not ok, `copy` stays as it was.
#[unsafe(no_mangle)]
pub extern "C" fn ta_clone(handle: &mut Handle, alloc: Global, copy: &mut Handle) -> u32
    ensures unchanged { Calls handle.old.stored.content result handle.new.stored.content
        (λ a b. b ≡ a) }
    ensures copy { MatchOption handle.old.stored.content
        (copy.new.stored.content ≡ copy.old.stored.content)
        (λ a. MakesBehind (IsEditorOf (with_changes_taken a.area)) copy.old.stored.content result
        copy.new.stored.content) }
{
    on!(handle, alloc, editor => match copied_editor(alloc, &editor.area) {
        Ok(copied) => {
            let _old = copy.take(alloc);
            copy.put(copied);
            OK
        }
        Err(_) => OUT_OF_MEMORY,
    })
}
