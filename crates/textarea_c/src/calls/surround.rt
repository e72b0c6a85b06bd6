//! The surround: a block around the text, a placeholder for an empty text, and height limits.
ghost use Rattle.std.specs.Prelude.{◌≡◌, ◌≢◌, [], IfSome, MatchOption, None, Some, length, map, option_map};
ghost use Rattle.textarea_screen.specs.Block.{block_view};
ghost use Rattle.textarea_screen.specs.Text.{text_view};
ghost use Rattle.textarea_view.specs.SurroundState.{first_bytes, style_with_lines};
ghost use Rattle.textarea_view.specs.Outcomes.{with_placeholder_style, with_placeholder_text};
ghost use Rattle.tui_textarea.specs.Measure.{with_surround};
ghost use Rattle.textarea_c.specs.Calls.{Asks, Calls, ChangesBy, ChangesIf, OnlyReads, Sets, SetsBy, with_block, with_placeholder_view};
ghost use Rattle.textarea_c_data.specs.Copied.{IsCopiedOut, copied_over};
ghost use Rattle.textarea_c_data.specs.Spans.{AreSpansOut, block_read, block_for_c, line_for_c, spans_of, text_read, title_spans};
ghost use Rattle.textarea_c_data.specs.Styles.{style_of_numbers};
ghost use Rattle.textarea_c_data.specs.Texts.{text_in};

use crate::calls::on;
use crate::editor::Editor;
use crate::handle::Handle;
use std::alloc::Global;
use textarea_c_data::read_styled::{read_block, read_text};
use textarea_c_data::slices::{copy_out, text_of};
use textarea_c_data::spans::{CBlock, CLine, CSpan};
use textarea_c_data::status::{FALSE, INVALID_ARGUMENT, OK, OUT_OF_MEMORY, done};
use textarea_c_data::style::CStyle;
use textarea_c_data::write_styled::{block_of, write_lines, write_title};
use textarea_screen::screen;

/// Draws this block around the text, and replaces the old one. The texts of its title's spans
/// follow one another in `title`; without a title there are none.
///
/// Statuses: ok, out of memory, invalid argument (the spans are not exactly the title, it is not
/// UTF-8, or a colour's kind does not exist), empty handle.
#[unsafe(no_mangle)]
pub extern "C" fn ta_set_block(
    handle: &mut Handle,
    alloc: Global,
    block: &CBlock,
    title: &[u8],
    spans: &[CSpan],
) -> u32
    ensures { Calls handle.old.stored.content result handle.new.stored.content
        (λ a b. ChangesIf (block_read block.now title.now spans.now) (with_block a.area)
        result a b) }
{
    on!(handle, alloc, editor => match read_block(alloc, *block, title, spans) {
        Ok(found) => replace_block(&mut editor, found),
        Err(_) => OUT_OF_MEMORY,
    })
}

// Sets the block, if there is one, and returns the status.
fn replace_block(editor: &mut Editor, found: Option<screen::Block<'static>>) -> u32
    ensures { ChangesIf (option_map (λ block. block_view block) found.entry)
        (with_block editor.old.area) result editor.old editor.new }
{
    match found {
        Some(block) => {
            editor.area.set_block(block);
            OK
        }
        None => INVALID_ARGUMENT,
    }
}

/// Removes the block, if there is one.
///
/// Statuses: ok, empty handle.
#[unsafe(no_mangle)]
pub extern "C" fn ta_remove_block(handle: &mut Handle, alloc: Global) -> u32
    ensures { Calls handle.old.stored.content result handle.new.stored.content
        (λ a b. Sets (with_surround a.area (record a.area.surround { block = None })) result a b) }
{
    on!(handle, alloc, editor => {
        editor.area.remove_block();
        OK
    })
}

/// Returns the block around the text. `title` and `spans` get the first bytes and spans of its
/// title, as many as there is room for; `title_needed` and `spans_needed` the number of all, 0
/// without a title.
///
/// Statuses: ok, false (there is no block), empty handle.
#[unsafe(no_mangle)]
pub extern "C" fn ta_block(
    handle: &mut Handle,
    alloc: Global,
    block: &mut CBlock,
    title: &mut [u8],
    title_needed: &mut usize,
    spans: &mut [CSpan],
    spans_needed: &mut usize,
) -> u32
    ensures unchanged { Calls handle.old.stored.content result handle.new.stored.content
        (λ a b. Asks result a b) }
    ensures block { IfSome handle.old.stored.content
        (λ a. MatchOption a.area.surround.block (result ≡ 1)
        (λ view. (result ≡ 0) × (block.new ≡ block_for_c view))) }
    ensures title { IfSome handle.old.stored.content (λ a. IfSome a.area.surround.block
        (λ view. AreSpansOut (title_spans view.title) title.old title.new title_needed.new
        spans.old spans.new spans_needed.new)) }
    ensures unwritten { result ≢ 0 → (block.new ≡ block.old) × (title.new ≡ title.old)
        × (title_needed.new ≡ title_needed.old) × (spans.new ≡ spans.old)
        × (spans_needed.new ≡ spans_needed.old) }
{
    on!(handle, alloc, editor => match editor.area.block() {
        Some(found) => {
            *block = block_of(found);
            (*title_needed, *spans_needed) = write_title(&found.title, title, spans);
            OK
        }
        None => FALSE,
    })
}

/// Sets the placeholder, which is shown while the text is empty, to one line of this text, even if
/// it has line feeds; the empty text removes the line. The placeholder's style stays.
///
/// Statuses: ok, out of memory, invalid argument (the text is not UTF-8), empty handle.
#[unsafe(no_mangle)]
pub extern "C" fn ta_set_placeholder_text(handle: &mut Handle, alloc: Global, text: &[u8]) -> u32
    ensures set { Calls handle.old.stored.content result handle.new.stored.content
        (λ a b. ChangesBy (text_in text.now)
        (λ t. with_surround a.area (with_placeholder_text a.area.surround t)) result a b) }
    ensures empty { IfSome (text_in text.now) (λ t. t ≡ [] → result ≢ 2) }
{
    on!(handle, alloc, editor => match text_of(text) {
        Some(text) => done(editor.area.set_placeholder_text(text)),
        None => INVALID_ARGUMENT,
    })
}

/// Sets the placeholder, which is shown while the text is empty, to these lines and their style;
/// without lines there is none. The spans of the lines follow one another in `spans`, and the texts
/// of these in `text`.
///
/// Statuses: ok, out of memory, invalid argument (the lines are not exactly the spans, or these not
/// exactly the text; it is not UTF-8; or a colour's kind does not exist), empty handle.
#[unsafe(no_mangle)]
pub extern "C" fn ta_set_styled_placeholder(
    handle: &mut Handle,
    alloc: Global,
    text: &[u8],
    spans: &[CSpan],
    lines: &[CLine],
    style: &CStyle,
) -> u32
    ensures { Calls handle.old.stored.content result handle.new.stored.content
        (λ a b. ChangesIf (text_read text.now spans.now lines.now (style_of_numbers style.now))
        (with_placeholder_view a.area) result a b) }
{
    on!(handle, alloc, editor => match read_text(alloc, text, spans, lines, *style) {
        Ok(found) => replace_placeholder(&mut editor, found),
        Err(_) => OUT_OF_MEMORY,
    })
}

// Sets the placeholder, if there is one, and returns the status.
fn replace_placeholder(editor: &mut Editor, found: Option<screen::Text<'static>>) -> u32
    ensures { ChangesIf (option_map (λ text. text_view text) found.entry)
        (with_placeholder_view editor.old.area) result editor.old editor.new }
{
    match found {
        Some(placeholder) => {
            editor.area.set_styled_placeholder(placeholder);
            OK
        }
        None => INVALID_ARGUMENT,
    }
}

/// Sets the style under those of the placeholder's lines, even while it has none.
///
/// Statuses: ok, invalid argument (a colour's kind does not exist), empty handle.
#[unsafe(no_mangle)]
pub extern "C" fn ta_set_placeholder_style(
    handle: &mut Handle,
    alloc: Global,
    style: &CStyle,
) -> u32
    ensures { Calls handle.old.stored.content result handle.new.stored.content
        (λ a b. SetsBy (style_of_numbers style.now)
        (λ s. with_surround a.area (with_placeholder_style a.area.surround s)) result a b) }
{
    on!(handle, alloc, editor => match style.read() {
        Some(style) => {
            editor.area.set_placeholder_style(style);
            OK
        }
        None => INVALID_ARGUMENT,
    })
}

/// Returns the whole placeholder, even if it has no line: its style, and the first of the bytes,
/// spans and lines that `ta_set_styled_placeholder` takes, as many as there is room for, with the
/// number of all.
///
/// Statuses: ok, empty handle.
#[unsafe(no_mangle)]
pub extern "C" fn ta_placeholder(
    handle: &mut Handle,
    alloc: Global,
    style: &mut CStyle,
    text: &mut [u8],
    text_needed: &mut usize,
    spans: &mut [CSpan],
    spans_needed: &mut usize,
    lines: &mut [CLine],
    lines_needed: &mut usize,
) -> u32
    ensures unchanged { Calls handle.old.stored.content result handle.new.stored.content
        (λ a b. OnlyReads result a b) }
    ensures style { IfSome handle.old.stored.content
        (λ a. style_of_numbers style.new ≡ Some a.area.surround.placeholder.style) }
    ensures spans { IfSome handle.old.stored.content
        (λ a. AreSpansOut (spans_of a.area.surround.placeholder.lines) text.old text.new
        text_needed.new spans.old spans.new spans_needed.new) }
    ensures lines { IfSome handle.old.stored.content
        (λ a. (lines.new ≡ copied_over lines.old (map line_for_c a.area.surround.placeholder.lines))
        × (lines_needed.new ≡ length a.area.surround.placeholder.lines)) }
    ensures unwritten { result ≢ 0 → (style.new ≡ style.old) × (text.new ≡ text.old)
        × (text_needed.new ≡ text_needed.old) × (spans.new ≡ spans.old)
        × (spans_needed.new ≡ spans_needed.old) × (lines.new ≡ lines.old)
        × (lines_needed.new ≡ lines_needed.old) }
{
    on!(handle, alloc, editor => {
        let found = editor.area.placeholder();
        *style = CStyle::of(found.style);
        (*text_needed, *spans_needed) = write_lines(&found.lines, text, spans, lines);
        *lines_needed = found.lines.len();
        OK
    })
}

/// Returns the text of the first span of the placeholder's first line; empty if there is none.
/// `out` gets the first of its bytes, as many as there is room for, and `needed` the number of all.
///
/// Statuses: ok, empty handle.
#[unsafe(no_mangle)]
pub extern "C" fn ta_placeholder_text(
    handle: &mut Handle,
    alloc: Global,
    out: &mut [u8],
    needed: &mut usize,
) -> u32
    ensures unchanged { Calls handle.old.stored.content result handle.new.stored.content
        (λ a b. OnlyReads result a b) }
    ensures text { IfSome handle.old.stored.content
        (λ a. IsCopiedOut out.old out.new needed.new
        (first_bytes a.area.surround.placeholder.lines)) }
    ensures unwritten { result ≢ 0 → (out.new ≡ out.old) × (needed.new ≡ needed.old) }
{
    on!(handle, alloc, editor => copy_out(editor.area.placeholder_text().as_bytes(), out, needed))
}

/// Returns the style of the placeholder.
///
/// Statuses: ok, false (it has no line), empty handle.
#[unsafe(no_mangle)]
pub extern "C" fn ta_placeholder_style(
    handle: &mut Handle,
    alloc: Global,
    style: &mut CStyle,
) -> u32
    ensures unchanged { Calls handle.old.stored.content result handle.new.stored.content
        (λ a b. Asks result a b) }
    ensures style { IfSome handle.old.stored.content
        (λ a. MatchOption (style_with_lines a.area.surround.placeholder.lines
        a.area.surround.placeholder.style) (result ≡ 1)
        (λ s. (result ≡ 0) × (style_of_numbers style.new ≡ Some s))) }
    ensures unwritten { result ≢ 0 → style.new ≡ style.old }
{
    on!(handle, alloc, editor => match editor.area.placeholder_style() {
        Some(found) => {
            *style = CStyle::of(found);
            OK
        }
        None => FALSE,
    })
}
