//! The shape of a terminal's cursor, and the title of its window.
ghost use Rattle.std.specs.Prelude.{◌≡◌, ◌≢◌, OnOk, OnErr, option_map};
ghost use Rattle.textarea_terminal.specs.Title.{cursor_shape_bytes, title_bytes};
ghost use Rattle.textarea_c.specs.Titles.{WritesBytes, cursor_shape_of};
ghost use Rattle.textarea_c_data.specs.Copied.{IsCopiedOut};
ghost use Rattle.textarea_c_data.specs.Texts.{text_in};

use std::alloc::{AllocError, Global};
use textarea_c_data::slices::{copied, text_of};
use textarea_c_data::status::{INVALID_ARGUMENT, done};
use textarea_terminal::output::CursorShape;
use textarea_terminal::output::title::{set_cursor_shape, set_title};

/// Returns the bytes that give a terminal's cursor a shape, one of `TA_SHAPE_..` (DECSCUSR). `out`
/// gets the first of them, as many as there is room for, and `needed` the number of all.
///
/// Statuses: ok, out of memory, invalid argument (there is no such shape).
#[unsafe(no_mangle)]
pub extern "C" fn ta_cursor_shape_bytes(
    shape: u32,
    alloc: Global,
    out: &mut [u8],
    needed: &mut usize,
) -> u32
    ensures bytes { WritesBytes (option_map cursor_shape_bytes (cursor_shape_of shape)) result
        out.old out.new needed.new }
    ensures unwritten { result ≢ 0 → (out.new ≡ out.old) × (needed.new ≡ needed.old) }
{
    match read_cursor_shape(shape) {
        Some(shape) => done(write_shape(shape, alloc, out, needed)),
        None => INVALID_ARGUMENT,
    }
}

// Returns the shape of this number.
fn read_cursor_shape(number: u32) -> Option<CursorShape>
    ensures { result ≡ cursor_shape_of number }
{
    Some(match number {
        0 => CursorShape::Default,
        1 => CursorShape::BlinkingBlock,
        2 => CursorShape::Block,
        3 => CursorShape::BlinkingUnderline,
        4 => CursorShape::Underline,
        5 => CursorShape::BlinkingBar,
        6 => CursorShape::Bar,
        _ => return None,
    })
}

// Writes the bytes of a shape, as many as there is room for, and the number of all.
fn write_shape(
    shape: CursorShape,
    alloc: Global,
    out: &mut [u8],
    needed: &mut usize,
) -> Result<(), AllocError>
    ensures ok { OnOk result (IsCopiedOut out.old out.new needed.new (cursor_shape_bytes shape)) }
    ensures err { OnErr result ((out.new ≡ out.old) × (needed.new ≡ needed.old)) }
{
    let mut bytes = Vec::new(alloc);
    set_cursor_shape(shape, &mut bytes)?;
    *needed = copied(bytes.as_slice(), out);
    Ok(())
}

/// Returns the bytes that give a terminal's window a title (OSC 2), without the title's control
/// characters. `out` gets the first of them, as many as there is room for, and `needed` the number
/// of all.
///
/// Statuses: ok, out of memory, invalid argument (the bytes are not UTF-8).
#[unsafe(no_mangle)]
pub extern "C" fn ta_title_bytes(
    title: &[u8],
    alloc: Global,
    out: &mut [u8],
    needed: &mut usize,
) -> u32
    ensures bytes { WritesBytes (option_map title_bytes (text_in title.now)) result out.old out.new
        needed.new }
    ensures unwritten { result ≢ 0 → (out.new ≡ out.old) × (needed.new ≡ needed.old) }
{
    match text_of(title) {
        Some(title) => done(write_title(title, alloc, out, needed)),
        None => INVALID_ARGUMENT,
    }
}

// Writes the bytes of a title, as many as there is room for, and the number of all.
fn write_title(
    title: &str,
    alloc: Global,
    out: &mut [u8],
    needed: &mut usize,
) -> Result<(), AllocError>
    ensures ok { OnOk result (IsCopiedOut out.old out.new needed.new (title_bytes title.now)) }
    ensures err { OnErr result ((out.new ≡ out.old) × (needed.new ≡ needed.old)) }
{
    let mut bytes = Vec::new(alloc);
    set_title(alloc, title, &mut bytes)?;
    *needed = copied(bytes.as_slice(), out);
    Ok(())
}
