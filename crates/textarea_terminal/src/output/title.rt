//! The shape of a terminal's cursor and the title of its window, as bytes.
ghost use Rattle.std.specs.Prelude.{◌≡◌, ◌++◌, chars, string_bytes, OnOk, OnErr};
ghost use Rattle.std.specs.List.{flat_map};
ghost use Rattle.textarea_terminal.specs.Title.{cursor_shape_bytes, printable_bytes, title_bytes};

use std::alloc::{AllocError, Global};

/// The shape of a terminal's cursor.
#[derive(Clone, Copy, Debug, PartialEq, Eq)]
pub enum CursorShape {
    /// The terminal's own.
    Default,
    BlinkingBlock,
    Block,
    BlinkingUnderline,
    Underline,
    BlinkingBar,
    Bar,
}

/// Appends the bytes that give the cursor a shape (DECSCUSR). Out of memory, `out` is unchanged.
pub fn set_cursor_shape(shape: CursorShape, out: &mut Vec<u8>) -> Result<(), AllocError>
    ensures ok { OnOk result (out.new.items ≡ out.old.items ++ cursor_shape_bytes shape) }
    ensures err { OnErr result (out.new.items ≡ out.old.items) }
{
    match shape {
        CursorShape::Default => out.extend_from_slice(b"\x1b[0 q"),
        CursorShape::BlinkingBlock => out.extend_from_slice(b"\x1b[1 q"),
        CursorShape::Block => out.extend_from_slice(b"\x1b[2 q"),
        CursorShape::BlinkingUnderline => out.extend_from_slice(b"\x1b[3 q"),
        CursorShape::Underline => out.extend_from_slice(b"\x1b[4 q"),
        CursorShape::BlinkingBar => out.extend_from_slice(b"\x1b[5 q"),
        CursorShape::Bar => out.extend_from_slice(b"\x1b[6 q"),
    }
}

/// Appends the bytes that give the terminal's window a title (OSC 2), without the title's control
/// characters. Out of memory, `out` is unchanged.
pub fn set_title(alloc: Global, title: &str, out: &mut Vec<u8>) -> Result<(), AllocError>
    ensures ok { OnOk result (out.new.items ≡ out.old.items ++ title_bytes title.now) }
    ensures err { OnErr result (out.new.items ≡ out.old.items) }
{
    let mut text = String::from_str(alloc, "\x1b]2;")?;
    push_printable(&mut text, title)?;
    text.push_str("\x1b\\")?;
    out.extend_from_slice(text.as_bytes())?;
    Ok(())
}

/// Adds the characters that are no control characters.
fn push_printable(text: &mut String, title: &str) -> Result<(), AllocError>
    ensures { OnOk result (string_bytes text.new
        ≡ string_bytes text.old ++ flat_map printable_bytes (chars title.now)) }
{
    for c in title.chars() {
        push_one(text, c)?;
    }
    Ok(())
}

/// Adds a character, unless it is a control character.
fn push_one(text: &mut String, c: char) -> Result<(), AllocError>
    ensures { OnOk result (string_bytes text.new ≡ string_bytes text.old ++ printable_bytes c) }
{
    if c.is_control() {
        return Ok(());
    }
    text.push(c)
}
