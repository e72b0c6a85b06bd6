//! The numbers of the modes of wrapping and of the cursor's cell, and of the cursor's unit.
ghost use Rattle.std.specs.Prelude.{◌≡◌, Some};
ghost use Rattle.textarea_c_data.specs.Modes.{cursor_unit_of, render_mode_of, wrap_mode_of};

use textarea_data::cursor::{CursorRenderMode, CursorUnit};
use textarea_wrap::wrap::WrapMode;

/// Returns the wrap mode of this number.
pub fn read_wrap_mode(number: u32) -> Option<WrapMode>
    ensures { result ≡ wrap_mode_of number }
{
    Some(match number {
        0 => WrapMode::None,
        1 => WrapMode::Word,
        2 => WrapMode::Glyph,
        3 => WrapMode::WordOrGlyph,
        _ => return None,
    })
}

/// Returns the number of the wrap mode.
pub fn wrap_mode_number(mode: WrapMode) -> u32
    ensures { wrap_mode_of result ≡ Some mode }
{
    match mode {
        WrapMode::None => 0,
        WrapMode::Word => 1,
        WrapMode::Glyph => 2,
        WrapMode::WordOrGlyph => 3,
    }
}

/// Returns the render mode of this number.
pub fn read_render_mode(number: u32) -> Option<CursorRenderMode>
    ensures { result ≡ render_mode_of number }
{
    Some(match number {
        0 => CursorRenderMode::Cell,
        1 => CursorRenderMode::Hidden,
        _ => return None,
    })
}

/// Returns the number of the render mode.
pub fn render_mode_number(mode: CursorRenderMode) -> u32
    ensures { render_mode_of result ≡ Some mode }
{
    match mode {
        CursorRenderMode::Cell => 0,
        CursorRenderMode::Hidden => 1,
    }
}

/// Returns the cursor's unit of this number.
pub fn read_cursor_unit(number: u32) -> Option<CursorUnit>
    ensures { result ≡ cursor_unit_of number }
{
    Some(match number {
        0 => CursorUnit::Character,
        1 => CursorUnit::Cluster,
        _ => return None,
    })
}

/// Returns the number of the cursor's unit.
pub fn cursor_unit_number(unit: CursorUnit) -> u32
    ensures { cursor_unit_of result ≡ Some unit }
{
    match unit {
        CursorUnit::Character => 0,
        CursorUnit::Cluster => 1,
    }
}
