// Written by tools/calls from crates/textarea_calls/calls.txt.
//! The calls that are known by their name, or by it and a style.
ghost use Rattle.std.specs.Prelude.{IfSome};
ghost use Rattle.textarea_calls.specs.Possible.{CanBeMade};

use textarea_calls::Call;
use textarea_screen::screen::Style;

/// Returns the call of this name that only returns something.
pub(super) fn reading<'a>(name: &str) -> Option<Call<'a>>
    ensures { IfSome result CanBeMade }
{
    match name {
        "cursor" => Some(Call::Cursor),
        "is_empty" => Some(Call::IsEmpty),
        "is_selecting" => Some(Call::IsSelecting),
        "selection_range" => Some(Call::SelectionRange),
        "max_histories" => Some(Call::MaxHistories),
        "undo_coalescing" => Some(Call::UndoCoalescing),
        "undo_grouping" => Some(Call::UndoGrouping),
        "undo_ranges" => Some(Call::UndoRanges),
        "read_only" => Some(Call::ReadOnly),
        "single_line" => Some(Call::SingleLine),
        "max_chars" => Some(Call::MaxChars),
        "cursor_unit" => Some(Call::CursorUnit),
        "tab_length" => Some(Call::TabLength),
        "hard_tab_indent" => Some(Call::HardTabIndent),
        "wrap_mode" => Some(Call::WrapMode),
        "line_number_style" => Some(Call::LineNumberStyle),
        "alignment" => Some(Call::Alignment),
        "min_rows" => Some(Call::MinRows),
        "max_rows" => Some(Call::MaxRows),
        "placeholder_style" => Some(Call::PlaceholderStyle),
        "style" => Some(Call::Style),
        "cursor_style" => Some(Call::CursorStyle),
        "cursor_line_style" => Some(Call::CursorLineStyle),
        "cursor_line_number_style" => Some(Call::CursorLineNumberStyle),
        "selection_style" => Some(Call::SelectionStyle),
        "search_style" => Some(Call::SearchStyle),
        "mask_char" => Some(Call::MaskChar),
        "cursor_render_mode" => Some(Call::CursorRenderMode),
        "rendered_cursor_position" => Some(Call::RenderedCursorPosition),
        _ => None,
    }
}

/// Returns the call of this name that sets this style.
pub(super) fn setting_style<'a>(name: &str, style: Style) -> Option<Call<'a>>
    ensures { IfSome result CanBeMade }
{
    match name {
        "set_line_number_style" => Some(Call::SetLineNumberStyle(style)),
        "set_placeholder_style" => Some(Call::SetPlaceholderStyle(style)),
        "set_style" => Some(Call::SetStyle(style)),
        "set_cursor_style" => Some(Call::SetCursorStyle(style)),
        "set_cursor_line_style" => Some(Call::SetCursorLineStyle(style)),
        "set_cursor_line_number_style" => Some(Call::SetCursorLineNumberStyle(style)),
        "set_selection_style" => Some(Call::SetSelectionStyle(style)),
        "set_search_style" => Some(Call::SetSearchStyle(style)),
        _ => None,
    }
}
