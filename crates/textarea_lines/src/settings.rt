//! Settings that determine how the lines of a text are wrapped.
ghost use Rattle.std.specs.Prelude.{◌≡◌};
ghost use Rattle.textarea_lines.specs.Wrappings.{wrapped_at_width, is_same_wrapping, is_wrapped, wrapping_for};

use textarea_screen_map::layout::Wrapping;
use textarea_wrap::layout::LayoutMetrics;
use textarea_wrap::wrap::WrapMode;

/// How lines are wrapped: the mode, the columns between tab stops, whether lines have line numbers,
/// and the columns of the inner area, line numbers included. With 0 columns no line is wrapped.
#[derive(Clone, Copy, Debug, PartialEq, Eq)]
pub struct LayoutSettings {
    pub mode: WrapMode,
    pub tab_len: u8,
    pub line_numbers: bool,
    pub inner_width: u16,
}

/// Returns whether lines are wrapped. If not, each line is one row.
pub fn is_wrapped(settings: LayoutSettings) -> bool
    ensures { result ≡ is_wrapped settings }
{
    settings.inner_width != 0 && settings.mode != WrapMode::None
}

/// Returns how a text of `line_count` lines is wrapped. Each digit of line numbers takes a column.
pub fn wrapping_for(settings: LayoutSettings, line_count: usize) -> Wrapping
    ensures { result ≡ wrapping_for settings line_count }
{
    if is_wrapped(settings) {
        return wrapping_at(settings, settings.inner_width, line_count);
    }
    Wrapping {
        mode: WrapMode::None,
        width: 1,
        tab_len: settings.tab_len,
    }
}

/// Returns how a text of `line_count` lines would be wrapped in an inner area of this width, in
/// columns. If line numbers leave no column, the width is 1.
pub fn wrapping_at(settings: LayoutSettings, inner_width: u16, line_count: usize) -> Wrapping
    ensures { result ≡ wrapped_at_width settings inner_width line_count }
{
    let metrics = LayoutMetrics::new(
        inner_width,
        line_count,
        settings.line_numbers,
        settings.mode,
    );
    Wrapping {
        mode: settings.mode,
        width: metrics.wrap_width().unwrap_or(1),
        tab_len: settings.tab_len,
    }
}

/// Returns whether both wrap lines alike. Width and tab stops matter only if the mode wraps.
pub fn is_same(one: Wrapping, other: Wrapping) -> bool
    ensures { result ≡ is_same_wrapping one other }
{
    one.mode == other.mode && (one.mode == WrapMode::None || one == other)
}
