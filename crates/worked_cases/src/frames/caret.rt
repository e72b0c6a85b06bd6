//! Where the caret of a frame must be, computed from scratch from the text area's public state.
use textarea_wrap::wrap::columns::display_column_after;
use tui_textarea::layout::LayoutMetrics;
use tui_textarea::wrap::{WrapCount, line_ranges};
use tui_textarea::{Alignment, Rect, TextArea, WrapMode};

/// Returns whether the caret must be visible in this inner area. `widest` is the width of the
/// widest grapheme cluster except tabs. Each whitespace cluster with a width must be one character.
pub fn is_caret_promised(area: &TextArea<'_>, inner: Rect, widest: usize) -> bool {
    if area.alignment() != Alignment::Left || inner.height() == 0 {
        return false;
    }
    let columns = layout_of(area, inner.width()).line_number_width();
    let width = usize::from(inner.width());
    if area.wrap_mode() == WrapMode::None {
        return columns.saturating_mul(2) < width;
    }
    let rest = width.saturating_sub(columns);
    2 <= rest && 1 <= area.tab_length() && widest_with_tabs(area, widest) < rest
}

/// Returns whether each character of the cursor's visual row has a display width above 0. The
/// cursor's line is wrapped for an inner area of this width.
pub fn is_wide_row(area: &TextArea<'_>, inner_width: u16) -> bool {
    let (row, column) = area.cursor();
    match area.lines().get(row) {
        Some(line) => is_wide(row_of(area, line, column, inner_width), area.tab_length()),
        None => false,
    }
}

fn layout_of(area: &TextArea<'_>, inner_width: u16) -> LayoutMetrics {
    let has_numbers = area.line_number_style().is_some();
    LayoutMetrics::new(
        inner_width,
        area.lines().len(),
        has_numbers,
        area.wrap_mode(),
    )
}

// The width of the widest cluster, with a tab at its full length.
fn widest_with_tabs(area: &TextArea<'_>, widest: usize) -> usize {
    if has_tab(area) {
        widest.max(usize::from(area.tab_length()))
    } else {
        widest
    }
}

/// Returns whether the text has a tab.
pub fn has_tab(area: &TextArea<'_>) -> bool {
    area.lines().iter().any(|line| line.contains('\t'))
}

// The visual row of a line that has a column; the whole line if it isn't wrapped.
fn row_of<'a>(area: &TextArea<'_>, line: &'a String, column: usize, inner_width: u16) -> &'a str {
    let Some(width) = layout_of(area, inner_width).wrap_width() else {
        return line;
    };
    let mut count = WrapCount::new();
    let alloc = *line.allocator();
    let Ok(rows) = line_ranges(
        alloc,
        line,
        area.wrap_mode(),
        width,
        area.tab_length(),
        &mut count,
    ) else {
        return line;
    };
    let byte = line
        .char_indices()
        .nth(column)
        .map_or(line.len(), |(at, _)| at);
    let mut found = line.as_str();
    for (start, end) in rows.as_slice() {
        if *start <= byte {
            found = line.get(*start..*end).unwrap_or(line);
        }
    }
    found
}

// Whether each character has a display width above 0.
fn is_wide(text: &str, tab_length: u8) -> bool {
    text.chars().all(|character| 0 < display_column_after(character, 0, tab_length))
}
