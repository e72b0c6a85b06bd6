//! Prints what no call returns of a text area and a buffer.
use crate::differences::{Differences, ranges_text, styles_text};
use crate::stop::Stop;
use std::alloc::{AllocError, Global};
use tui_textarea::{Buffer, CursorUnit, TextArea};

/// Returns the text for a line that asks for more than a call returns: `unprinted`, `atomic_ranges`
/// or `viewport` of the text area, or `styles` of the cells in an area of the buffer.
pub fn report_text(
    alloc: Global,
    area: &TextArea<'_>,
    buffer: &Buffer,
    line: &str,
) -> Result<Option<String>, Stop> {
    match line {
        "unprinted" => Ok(Some(unprinted(alloc, area)?)),
        "atomic_ranges" => Ok(Some(ranges_text(alloc, area.atomic_ranges())?)),
        "viewport" => Ok(Some(viewport_text(alloc, area)?)),
        _ => match line.strip_prefix("styles ") {
            Some(place) => Ok(Some(styles_text(alloc, buffer, place)?)),
            None => Ok(None),
        },
    }
}

fn viewport_text(alloc: Global, area: &TextArea<'_>) -> Result<String, AllocError> {
    let viewport = area.viewport();
    let (top, left) = viewport.scroll_top();
    let (row, column, width, height) = viewport.rect();
    let (first, start, last, end) = viewport.position();
    format!(in alloc; "{top} {left}; {row} {column} {width} {height}; {first} {start} {last} {end}")
}

// The settings and states that differ from those of a new text area with a text.
fn unprinted(alloc: Global, area: &TextArea<'_>) -> Result<String, AllocError> {
    let mut differences = Differences::new(alloc);
    tell(&mut differences, area)?;
    differences.report(alloc)
}

fn tell(differences: &mut Differences, area: &TextArea<'_>) -> Result<(), AllocError> {
    differences.flag(area.is_empty(), "empty")?;
    differences.flag(area.is_selecting(), "selecting")?;
    differences.number(usize::from(area.tab_length()), 4, "tab_length")?;
    differences.indent(area.indent())?;
    differences.flag(area.hard_tab_indent(), "hard_tab_indent")?;
    differences.flag(area.undo_coalescing(), "undo_coalescing")?;
    differences.flag(area.undo_grouping(), "undo_grouping")?;
    differences.flag(area.undo_ranges(), "undo_ranges")?;
    differences.flag(area.read_only(), "read_only")?;
    differences.flag(area.single_line(), "single_line")?;
    differences.number(
        area.max_chars().unwrap_or(usize::MAX),
        usize::MAX,
        "max_chars",
    )?;
    differences.flag(area.cursor_unit() == CursorUnit::Cluster, "clusters")?;
    differences.number(area.max_histories(), 50, "max_histories")?;
    differences.mode(area.wrap_mode())?;
    differences.style(area.line_number_style(), "line_number_style")?;
    differences.pattern(area.search_pattern())?;
    differences.ranges(area.atomic_ranges())?;
    differences.flag(area.block().is_some(), "block")?;
    differences.number(usize::from(area.min_rows()), 1, "min_rows")?;
    differences.number(usize::from(area.max_rows()), 65535, "max_rows")?;
    differences.placeholder(area.placeholder().lines.len(), area.placeholder_text())?;
    differences.style(area.placeholder_style(), "placeholder_style")
}
