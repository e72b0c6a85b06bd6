//! Splitting a row into spans at its borders.
ghost use Rattle.std.specs.Prelude.{◌≡◌, ◌*◌, ◌^◌, ◌<◌, ◌≤◌, [], ◌++◌, map, length, None, IsOk, OnOk, IsCharBoundary};
ghost use Rattle.textarea_screen.specs.Text.{span_view};
ghost use Rattle.textarea_highlight.specs.Borders.{ArePlacedWithin};
ghost use Rattle.textarea_highlight.specs.Columns.{IsColumnKnown};
ghost use Rattle.textarea_highlight.specs.Highlights.{end_cell};
ghost use Rattle.textarea_highlight.specs.Split.{IsAscending, AddsSegments, AddsSegment};

use super::borders::Border;
use super::brackets::OpenStyles;
use super::display::Display;
use std::alloc::AllocError;
use textarea_screen::screen::{Span, SpanText, Style};

/// Splits a row at each border from one of its offsets on and appends the segments to the spans,
/// each in the style after the borders before it. `styles` tracks the open styles.
pub fn split<'a>(
    display: Display,
    spans: &mut Vec<Span<'a>>,
    styles: &mut OpenStyles,
    row: &'a str,
    from: usize,
    borders: &[Border],
    base: Style,
) -> Result<(), AllocError>
    requires room { 255 * length row.now < 2 ^ 63 }
    requires placed { ArePlacedWithin row.now borders.now }
    requires ordered { IsAscending borders.now }
    requires from { IsCharBoundary row.now from }
    requires known { IsColumnKnown row.now display from }
    ensures added { OnOk result (AddsSegments row.now borders.now
        base display.tab_len display.mask from
        (map span_view spans.old.items) (map span_view spans.new.items)) }
    ensures nothing { row.now ≡ [] → borders.now ≡ [] → IsOk result }
{
    let mut display = display;
    styles.restart(base);
    let mut start = from;
    for border in borders {
        if row.len() < border.offset {
            break;
        }
        let end = border.offset.max(start);
        let segment_added = split_to(row, &mut display, styles, spans, start, end)?;
        styles.pass(border.mark)?;
        start = end;
    }
    split_to(row, &mut display, styles, spans, start, row.len())?;
    Ok(())
}

/// Appends the segment of the row between two offsets, if it is not empty.
fn split_to<'a>(
    row: &'a str,
    display: &mut Display,
    styles: &OpenStyles,
    spans: &mut Vec<Span<'a>>,
    from: usize,
    to: usize,
) -> Result<(), AllocError>
    requires order { from ≤ to }
    requires from_boundary { IsCharBoundary row.now from }
    requires to_boundary { IsCharBoundary row.now to }
    requires known { IsColumnKnown row.now display.old from }
    requires room { 255 * length row.now < 2 ^ 63 }
    ensures added { OnOk result (AddsSegment row.now display.old.tab_len display.old.mask
        styles.now from to (map span_view spans.old.items) (map span_view spans.new.items)) }
    ensures known { IsColumnKnown row.now display.new from }
    ensures tab { display.new.tab_len ≡ display.old.tab_len }
    ensures masked { display.new.mask ≡ display.old.mask }
    ensures nothing { from ≡ to → IsOk result }
{
    if from < to {
        let content = display.show(row, from, to)?;
        let style = styles.style();
        spans.push(Span { content, style })?;
    }
    Ok(())
}

/// Appends a blank in this style for the cell after the row, or nothing.
pub fn push_end_cell(spans: &mut Vec<Span<'_>>, style: Option<Style>) -> Result<(), AllocError>
    ensures added { OnOk result (map span_view spans.new.items
        ≡ map span_view spans.old.items ++ end_cell style) }
    ensures nothing { style ≡ None → IsOk result }
{
    if let Some(style) = style {
        let content = SpanText::Borrowed(" ");
        spans.push(Span { content, style })?;
    }
    Ok(())
}
