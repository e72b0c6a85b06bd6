//! A placeholder, drawn instead of the visual rows.
ghost use Rattle.std.specs.Prelude.{◌≡◌, IfOk, IsOk, OnErr, OnOk, take};
ghost use Rattle.textarea_view.specs.Prelude.{area_of, Changes, KeepsOutside, contains, is_in_row, line_view, text_view, AreInline, row_clusters, row_cell, lines_change, rows_above_end, AreLinesInline, after_cursor, cell_of_line, in_placeholder_style, borrowed_line, placeholder_lines};

use super::rows_above_end;
use std::alloc::{AllocError, Global};
use textarea_highlight::highlight::CursorCellRender;
use textarea_paint::paint::row::{RowArea, draw_row};
use textarea_screen::screen::{Buffer, Line, Span, Style, Text};

/// Draws a placeholder's lines into the rows of the area, while area and buffer have rows.
///
/// If the cursor's cell is drawn, one blank in the cursor's style is before the first line; that
/// line is then built of borrowed texts, and else nothing is built. A cell without a grapheme
/// cluster is unchanged. After out of memory, cells of the area may be changed already.
pub fn draw_placeholder(
    alloc: Global,
    buffer: &mut Buffer,
    rows: RowArea,
    placeholder: &Text<'_>,
    cursor_cell: CursorCellRender,
) -> Result<(), AllocError>
    ensures ok { OnOk result (Changes buffer.old buffer.new
        (lines_change (in_placeholder_style rows placeholder.now.style) rows.area.y
        (take (rows_above_end rows.area (area_of buffer.old))
        (placeholder_lines cursor_cell (text_view placeholder.now).lines)))) }
    ensures inline { cursor_cell ≡ CursorCellRender.Hidden
        → AreLinesInline (in_placeholder_style rows placeholder.now.style).style
        (text_view placeholder.now).lines
        → IsOk result }
    ensures err { OnErr result (KeepsOutside (contains rows.area) buffer.old buffer.new) }
{
    let styled = in_style(rows, placeholder.style);
    let room = rows_above_end(rows.area, buffer.area());
    let count = placeholder.lines.len().min(usize::from(room));
    for i in 0..count {
        let cell = cell_of_line(cursor_cell, i);
        let line = &placeholder.lines[i];
        draw_line(alloc, buffer, styled, rows.area.y() + i as u16, line, cell)?;
    }
    Ok(())
}

// Returns the rows with a style over their own.
fn in_style(rows: RowArea, style: Style) -> RowArea
    ensures { result ≡ in_placeholder_style rows style }
{
    RowArea {
        style: rows.style.patch(style),
        ..rows
    }
}

// Returns how the cursor's cell is drawn before this line: only the first line has it.
fn cell_of_line(cursor_cell: CursorCellRender, line: usize) -> CursorCellRender
    ensures { result ≡ cell_of_line cursor_cell line }
{
    if line == 0 {
        cursor_cell
    } else {
        CursorCellRender::Hidden
    }
}

// Draws a line, after the cursor's cell if that is drawn.
fn draw_line(
    alloc: Global,
    buffer: &mut Buffer,
    rows: RowArea,
    y: u16,
    line: &Line<'_>,
    cursor_cell: CursorCellRender,
) -> Result<(), AllocError>
    ensures ok { OnOk result (Changes buffer.old buffer.new
        (row_cell rows y (after_cursor cursor_cell (line_view line.now)))) }
    ensures inline { cursor_cell ≡ CursorCellRender.Hidden
        → AreInline (row_clusters rows.style (line_view line.now)) → IsOk result }
    ensures err { OnErr result (KeepsOutside (is_in_row rows.area y) buffer.old buffer.new) }
{
    match cursor_cell {
        CursorCellRender::Draw(style) => {
            let displayed = after_blank(alloc, line, style)?;
            draw_row(buffer, rows, y, &displayed)
        }
        CursorCellRender::Hidden => draw_row(buffer, rows, y, line),
    }
}

// Returns a line of one blank in a style and then the line's spans, their texts borrowed.
fn after_blank<'t>(alloc: Global, line: &'t Line<'_>, style: Style) -> Result<Line<'t>, AllocError>
    ensures { IfOk result (λ displayed. line_view displayed
        ≡ after_cursor (CursorCellRender.Draw style) (borrowed_line (line_view line.now))) }
{
    let mut spans = Vec::new(alloc);
    spans.push(Span::styled(" ", style))?;
    for span in &line.spans {
        spans.push(Span::styled(span.content.as_str(), span.style))?;
    }
    Ok(Line {
        spans,
        style: line.style,
    })
}
