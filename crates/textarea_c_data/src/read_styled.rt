//! Styled texts and blocks that C passes.
ghost use Rattle.std.specs.Prelude.{◌≡◌, ◌≤◌, ◌+◌, IfOk, IfSome, length, map, option_map, slice_range};
ghost use Rattle.textarea_screen.specs.Block.{block_view};
ghost use Rattle.textarea_screen.specs.Text.{line_view, span_view, text_view};
ghost use Rattle.textarea_c_data.specs.Spans.{block_read, line_read, lines_read, own_spans_read, span_read, spans_end, spans_read, text_read, whole_line};
ghost use Rattle.textarea_c_data.specs.Styles.{style_of_numbers};
ghost use Rattle.textarea_c_data.specs.Texts.{items_between, text_between};

use crate::slices::{end_of, text_between};
use crate::spans::{CBlock, CLine, CSpan};
use crate::style::CStyle;
use std::alloc::{AllocError, Global};
use textarea_screen::screen;
use textarea_screen::screen::{Borders, SpanText};

/// Returns the spans whose texts follow one another from byte `start` on, and the byte after them;
/// `None` if a text is not in the slice or not UTF-8, or a style has a colour that does not exist.
fn read_spans(
    alloc: Global,
    text: &[u8],
    start: usize,
    spans: &[CSpan],
) -> Result<Option<(Vec<screen::Span<'static>>, usize)>, AllocError>
    ensures spans { IfOk result (λ read. option_map (λ r. map span_view r.0.items) read
        ≡ spans_read text.now start spans.now) }
    ensures end { IfOk result (λ read. IfSome read (λ r. r.1 ≡ spans_end start spans.now)) }
{
    let mut read = Vec::new(alloc);
    let mut from = start;
    for span in spans {
        let Some((own, end)) = read_span(alloc, text, from, *span)? else {
            return Ok(None);
        };
        read.push(own)?;
        from = end;
    }
    Ok(Some((read, from)))
}

// Returns the span whose text begins at byte `start`, and the byte after it; `None` as
// `read_spans`.
fn read_span(
    alloc: Global,
    text: &[u8],
    start: usize,
    span: CSpan,
) -> Result<Option<(screen::Span<'static>, usize)>, AllocError>
    ensures span { IfOk result (λ read. option_map (λ r. span_view r.0) read
        ≡ span_read (text_between text.now start (start + span.bytes)) span) }
    ensures end { IfOk result (λ read. IfSome read (λ r. r.1 ≡ start + span.bytes)) }
{
    let Some(end) = end_of(start, span.bytes, text.len()) else {
        return Ok(None);
    };
    let Some(content) = text_between(text, start, end) else {
        return Ok(None);
    };
    let Some(style) = span.style.read() else {
        return Ok(None);
    };
    let content = SpanText::Owned(String::from_str(alloc, content)?);
    Ok(Some((screen::Span { content, style }, end)))
}

/// Returns the lines whose spans are these, in this style; `None` if the spans are not exactly
/// those of the lines, their texts not exactly `text`, or a style has a colour that does not exist.
pub fn read_text(
    alloc: Global,
    text: &[u8],
    spans: &[CSpan],
    lines: &[CLine],
    style: CStyle,
) -> Result<Option<screen::Text<'static>>, AllocError>
    ensures { IfOk result (λ read. option_map (λ t. text_view t) read
        ≡ text_read text.now spans.now lines.now (style_of_numbers style)) }
{
    let Some(style) = style.read() else {
        return Ok(None);
    };
    match read_lines(alloc, text, spans, lines)? {
        Some(lines) => Ok(Some(screen::Text { lines, style })),
        None => Ok(None),
    }
}

// Returns the lines whose spans are these; `None` as `read_text`.
fn read_lines(
    alloc: Global,
    text: &[u8],
    spans: &[CSpan],
    lines: &[CLine],
) -> Result<Option<Vec<screen::Line<'static>>>, AllocError>
    ensures { IfOk result (λ read. option_map (λ r. map line_view r.items) read
        ≡ lines_read text.now 0 spans.now 0 lines.now) }
{
    let mut read = Vec::new(alloc);
    let mut from: usize = 0;
    let mut first: usize = 0;
    for line in lines {
        let Some((own, after)) = read_next_line(alloc, text, from, spans, first, *line)? else {
            return Ok(None);
        };
        read.push(own)?;
        from = after;
        first += line.spans;
    }
    if from == text.len() && first == spans.len() {
        Ok(Some(read))
    } else {
        Ok(None)
    }
}

// Returns the line whose spans begin at index `first` and whose text begins at byte `start`, and the
// byte after it; `None` as `read_text`.
fn read_next_line(
    alloc: Global,
    text: &[u8],
    start: usize,
    spans: &[CSpan],
    first: usize,
    line: CLine,
) -> Result<Option<(screen::Line<'static>, usize)>, AllocError>
    ensures line { IfOk result (λ read. option_map (λ r. line_view r.0) read
        ≡ line_read (own_spans_read text.now start
        (items_between spans.now first (first + line.spans))) (style_of_numbers line.style)) }
    ensures end { IfOk result (λ read. IfSome read (λ r. r.1
        ≡ spans_end start (slice_range spans.now first (first + line.spans)))) }
    ensures within { IfOk result (λ read. IfSome read
        (λ _. first + line.spans ≤ length spans.now)) }
{
    let Some(end) = end_of(first, line.spans, spans.len()) else {
        return Ok(None);
    };
    read_line(alloc, text, start, &spans[first..end], line.style)
}

// Returns the line of these spans, in this style, and the byte after them; `None` as `read_spans`.
fn read_line(
    alloc: Global,
    text: &[u8],
    start: usize,
    spans: &[CSpan],
    style: CStyle,
) -> Result<Option<(screen::Line<'static>, usize)>, AllocError>
    ensures line { IfOk result (λ read. option_map (λ r. line_view r.0) read
        ≡ line_read (spans_read text.now start spans.now) (style_of_numbers style)) }
    ensures end { IfOk result (λ read. IfSome read (λ r. r.1 ≡ spans_end start spans.now)) }
{
    let Some((spans, end)) = read_spans(alloc, text, start, spans)? else {
        return Ok(None);
    };
    match style.read() {
        Some(style) => Ok(Some((screen::Line { spans, style }, end))),
        None => Ok(None),
    }
}

/// Returns the block with this title, if it has one; `None` if the texts of the spans are not
/// exactly `title`, or a style has a colour that does not exist.
pub fn read_block(
    alloc: Global,
    block: CBlock,
    title: &[u8],
    spans: &[CSpan],
) -> Result<Option<screen::Block<'static>>, AllocError>
    ensures { IfOk result (λ read. option_map (λ b. block_view b) read
        ≡ block_read block title.now spans.now) }
{
    let Some(style) = block.style.read() else {
        return Ok(None);
    };
    let Some(border_style) = block.border_style.read() else {
        return Ok(None);
    };
    let Some(line) = read_whole_line(alloc, title, spans, block.title_style)? else {
        return Ok(None);
    };
    Ok(Some(screen::Block {
        borders: Borders(block.borders),
        padding: block.padding.read(),
        title: if block.has_title { Some(line) } else { None },
        style,
        border_style,
    }))
}

// Returns the line of these spans, whose texts are all of `text`; `None` as `read_text`.
fn read_whole_line(
    alloc: Global,
    text: &[u8],
    spans: &[CSpan],
    style: CStyle,
) -> Result<Option<screen::Line<'static>>, AllocError>
    ensures { IfOk result (λ read. option_map (λ line. line_view line) read
        ≡ whole_line text.now spans.now (style_of_numbers style)) }
{
    let Some((line, end)) = read_line(alloc, text, 0, spans, style)? else {
        return Ok(None);
    };
    if end == text.len() {
        Ok(Some(line))
    } else {
        Ok(None)
    }
}
