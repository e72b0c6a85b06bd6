//! Styled texts and blocks that C gets.
ghost use Rattle.std.specs.Prelude.{◌≡◌, ℕ, ◌+◌, length, map, option_map};
ghost use Rattle.textarea_screen.specs.Block.{block_view};
ghost use Rattle.textarea_screen.specs.Text.{line_view, span_view};
ghost use Rattle.textarea_c_data.specs.Copied.{saturated, copied_over, written_at};
ghost use Rattle.textarea_c_data.specs.Spans.{AreSpansOut, joined_texts, block_for_c, line_for_c, plain_span, spans_of, title_spans};

use crate::area::CPadding;
use crate::slices::{copy_at, put};
use crate::spans::{CBlock, CLine, CSpan};
use crate::style::CStyle;
use textarea_screen::screen;

/// Returns the block without its title's spans.
pub fn block_of(block: &screen::Block<'static>) -> CBlock
    ensures { result ≡ block_for_c (block_view block.now) }
{
    let title_style = match &block.title {
        Some(title) => title.style,
        None => screen::Style::new(),
    };
    CBlock {
        borders: block.borders.0,
        has_title: block.title.is_some(),
        padding: CPadding::of(block.padding),
        style: CStyle::of(block.style),
        border_style: CStyle::of(block.border_style),
        title_style: CStyle::of(title_style),
    }
}

/// Writes the spans of the title and their texts, as many as there is room for. Returns the numbers
/// of bytes and spans, 0 without a title.
pub fn write_title(
    title: &Option<screen::Line<'static>>,
    text: &mut [u8],
    spans: &mut [CSpan],
) -> (usize, usize)
    ensures { AreSpansOut (title_spans (option_map line_view title.now)) text.old text.new result.0
        spans.old spans.new result.1 }
{
    match title {
        Some(line) => write_spans(line.spans.as_slice(), 0, 0, text, spans),
        None => (0, 0),
    }
}

/// Writes the lines, their spans and the texts of these, as many as there is room for. Returns the
/// numbers of bytes and spans.
pub fn write_lines(
    content: &[screen::Line<'static>],
    text: &mut [u8],
    spans: &mut [CSpan],
    lines: &mut [CLine],
) -> (usize, usize)
    ensures spans { AreSpansOut (spans_of (map line_view content.now)) text.old text.new result.0
        spans.old spans.new result.1 }
    ensures lines { lines.new ≡ copied_over lines.old (map line_for_c (map line_view content.now)) }
{
    let mut used = (0, 0);
    for (row, line) in content.iter().enumerate() {
        let own = line.spans.as_slice();
        used = write_spans(own, used.0, used.1, text, spans);
        let plain = CLine {
            spans: own.len(),
            style: CStyle::of(line.style),
        };
        put(plain, row, lines);
    }
    used
}

// Writes the texts of the spans to the byte `start` and those after it, and the spans to the index
// `first` and those after it, as many as there is room for. Returns the byte and the index after
// them, or the greatest number.
fn write_spans(
    spans: &[screen::Span<'static>],
    start: usize,
    first: usize,
    text: &mut [u8],
    out: &mut [CSpan],
) -> (usize, usize)
    ensures text { (at : ℕ) → start ≡ saturated at
        → text.new ≡ written_at at text.old (joined_texts (map span_view spans.now)) }
    ensures bytes { (at : ℕ) → start ≡ saturated at
        → result.0 ≡ saturated (at + length (joined_texts (map span_view spans.now))) }
    ensures spans { (at : ℕ) → first ≡ saturated at
        → out.new ≡ written_at at out.old (map plain_span (map span_view spans.now)) }
    ensures count { (at : ℕ) → first ≡ saturated at
        → result.1 ≡ saturated (at + length spans.now) }
{
    let mut bytes = start;
    let mut count = first;
    for span in spans {
        let content = span.content.as_str().as_bytes();
        let plain = CSpan {
            bytes: content.len(),
            style: CStyle::of(span.style),
        };
        copy_at(content, bytes, text);
        put(plain, count, out);
        bytes = bytes.saturating_add(plain.bytes);
        count = count.saturating_add(1);
    }
    (bytes, count)
}
