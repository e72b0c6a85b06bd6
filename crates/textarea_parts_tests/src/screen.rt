//! Rectangles, blocks, styles, sets of bits, texts and cells, as tables.

use crate::blocks::{ALL, Sides, TITLED, block, line};
use crate::cases::check_each;
use bitflags::Flags;
use std::alloc::{AllocError, Global};
use std::test::Fail;
use textarea_screen::screen::{
    Alignment, Borders, Buffer, Cell, Color, Line, Modifier, Position, Rect, Span, SpanText, Style,
    Text,
};

/// Four numbers of a rectangle: its first column and row, its width and its height.
type Numbers = (u16, u16, u16, u16);

/// Requested areas, and the width and height that they get.
static AREAS: [(Numbers, (u16, u16)); 4] = [
    ((0, 0, 65535, 65535), (65535, 65535)),
    ((65535, 65535, 1, 1), (0, 0)),
    ((65534, 1, 5, 65535), (1, 65534)),
    ((10, 20, 30, 40), (30, 40)),
];

/// Positions, and whether they are in the rectangle of four columns and two rows from (2, 3) on.
static CELLS: [(u16, u16, bool); 6] = [
    (2, 3, true),
    (5, 4, true),
    (1, 3, false),
    (6, 3, false),
    (2, 2, false),
    (2, 5, false),
];

const PLAIN: Sides = (Borders::NONE, false, (0, 0, 0, 0));

const TOP_AND_LEFT: Borders = Borders(9);

const CORNERED: Sides = (TOP_AND_LEFT, true, (1, 2, 3, 4));

const WIDE: Sides = (Borders::ALL, false, (65535, 65535, 65535, 65535));

/// Blocks, areas, and the inner areas.
static INNER: [(Sides, Numbers, Numbers); 7] = [
    (PLAIN, (3, 4, 10, 5), (3, 4, 10, 5)),
    (ALL, (0, 0, 10, 5), (1, 1, 8, 3)),
    (TITLED, (0, 0, 10, 5), (0, 1, 10, 4)),
    (ALL, (0, 0, 1, 5), (1, 1, 0, 3)),
    (CORNERED, (10, 20, 30, 40), (12, 24, 26, 32)),
    (WIDE, (10, 20, 30, 40), (40, 60, 0, 0)),
    (TITLED, (0, 0, 10, 0), (0, 0, 10, 0)),
];

static MODIFIERS: [(&str, u16); 9] = [
    ("BOLD", 1),
    ("DIM", 2),
    ("ITALIC", 4),
    ("UNDERLINED", 8),
    ("SLOW_BLINK", 16),
    ("RAPID_BLINK", 32),
    ("REVERSED", 64),
    ("HIDDEN", 128),
    ("CROSSED_OUT", 256),
];

static BORDERS: [(&str, u8); 4] = [("TOP", 1), ("RIGHT", 2), ("BOTTOM", 4), ("LEFT", 8)];

/// Positions, and whether they are in the buffer from (65533, 7) on.
static BUFFERED: [(u16, u16, bool); 6] = [
    (65533, 7, true),
    (65534, 9, true),
    (65535, 7, false),
    (65532, 7, false),
    (65533, 6, false),
    (65533, 10, false),
];

/// Returns whether a rectangle has these numbers, and is empty only without columns or rows.
fn is_area(area: Rect, (x, y, width, height): Numbers) -> bool {
    (area.x(), area.y()) == (x, y)
        && (area.width(), area.height()) == (width, height)
        && area.is_empty() == (width == 0 || height == 0)
}

#[test]
fn rectangles(rt: HostRuntime) -> Result<(), Fail> {
    // They end at the greatest column and row.
    check_each(&rt, &AREAS, |_, ((x, y, width, height), retained)| {
        let area = Rect::new(*x, *y, *width, *height);
        Ok(is_area(area, (*x, *y, retained.0, retained.1)))
    })?;
    // They contain their cells.
    let area = Rect::new(2, 3, 4, 2);
    check_each(&rt, &CELLS, |_, (x, y, inside)| {
        Ok(area.contains(Position { x: *x, y: *y }) == *inside)
    })
}

fn inner(
    alloc: Global,
    sides: Sides,
    (x, y, width, height): Numbers,
) -> Result<Numbers, AllocError> {
    let inner = block(alloc, sides)?.inner(Rect::new(x, y, width, height));
    Ok((inner.x, inner.y, inner.width, inner.height))
}

#[test]
fn inside_of_a_block(rt: HostRuntime) -> Result<(), Fail> {
    check_each(&rt, &INNER, |alloc, (sides, area, wanted)| {
        Ok(inner(alloc, *sides, *area)? == *wanted)
    })
}

#[test]
fn styles_over_one_another(rt: HostRuntime) -> Result<(), Fail> {
    let red = Style::new().fg(Color::Red);
    let blue = Style::default().fg(Color::Blue).bg(Color::Rgb(1, 2, 3));
    let bold = Style::new().add_modifier(Modifier::BOLD);
    let not_bold = Style::new().remove_modifier(Modifier::BOLD);
    let styles = [
        (red, blue, blue),
        (blue, red, red.bg(Color::Rgb(1, 2, 3))),
        (blue, Style::new(), blue),
        (bold, not_bold, not_bold),
        (not_bold, bold, bold),
        (red, bold, red.add_modifier(Modifier::BOLD)),
        (
            bold,
            Style::new().add_modifier(Modifier::DIM),
            bold.add_modifier(Modifier::DIM),
        ),
    ];
    let both = bold.remove_modifier(Modifier::BOLD);
    assert!(rt; (both.add_modifier.0, both.sub_modifier.0) == (0, 1));
    check_each(&rt, &styles, |_, (under, over, wanted)| {
        Ok(under.patch(*over) == *wanted)
    })
}

#[test]
fn bits_of_the_sets(rt: HostRuntime) -> Result<(), Fail> {
    assert!(rt; (Borders::NONE.bits(), Borders::ALL.bits()) == (0, 15));
    assert!(rt; Borders::all() == Borders::ALL);
    assert!(rt; Borders::TOP.union(Borders::LEFT) == TOP_AND_LEFT);
    check_each(&rt, &MODIFIERS, |_, (name, bits)| {
        Ok(Modifier::from_name(name).is_some_and(|set| set.bits() == *bits))
    })?;
    check_each(&rt, &BORDERS, |_, (name, bits)| {
        Ok(Borders::from_name(name).is_some_and(|set| set.bits() == *bits))
    })
}

/// Returns a copy of a text of one line with an owned and a borrowed span.
fn copy_of_one_line(alloc: Global) -> Result<Text<'static>, AllocError> {
    let mut line = line(alloc, "title")?;
    line.spans.push(Span {
        content: SpanText::Borrowed("lent"),
        style: Style::new().fg(Color::Green),
    })?;
    let mut text = Text::new(alloc);
    text.style = Style::new().bg(Color::Indexed(7));
    text.lines.push(line)?;
    text.clone()
}

fn is_span(span: &Span<'_>) -> bool {
    let wanted = match span.content {
        SpanText::Owned(_) => ("title", Style::new()),
        SpanText::Borrowed(_) => ("lent", Style::new().fg(Color::Green)),
    };
    (span.content.as_str(), span.style) == wanted
}

fn are_two_spans(line: &Line<'_>) -> bool {
    for span in &line.spans {
        if !is_span(span) {
            return false;
        }
    }
    (line.spans.len(), line.style) == (2, Style::new())
}

fn is_one_line(text: &Text<'_>) -> bool {
    for line in &text.lines {
        if !are_two_spans(line) {
            return false;
        }
    }
    (text.lines.len(), text.style) == (1, Style::new().bg(Color::Indexed(7)))
}

#[test]
fn copies_of_texts(rt: HostRuntime) -> Result<(), Fail> {
    assert!(rt; is_one_line(&copy_of_one_line(rt.alloc())?));
    Ok(())
}

fn styled_cell() -> Cell {
    let mut cell = Cell::fresh();
    cell.modifier = Modifier::DIM;
    cell.set_style(
        Style::new()
            .fg(Color::White)
            .add_modifier(Modifier::REVERSED)
            .remove_modifier(Modifier::DIM),
    );
    cell
}

fn is_styled(cell: &Cell) -> bool {
    (cell.symbol(), cell.fg, cell.bg) == (" ", Color::White, Color::Reset)
        && cell.modifier == Modifier::REVERSED
}

#[test]
fn cells_of_a_buffer(rt: HostRuntime) -> Result<(), Fail> {
    let area = Rect::new(65533, 7, 4, 3);
    let buffer = Buffer::empty(rt.alloc(), area)?;
    assert!(rt; buffer.area() == area);
    check_each(&rt, &BUFFERED, |_, (x, y, inside)| {
        let symbol = buffer.cell(*x, *y).map(|cell| cell.symbol());
        Ok(symbol == if *inside { Some(" ") } else { None })
    })
}

#[test]
fn cells(rt: HostRuntime) {
    assert!(rt; is_styled(&styled_cell()));
    assert!(rt; Alignment::Left != Alignment::Right);
}
