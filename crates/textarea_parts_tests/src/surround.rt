//! Tables of calls for block, placeholder and heights, and of the getters' results after them.

use crate::blocks::{ALL, Sides, TITLED, block, push_line, push_spans};
use crate::cases::check_each;
use crate::surround::Step::*;
use std::alloc::{AllocError, Global};
use std::test::Fail;
use textarea_screen::screen::{Borders, Color, Line, Style, Text};
use textarea_view::Surround;

const LEFT: Sides = (Borders::LEFT, false, (0, 0, 0, 0));

const PADDED: Sides = (Borders::TOP, true, (1, 2, 3, 4));

const TALL: Sides = (Borders::NONE, false, (0, 0, 65535, 65535));

const FRAMED: Sides = (Borders::ALL, true, (0, 0, 0, 0));

/// A call that changes the state, or a check of a getter's result.
#[derive(Clone, Copy)]
enum Step {
    SetMinRows(u16),
    SetMaxRows(u16),
    SetBlock(Sides),
    RemoveBlock,
    SetPlaceholderText(&'static str),
    SetPlaceholderColor(Color),
    /// Sets a placeholder of these lines, in red.
    SetPlaceholder(&'static [&'static str]),
    /// Sets a placeholder of a line of these spans and of the lines below it, in red.
    SetPlaceholderOfSpans(&'static [&'static str], &'static [&'static str]),
    /// Checks the least and the greatest height.
    Heights(u16, u16),
    /// Checks, for a width, the rows of a text there and whether it is empty: the content's rows,
    /// the preferred rows, and the least and the greatest height.
    Measure((u16, usize, bool), (u16, u16, u16, u16)),
    /// Checks, for a width, the inner width and the rows that the block takes.
    Around(u16, (u16, u16)),
    /// Checks the borders of the block, and whether it has a title.
    HasBlock(Option<(Borders, bool)>),
    /// Checks the text of the placeholder, the number of its lines, and its colour.
    Placeholder(&'static str, usize, Option<Color>),
    /// Checks the colour of the placeholder, with lines or without.
    PlaceholderColor(Color),
}

/// Steps from a new state.
static RUNS: [&[Step]; 13] = [
    // Setting heights.
    &[Heights(1, 65535)],
    &[SetMinRows(1), SetMaxRows(65535), Heights(1, 65535)],
    &[SetMaxRows(2), SetMinRows(5), Heights(5, 5)],
    &[SetMinRows(5), SetMaxRows(2), Heights(5, 5)],
    &[SetMinRows(0), SetMaxRows(9), Heights(1, 9)],
    &[SetMinRows(0), SetMaxRows(0), Heights(1, 1)],
    &[SetMaxRows(0), SetMinRows(0), Heights(1, 1)],
    &[SetMinRows(7), SetMinRows(3), Heights(3, 65535)],
    &[SetMaxRows(3), SetMaxRows(7), Heights(1, 7)],
    // Measuring heights.
    &[
        Measure((5, 2, false), (2, 2, 1, 65535)),
        Measure((5, 1, true), (1, 1, 1, 65535)),
        Measure((5, 65535, false), (65535, 65535, 1, 65535)),
        Measure((5, 70000, false), (65535, 65535, 1, 65535)),
        SetPlaceholder(&["a", "b", "c"]),
        Measure((5, 1, true), (3, 3, 1, 65535)),
        Measure((5, 5, true), (3, 3, 1, 65535)),
        Measure((5, 2, false), (2, 2, 1, 65535)),
        SetMinRows(3),
        SetMaxRows(4),
        Measure((5, 1, false), (1, 3, 3, 4)),
        Measure((5, 4, false), (4, 4, 3, 4)),
        Measure((5, 9, false), (9, 4, 3, 4)),
    ],
    // Measuring with a block.
    &[
        Around(7, (7, 0)),
        SetBlock(ALL),
        Around(7, (5, 2)),
        Measure((7, 2, false), (2, 4, 3, 65535)),
        SetBlock(LEFT),
        Around(7, (6, 0)),
        Measure((7, 2, false), (2, 2, 1, 65535)),
        SetBlock(TITLED),
        Around(7, (7, 1)),
        Measure((7, 2, false), (2, 3, 2, 65535)),
        SetBlock(PADDED),
        Around(7, (4, 8)),
        Measure((7, 2, false), (2, 10, 9, 65535)),
        SetBlock(TALL),
        Around(7, (7, 65535)),
        Measure((7, 2, false), (2, 65535, 65535, 65535)),
        SetBlock(ALL),
        SetMaxRows(2),
        Around(1, (0, 2)),
        HasBlock(Some((Borders::ALL, false))),
        Measure((7, 9, false), (9, 3, 3, 3)),
        RemoveBlock,
        HasBlock(None),
        Measure((7, 9, false), (9, 2, 1, 2)),
    ],
    // Placeholders.
    &[
        PlaceholderColor(Color::DarkGray),
        SetPlaceholderText(""),
        Placeholder("", 0, None),
        SetPlaceholderText("hello"),
        Placeholder("hello", 1, Some(Color::DarkGray)),
        SetPlaceholderText("two\nlines"),
        Placeholder("two\nlines", 1, Some(Color::DarkGray)),
        SetPlaceholderText(""),
        Placeholder("", 0, None),
        SetPlaceholderColor(Color::Green),
        Placeholder("", 0, None),
        SetPlaceholderText("hello"),
        Placeholder("hello", 1, Some(Color::Green)),
        SetPlaceholder(&["a", "b"]),
        Placeholder("a", 2, Some(Color::Red)),
        SetPlaceholder(&[]),
        Placeholder("", 0, None),
    ],
    // The text of the first span.
    &[
        SetPlaceholderOfSpans(&["lent"], &["below"]),
        Placeholder("lent", 2, Some(Color::Red)),
        SetPlaceholderOfSpans(&["lent", "behind"], &["below"]),
        Placeholder("lent", 2, Some(Color::Red)),
        SetPlaceholderOfSpans(&[], &[]),
        Placeholder("", 1, Some(Color::Red)),
    ],
];

/// The calls before a copy.
static SET: [Step; 4] = [
    SetBlock(FRAMED),
    SetPlaceholderText("hello"),
    SetMaxRows(9),
    SetMinRows(2),
];

/// The checks of the copy.
static COPIED: [Step; 4] = [
    HasBlock(Some((Borders::ALL, true))),
    Placeholder("hello", 1, Some(Color::DarkGray)),
    Heights(2, 9),
    Measure((7, 2, true), (1, 3, 3, 9)),
];

fn colored(color: Color) -> Style {
    Style::new().fg(color)
}

/// Sets a placeholder of a line of spans, if there is one, and of lines below it, in red.
fn set_lines(
    alloc: Global,
    surround: &mut Surround<'static>,
    spans: Option<&[&'static str]>,
    lines: &[&str],
) -> Result<(), AllocError> {
    let mut text: Text<'static> = Text::new(alloc);
    text.style = colored(Color::Red);
    if let Some(spans) = spans {
        let mut line = Line::new(alloc);
        push_spans(&mut line, spans)?;
        text.lines.push(line)?;
    }
    for words in lines {
        push_line(alloc, &mut text, words)?;
    }
    surround.set_styled_placeholder(text);
    Ok(())
}

fn measure(surround: &Surround<'_>, text: (u16, usize, bool)) -> (u16, u16, u16, u16) {
    let measure = surround.measure(text.0, text.1, text.2);
    let content = (measure.content_rows, measure.preferred_rows);
    (content.0, content.1, measure.min_rows, measure.max_rows)
}

/// Returns whether the check passes.
fn reads_back(surround: &Surround<'_>, reported: Step) -> bool {
    match reported {
        Heights(min, max) => (surround.min_rows(), surround.max_rows()) == (min, max),
        Measure(text, wanted) => measure(surround, text) == wanted,
        Around(width, wanted) => (surround.inner_width(width), surround.chrome(width)) == wanted,
        HasBlock(wanted) => {
            let block = surround.block();
            block.map(|block| (block.borders, block.title.is_some())) == wanted
        }
        Placeholder(text, rows, color) => {
            surround.placeholder_text() == text
                && surround.placeholder_rows() == rows
                && surround.placeholder_style() == color.map(colored)
        }
        PlaceholderColor(color) => surround.placeholder().style == colored(color),
        _ => false,
    }
}

/// Makes the call, or returns whether the check passes.
fn take(alloc: Global, surround: &mut Surround<'static>, step: Step) -> Result<bool, AllocError> {
    match step {
        SetMinRows(rows) => surround.set_min_rows(rows),
        SetMaxRows(rows) => surround.set_max_rows(rows),
        SetBlock(sides) => surround.set_block(block(alloc, sides)?),
        RemoveBlock => surround.remove_block(),
        SetPlaceholderText(text) => surround.set_placeholder_text(text)?,
        SetPlaceholderColor(color) => surround.set_placeholder_style(colored(color)),
        SetPlaceholder(texts) => set_lines(alloc, surround, None, texts)?,
        SetPlaceholderOfSpans(spans, below) => set_lines(alloc, surround, Some(spans), below)?,
        _ => return Ok(reads_back(surround, step)),
    }
    Ok(true)
}

fn take_all(
    alloc: Global,
    surround: &mut Surround<'static>,
    steps: &[Step],
) -> Result<bool, AllocError> {
    for step in steps {
        if !take(alloc, surround, *step)? {
            return Ok(false);
        }
    }
    Ok(true)
}

/// Returns whether a copy passes its checks, also after the original is changed.
fn is_copied(alloc: Global) -> Result<bool, AllocError> {
    let mut surround = Surround::new(alloc);
    take_all(alloc, &mut surround, &SET)?;
    let copied = surround.clone()?;
    surround.remove_block();
    surround.set_placeholder_text("")?;
    Ok(COPIED.iter().all(|reported| reads_back(&copied, *reported)))
}

#[test]
fn reported_after_calls_and_by_copies(rt: HostRuntime) -> Result<(), Fail> {
    check_each(&rt, &RUNS, |alloc, steps| {
        take_all(alloc, &mut Surround::new(alloc), steps)
    })?;
    assert!(rt; is_copied(rt.alloc())?);
    Ok(())
}
