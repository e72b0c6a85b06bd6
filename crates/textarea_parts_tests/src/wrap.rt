//! Visual rows of lines, worked by hand from the rules, and the numbers of some layouts.
use crate::cases::check_each;
use std::alloc::{AllocError, Global};
use std::test::Fail;
use textarea_wrap::layout::LayoutMetrics;
use textarea_wrap::wrap::columns::{
    column_after, column_after_text, display_column_after, display_column_after_text, fits_width,
    plain_columns,
};
use textarea_wrap::wrap::{WrapCount, WrapMode, line_ranges};

/// A line, a mode, a width, a tab length, and the texts of the visual rows, each followed by a bar.
type Wrapped = (&'static str, WrapMode, usize, u8, &'static str);

static LINES: [Wrapped; 23] = [
    // Words.
    ("abcdef ghi", WrapMode::Word, 6, 4, "abcdef |ghi|"),
    ("abcd    x", WrapMode::Word, 6, 4, "abcd  |  x|"),
    ("abc  def", WrapMode::Word, 3, 4, "abc|  |def|"),
    ("abcdef gh", WrapMode::WordOrGlyph, 4, 4, "abcd|ef| gh|"),
    ("abcdef", WrapMode::WordOrGlyph, 4, 4, "abcd|ef|"),
    ("a\tb", WrapMode::Word, 3, 4, "a\t|b|"),
    ("a b", WrapMode::Word, 0, 0, "a |b|"),
    ("", WrapMode::Word, 0, 4, "|"),
    // Grapheme clusters.
    ("abcdefg", WrapMode::Glyph, 7, 4, "abcdefg|"),
    ("abcdefg", WrapMode::Glyph, 6, 4, "abcdef|g|"),
    ("abc", WrapMode::Glyph, 0, 4, "a|b|c|"),
    ("e\u{301}x", WrapMode::Glyph, 1, 4, "e\u{301}|x|"),
    ("ab犬猫", WrapMode::Glyph, 4, 4, "ab犬|猫|"),
    ("a\nb", WrapMode::Glyph, 1, 4, "a\n|b|"),
    ("犬犬", WrapMode::Glyph, 1, 4, "犬|犬|"),
    ("\tX", WrapMode::Glyph, 2, 4, "\t|X|"),
    ("a\tb", WrapMode::Glyph, 255, 255, "a\t|b|"),
    ("\ta\tb", WrapMode::Glyph, 1, 0, "\ta\t|b|"),
    // Whole lines.
    ("abc def", WrapMode::None, 2, 4, "abc def|"),
    ("", WrapMode::None, 0, 4, "|"),
    ("", WrapMode::Glyph, 1, 4, "|"),
    ("a\t犬", WrapMode::Glyph, usize::MAX, 4, "a\t犬|"),
    ("a b", WrapMode::Word, usize::MAX, 255, "a b|"),
];

// The texts of visual rows, each followed by a bar.
fn rows_text(alloc: Global, line: &str, rows: &[(usize, usize)]) -> Result<String, AllocError> {
    let mut text = String::new(alloc);
    for (start, end) in rows {
        if let Some(row) = line.get(*start..*end) {
            text.push_str(row)?;
        }
        text.push('|')?;
    }
    Ok(text)
}

// Whether a copy of the visual rows has these texts.
fn is_wrapped(alloc: Global, case: &Wrapped) -> Result<bool, AllocError> {
    let (line, mode, width, tab_len, expected) = *case;
    let rows = line_ranges(alloc, line, mode, width, tab_len, &mut WrapCount::new())?;
    let copy = rows.clone()?;
    Ok(rows_text(alloc, line, copy.as_slice())?.as_str() == expected)
}

#[test]
fn wrapped_lines(rt: HostRuntime) -> Result<(), Fail> {
    check_each(&rt, &LINES, is_wrapped)
}

fn are_right_columns() -> bool {
    let columns = [
        plain_columns('犬'),
        plain_columns('\n'),
        column_after('\t', 5, 4),
        column_after('\t', 8, 4),
        column_after('\t', 5, 0),
        column_after_text("a\t犬", 0, 4),
        display_column_after('\t', 5, 0),
        display_column_after('\t', 5, 4),
        display_column_after_text("a\t犬", 0, 0),
        display_column_after_text("a\t犬", 0, 4),
    ];
    columns == [2, 0, 8, 12, 5, 6, 6, 8, 4, 6]
}

#[test]
fn columns(rt: HostRuntime) {
    assert!(rt; are_right_columns());
    assert!(rt; fits_width("a\t犬", 6, 4) && !fits_width("a\t犬", 5, 4));
}

/// Inner width, number of lines, whether numbered, mode; columns of the numbers and of the rows.
type Layout = ((u16, usize, bool, WrapMode), (usize, Option<usize>));

static LAYOUTS: [Layout; 6] = [
    ((8, 1, true, WrapMode::Word), (3, Some(4))),
    ((11, 9, true, WrapMode::Glyph), (3, Some(7))),
    ((11, 10, true, WrapMode::Glyph), (4, Some(6))),
    ((8, 1, false, WrapMode::WordOrGlyph), (0, Some(7))),
    ((0, 0, true, WrapMode::Word), (3, Some(1))),
    ((65535, 100, true, WrapMode::None), (5, None)),
];

fn has_columns((settings, columns): Layout) -> bool {
    let (inner_width, line_count, line_numbers, mode) = settings;
    let metrics = LayoutMetrics::new(inner_width, line_count, line_numbers, mode);
    (metrics.line_number_width(), metrics.wrap_width()) == columns
}

#[test]
fn layouts(rt: HostRuntime) -> Result<(), Fail> {
    check_each(&rt, &LAYOUTS, |_, layout| Ok(has_columns(*layout)))
}
