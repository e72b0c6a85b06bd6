//! The viewport, the caret (the cursor on the screen) and the hit test, as numbers.

use crate::cases::check_each;
use crate::viewport::Scroll::{By, Rows};
use std::test::Fail;
use textarea_data::scroll::Scrolling;
use textarea_data::scroll::Scrolling::{Delta, HalfPageDown, HalfPageUp, PageDown, PageUp};
use textarea_screen::screen::{Position, Rect};
use textarea_view::{RowView, Viewport};

/// One step of scrolling.
#[derive(Clone, Copy)]
enum Scroll {
    /// By this number of rows.
    Rows(i16),
    By(Scrolling),
}

/// A height, steps of scrolling, and the first and the last row in view after them.
type Scrolled = (u16, &'static [Scroll], usize, usize);

static SCROLLED: [Scrolled; 7] = [
    (8, &[Rows(15), Rows(-5), Rows(-5)], 5, 12),
    (8, &[Rows(15), Rows(-5), Rows(0)], 10, 17),
    (8, &[By(PageDown), By(PageDown), Rows(-17)], 0, 7),
    (8, &[By(PageDown), Rows(3), By(HalfPageUp)], 7, 14),
    (5, &[By(HalfPageDown), By(HalfPageDown), Rows(0)], 4, 8),
    (5, &[Rows(9), By(PageUp), By(HalfPageUp)], 2, 6),
    // With no rows, the viewport starts at the row after the cursor's.
    (0, &[By(PageDown), By(HalfPageDown), Rows(2)], 3, 3),
];

/// The number of rows scrolled, a row, and the nearest row in view.
static ROWS: [(i32, usize, usize); 5] = [
    (15, 0, 15),
    (10, 15, 15),
    (5, 15, 12),
    (0, 19, 7),
    (15, 22, 19),
];

/// Columns, and for each the nearest column in view.
static COLUMNS: [(usize, usize); 4] = [(0, 2), (2, 2), (5, 5), (9, 5)];

/// The width and height of an area, the cursor's column, the first column in view, and the caret.
type Caret = (u16, u16, usize, usize, Option<(u16, u16)>);

static CARETS: [Caret; 5] = [
    (4, 1, 2, 1, None),
    (7, 1, 2, 0, Some((5, 0))),
    (7, 1, 4, 1, Some((6, 0))),
    (7, 0, 2, 0, None),
    (0, 1, 2, 5, None),
];

/// Whether the row begins at an offset, a cell (column, row), and the row and column at that cell.
type Hit = (bool, u16, u16, Option<(usize, usize)>);

static HITS: [Hit; 7] = [
    (false, 12, 5, Some((0, 2))),
    (false, 9, 5, None),
    (false, 17, 5, Some((0, 5))),
    (false, 12, 6, None),
    (true, 12, 7, Some((0, 0))),
    (true, 15, 6, Some((0, 2))),
    (true, 15, 8, None),
];

/// Returns the viewport of a drawn text in an area of this size, with the cursor in its first row.
fn drawn(width: u16, height: u16) -> Viewport {
    Viewport::default().showing_row(Rect::new(0, 0, width, height), 0)
}

/// Returns whether these rows are in view.
fn is_scrolled((height, scrolls, first, last): &Scrolled) -> bool {
    let mut viewport = drawn(24, *height);
    for scroll in *scrolls {
        viewport.scroll_by(match *scroll {
            Rows(rows) => Delta { rows, cols: 0 },
            By(scrolling) => scrolling,
        });
    }
    viewport.position() == (*first, 0, *last, 23)
}

/// Returns the first row and column after scrolling as far as possible, and after scrolling back.
fn scrolled_far() -> ((usize, usize), (usize, usize)) {
    let mut viewport = Viewport::default();
    viewport.scroll(i32::MAX, i32::MIN);
    viewport.scroll(i32::MAX, 3);
    let far = viewport.scroll_top();
    viewport.scroll(i32::MIN, -4);
    (far, viewport.scroll_top())
}

#[test]
fn rows_visible_after_scrolls(rt: HostRuntime) -> Result<(), Fail> {
    assert!(rt; Viewport::default().rect() == (0, 0, 0, 0));
    assert!(rt; scrolled_far() == ((4294967294, 3), (2147483646, 0)));
    check_each(&rt, &SCROLLED, |_, scrolled| Ok(is_scrolled(scrolled)))
}

/// Returns the nearest row and column in a viewport of 24 by 8 that was scrolled.
fn clamped(scrolled: i32, row: usize) -> (usize, usize) {
    let mut viewport = drawn(24, 8);
    viewport.scroll(scrolled, scrolled);
    (viewport.clamp_row(row, 19), viewport.clamp_column(3, 2))
}

#[test]
fn rows_and_columns_in_the_viewport(rt: HostRuntime) -> Result<(), Fail> {
    // twenty rows in an area of 24 by 8
    check_each(&rt, &ROWS, |_, (scrolled, row, wanted)| {
        Ok(clamped(*scrolled, *row) == (*wanted, 2))
    })?;
    let mut viewport = drawn(4, 1);
    viewport.scroll(0, 2);
    check_each(&rt, &COLUMNS, |_, (column, wanted)| {
        Ok(viewport.clamp_column(*column, 20) == *wanted)
    })
}

/// Returns whether an unwrapped row with a line number of three columns has this left and caret.
fn has_caret((width, height, column, left, caret): Caret) -> bool {
    let area = Rect::new(0, 0, width, height);
    let viewport = Viewport::default().showing_row_and_column(area, 0, column, 3);
    let first = if height == 0 { 1 } else { 0 };
    let wanted = caret.map(|(x, y)| Position { x, y });
    viewport.scroll_top() == (first, left)
        && RowView::at_left(viewport, area, 3).caret(0, column) == wanted
}

#[test]
fn carets(rt: HostRuntime) -> Result<(), Fail> {
    // 70,000 rows of one character, with the cursor after the last
    let area = Rect::new(0, 0, 10, 5);
    let viewport = Viewport::default().showing_row_and_column(area, 69999, 1, 0);
    let caret = RowView::at_left(viewport, area, 0).caret(69999, 1);
    assert!(rt; viewport.rect() == (69995, 0, 10, 5));
    assert!(rt; caret == Some(Position { x: 1, y: 4 }));
    check_each(&rt, &CARETS, |_, caret| Ok(has_caret(*caret)))
}

/// Returns the row and column at a cell of "hello", at the left or after an offset of 3.
fn hit(is_past_offset: bool, position: Position) -> Option<(usize, usize)> {
    let view = if is_past_offset {
        RowView::at_offset(drawn(8, 3), Rect::new(10, 5, 8, 3), 3, 0)
    } else {
        RowView::at_left(drawn(8, 1), Rect::new(10, 5, 8, 1), 0)
    };
    let row = drawn(8, 3).hit_row(view.inner_area, 0, position)?;
    Some((row, view.hit_column(position, 5)))
}

#[test]
fn hits(rt: HostRuntime) -> Result<(), Fail> {
    let corner = Position { x: 65535, y: 65535 };
    let empty = Rect::new(65535, 65535, 10, 10);
    assert!(rt; drawn(0, 0).hit_row(empty, 0, corner) == None);
    assert!(rt; Viewport::at_start(Rect::new(10, 5, 8, 1)).rect() == (0, 0, 8, 1));
    check_each(&rt, &HITS, |_, (is_past_offset, x, y, wanted)| {
        Ok(hit(*is_past_offset, Position { x: *x, y: *y }) == *wanted)
    })
}
