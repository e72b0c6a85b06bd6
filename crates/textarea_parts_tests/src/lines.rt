//! Lines and their visual rows over some steps: numbers worked by hand from the rules, and the same
//! rows as those of a layout from scratch.
ghost use Rattle.std.specs.Prelude.{◌≡◌, ◌+◌, ◌<◌, false, length, vec_len, OnOk, if◌then◌else◌};
ghost use Rattle.textarea_text.specs.Place.{IsPlace};
ghost use Rattle.textarea_text.specs.Splice.{Fits, inverse};
ghost use Rattle.textarea_text.specs.Text.{lines};
ghost use Rattle.textarea_history.specs.Edit.{IsWellFormed};
ghost use Rattle.textarea_lines.specs.TextLayout.{at_width, keeps_wrapping};
ghost use Rattle.textarea_lines.specs.Wrappings.{is_wrapped};

use crate::cases::check_each;
use crate::lines::Step::*;
use crate::texts::{Place, RowAndColumn, at, is_place, strings};
use std::alloc::{AllocError, Global};
use std::test::Fail;
use textarea_history::edit::{Edit, EditKind};
use textarea_lines::settings::{LayoutSettings, is_wrapped};
use textarea_lines::text_layout::TextLayout;
use textarea_screen_map::layout::VisualPosition;
use textarea_screen_map::view::TextLayoutView;
use textarea_text::fragment::copy_fragment;
use textarea_text::rows::column_count;
use textarea_wrap::wrap::WrapMode;

const NINE_LINES: [&str; 9] = ["abcdefg"; 9];

const TWO_LINES: [&str; 2] = ["abcdef", "gh"];

/// A step over lines, and what it must lead to.
#[derive(Clone, Copy)]
enum Step {
    /// Whether there is just one empty line.
    Empty(bool),
    Settings(Shape),
    /// The number of visual rows.
    RowCount(usize),
    /// A position, and its visual position.
    Visual(Place, RowAndColumn),
    /// The number of visual rows, and the visual position of the text's end.
    End(usize, RowAndColumn),
    /// A position, and where the cursor moves from it: up, and down.
    Moves(Place, Option<Place>, Option<Place>),
    /// The number of visual rows at a width.
    Count(u16, usize),
    /// While a width is only prepared: the visual rows of the lines, and those at this width.
    Prepare(u16, &'static [&'static str], &'static [&'static str]),
    /// The visual rows at a width that is set.
    PutWidth(u16, &'static [&'static str]),
    PutTabLength(u8),
    /// The one line that is set.
    PutLine(&'static str),
    Break(Place),
    /// A break at the end, and its undo: visual rows and the end's visual position in between.
    BreakAndTakeBack(usize, RowAndColumn),
}

/// How lines with tab stops each four columns are wrapped: mode, line numbers or not, inner width.
type Shape = (WrapMode, bool, u16);

const WHOLE: Shape = (WrapMode::None, false, 20);

const NARROW_WHOLE: Shape = (WrapMode::None, false, 4);

const HIDDEN_WHOLE: Shape = (WrapMode::None, false, 0);

const NUMBERED_WHOLE: Shape = (WrapMode::None, true, 11);

const GLYPHS: Shape = (WrapMode::Glyph, false, 5);

const NARROW_GLYPHS: Shape = (WrapMode::Glyph, false, 4);

const HIDDEN: Shape = (WrapMode::Glyph, false, 0);

const NUMBERED: Shape = (WrapMode::Glyph, true, 11);

const HIDDEN_NUMBERED: Shape = (WrapMode::Glyph, true, 0);

const NARROW_WORDS: Shape = (WrapMode::Word, false, 4);

const HIDDEN_WORDS: Shape = (WrapMode::WordOrGlyph, false, 0);

/// Lines, their settings, and steps over them.
type Case = (&'static [&'static str], Shape, &'static [Step]);

static CASES: [Case; 10] = [
    // A tenth line needs a wider number, so all visual rows become narrower.
    (
        &NINE_LINES,
        NUMBERED,
        &[
            End(9, (8, 7)),
            BreakAndTakeBack(19, (18, 0)),
            End(9, (8, 7)),
        ],
    ),
    // The same at a width that is only counted.
    (
        &NINE_LINES,
        HIDDEN_NUMBERED,
        &[
            Count(11, 9),
            Break((8, 7)),
            Count(11, 19),
            Count(11, 19),
            RowCount(10),
        ],
    ),
    // The cursor moves up and down.
    (
        &["犬犬", "abcd"],
        NARROW_WHOLE,
        &[
            Moves((0, 1), None, Some((1, 2))),
            Moves((1, 1), Some((0, 0)), None),
        ],
    ),
    (
        &["abcdef"],
        NARROW_GLYPHS,
        &[
            Moves((0, 1), None, Some((0, 4))),
            Moves((0, 4), Some((0, 1)), None),
        ],
    ),
    // Visual rows are counted at a width.
    (&["abc"], HIDDEN, &[Count(0, 3)]),
    (&["abcdef"], HIDDEN_WORDS, &[Count(5, 2)]),
    (&["abcdef"], HIDDEN_WHOLE, &[Count(1, 1)]),
    // Tab stops do not wrap whole lines.
    (
        &["\ta", "abcdef"],
        WHOLE,
        &[
            Visual((0, 1), (0, 4)),
            PutTabLength(2),
            Visual((0, 1), (0, 2)),
            Count(1, 2),
        ],
    ),
    // A width is prepared and set.
    (
        &TWO_LINES,
        GLYPHS,
        &[
            PutWidth(4, &["abc", "def", "gh"]),
            PutWidth(4, &["abc", "def", "gh"]),
            PutWidth(0, &["abcdef", "gh"]),
            Settings(HIDDEN),
            Prepare(3, &["abcdef", "gh"], &["ab", "cd", "ef", "gh"]),
        ],
    ),
    // Measured rows are used at their width, but not at another one or for another text.
    (
        &TWO_LINES,
        HIDDEN,
        &[
            Count(4, 3),
            PutWidth(4, &["abc", "def", "gh"]),
            Count(3, 4),
            PutWidth(5, &["abcd", "ef", "gh"]),
            Count(3, 4),
            Break((0, 1)),
            PutWidth(3, &["a", "bc", "de", "f", "gh"]),
        ],
    ),
];

fn settings((mode, line_numbers, inner_width): Shape) -> LayoutSettings {
    LayoutSettings {
        mode,
        tab_len: 4,
        line_numbers,
        inner_width,
    }
}

// These lines with a layout.
fn text_layout(alloc: Global, texts: &[&str], shape: Shape) -> Result<TextLayout, AllocError> {
    TextLayout::new(alloc, strings(alloc, texts)?, settings(shape))
}

fn end_of(text_layout: &TextLayout) -> Place
    ensures { IsPlace text_layout.now.text result }
{
    let lines = text_layout.lines();
    let row = lines.len() - 1;
    (row, column_count(lines[row].as_str()))
}

// The visual position of `place`, if the lines have that position.
fn visual_of(text_layout: &TextLayout, place: Place) -> Option<VisualPosition> {
    if is_place(text_layout.lines(), place) {
        Some(text_layout.visual_position(place))
    } else {
        None
    }
}

// The number of visual rows, and the visual position of the text's end.
fn visual_end(text_layout: &TextLayout) -> (usize, VisualPosition) {
    (
        text_layout.row_count(),
        text_layout.visual_position(end_of(text_layout)),
    )
}

fn has_rows(view: &TextLayoutView<'_>, expected: &[&str]) -> bool {
    if view.row_count() != expected.len() {
        return false;
    }
    for (row, text) in expected.iter().enumerate() {
        if row >= view.row_count() || view.row_at(row).text != *text {
            return false;
        }
    }
    true
}

// The same lines with a layout from scratch.
fn layout_from_scratch(text_layout: &TextLayout) -> Result<TextLayout, AllocError> {
    let alloc = text_layout.allocator();
    TextLayout::new(
        alloc,
        copy_fragment(alloc, text_layout.lines())?,
        text_layout.layout_settings(),
    )
}

fn is_line_alike(text_layout: &TextLayout, fresh: &TextLayout, row: usize, end: usize) -> bool {
    for column in 0..=end {
        let visual = visual_of(text_layout, (row, column));
        if visual == None || visual != visual_of(fresh, (row, column)) {
            return false;
        }
    }
    true
}

fn is_alike(text_layout: &TextLayout, fresh: &TextLayout) -> bool {
    for (row, line) in text_layout.lines().iter().enumerate() {
        if !is_line_alike(text_layout, fresh, row, column_count(line.as_str())) {
            return false;
        }
    }
    text_layout.row_count() == fresh.row_count()
}

fn is_as_fresh(text_layout: &TextLayout) -> Result<bool, AllocError> {
    Ok(is_alike(text_layout, &layout_from_scratch(text_layout)?))
}

// Makes and undoes an edit. Returns the end in between; none if a layout is not as from scratch.
fn make_and_take_back(
    text_layout: &mut TextLayout,
    edit: &Edit,
) -> Result<Option<(usize, VisualPosition)>, AllocError>
    requires well_formed { IsWellFormed edit.now }
    requires fits { Fits text_layout.old.text edit.now.splice }
{
    text_layout.apply(edit.change())?;
    let end = visual_end(text_layout);
    let was_as_fresh = is_as_fresh(text_layout)?;
    let stays_fresh = take_back(text_layout, edit)?;
    let is_right = was_as_fresh && stays_fresh;
    Ok(if is_right { Some(end) } else { None })
}

// Undoes an edit. Returns whether the layout is then as from scratch.
fn take_back(text_layout: &mut TextLayout, edit: &Edit) -> Result<bool, AllocError>
    requires well_formed { IsWellFormed edit.now }
    requires fits { Fits text_layout.old.text (inverse edit.now.splice) }
{
    text_layout.apply(edit.inverse())?;
    is_as_fresh(text_layout)
}

fn type_and_take_back(
    text_layout: &mut TextLayout,
) -> Result<Option<(usize, VisualPosition)>, AllocError> {
    let place = end_of(text_layout);
    text_layout.places_are_small();
    let edit = Edit::between(EditKind::InsertChar('x'), place, (place.0, place.1 + 1));
    make_and_take_back(text_layout, &edit)
}

fn break_and_take_back(
    text_layout: &mut TextLayout,
) -> Result<Option<(usize, VisualPosition)>, AllocError> {
    let place = end_of(text_layout);
    text_layout.places_are_small();
    let edit = Edit::between(EditKind::InsertNewline, place, (place.0 + 1, 0));
    make_and_take_back(text_layout, &edit)
}

fn insert_break(text_layout: &mut TextLayout, place: Place) -> Result<(), AllocError>
    requires { IsPlace text_layout.old.text place }
{
    text_layout.places_are_small();
    let edit = Edit::between(EditKind::InsertNewline, place, (place.0 + 1, 0));
    text_layout.apply(edit.change())
}

// Inserts a break at a position, if the lines have it.
fn breaks(text_layout: &mut TextLayout, place: Place) -> Result<bool, AllocError> {
    let is_there = is_place(text_layout.lines(), place);
    if is_there {
        insert_break(text_layout, place)?;
    }
    Ok(is_there)
}

// Sets a width. If the lines wrap as before none is wrapped again, else each is wrapped once.
fn set_width(
    text_layout: &mut TextLayout,
    inner_width: u16,
    expected: &[&str],
) -> Result<bool, AllocError>
    ensures { OnOk result (text_layout.new.layout.count
        ≡ (if keeps_wrapping text_layout.old (at_width text_layout.old inner_width) then text_layout.old.layout.count
        else text_layout.old.layout.count + length (lines text_layout.old.text))) }
{
    let prepared = text_layout.prepare_width(inner_width)?;
    let is_prepared = has_rows(&text_layout.view_with(&prepared), expected);
    text_layout.put_width(prepared);
    Ok(is_prepared && has_rows(&text_layout.view(), expected))
}

// The layout stays as it is until the width is set.
fn prepares(
    text_layout: &mut TextLayout,
    inner_width: u16,
    rows: &[&str],
    expected: &[&str],
) -> Result<bool, AllocError> {
    let prepared = text_layout.prepare_width(inner_width)?;
    let is_cached = has_rows(&text_layout.view(), rows);
    let is_prepared = has_rows(&text_layout.view_with(&prepared), expected);
    drop(prepared);
    Ok(is_cached && is_prepared)
}

// Sets tab stops of lines that are not wrapped. No line is wrapped again.
fn set_tab_len(text_layout: &mut TextLayout, tab_len: u8) -> Result<(), AllocError>
    requires { is_wrapped text_layout.old.layout.settings ≡ false }
    ensures { OnOk result (text_layout.new.layout.count ≡ text_layout.old.layout.count) }
{
    let settings = text_layout.layout_settings();
    text_layout.set_layout_settings(LayoutSettings {
        tab_len,
        ..settings
    })
}

// Sets tab stops, if lines are not wrapped.
fn sets_tab_len(text_layout: &mut TextLayout, tab_len: u8) -> Result<bool, AllocError> {
    let is_whole = !is_wrapped(text_layout.layout_settings());
    if is_whole {
        set_tab_len(text_layout, tab_len)?;
    }
    Ok(is_whole)
}

// Replaces the lines by one.
fn put_line(text_layout: &mut TextLayout, text: &str) -> Result<(), AllocError> {
    let line = String::from_str(text_layout.allocator(), text)?;
    text_layout.set_lines(vec![in text_layout.allocator(); line]?)
}

// Takes the step. Returns whether it leads to what it must.
fn leads_there(text_layout: &mut TextLayout, step: Step) -> Result<bool, AllocError> {
    match step {
        Empty(is_empty) => Ok(text_layout.is_empty() == is_empty),
        Settings(shape) => Ok(text_layout.layout_settings() == settings(shape)),
        RowCount(rows) => Ok(text_layout.row_count() == rows),
        Visual(place, visual) => Ok(visual_of(text_layout, place) == Some(at(visual))),
        End(rows, visual) => Ok(visual_end(text_layout) == (rows, at(visual))),
        Moves(place, above, below) => {
            Ok(
                is_place(text_layout.lines(), place)
                    && (text_layout.above(place), text_layout.below(place)) == (above, below),
            )
        }
        Count(width, rows) => Ok(text_layout.rows_at_width(width)? == rows),
        Prepare(width, rows, expected) => prepares(text_layout, width, rows, expected),
        PutWidth(width, expected) => set_width(text_layout, width, expected),
        PutTabLength(tab_len) => sets_tab_len(text_layout, tab_len),
        PutLine(text) => {
            put_line(text_layout, text)?;
            Ok(true)
        }
        Break(place) => breaks(text_layout, place),
        BreakAndTakeBack(rows, visual) => {
            Ok(break_and_take_back(text_layout)? == Some((rows, at(visual))))
        }
    }
}

// Whether each of the steps leads to what it must.
fn lead_there(text_layout: &mut TextLayout, steps: &[Step]) -> Result<bool, AllocError> {
    for step in steps {
        if !leads_there(text_layout, *step)? {
            return Ok(false);
        }
    }
    Ok(true)
}

#[test]
fn steps_over_lines(rt: HostRuntime) -> Result<(), Fail> {
    check_each(&rt, &CASES, |alloc, (texts, shape, steps)| {
        lead_there(&mut text_layout(alloc, texts, *shape)?, steps)
    })
}

// Whether the layout after replacing all lines equals one from scratch.
fn are_put(alloc: Global, lines: Vec<String>, shape: Shape) -> Result<bool, AllocError>
    requires { 0 < vec_len lines }
{
    let mut others = text_layout(alloc, &[], shape)?;
    others.set_lines(lines)?;
    is_as_fresh(&others)
}

// Whether the layout equals one from scratch, also when a character is typed and undone.
fn is_right(text_layout: &mut TextLayout) -> Result<bool, AllocError> {
    Ok(is_as_fresh(text_layout)? && type_and_take_back(text_layout)?.is_some())
}

// The same in a shape and in another one, and for lines that replace others.
fn is_right_in(alloc: Global, (shape, other): &(Shape, Shape)) -> Result<bool, AllocError> {
    let mut text_layout = text_layout(alloc, &NINE_LINES, *shape)?;
    let is_right = is_right_in_turn(&mut text_layout, *other);
    let are_put = are_put(alloc, text_layout.into_lines(), *shape)?;
    Ok(is_right? && are_put)
}

// The same for the present shape, there also with a break, and then for another one.
fn is_right_in_turn(text_layout: &mut TextLayout, other: Shape) -> Result<bool, AllocError> {
    let was_right = is_right(text_layout)? && break_and_take_back(text_layout)?.is_some();
    text_layout.set_layout_settings(settings(other))?;
    Ok(is_right(text_layout)? && was_right)
}

static SHAPES: [(Shape, Shape); 4] = [
    (NUMBERED, NUMBERED_WHOLE),
    (NUMBERED_WHOLE, HIDDEN_NUMBERED),
    (NARROW_WORDS, NUMBERED),
    (HIDDEN_NUMBERED, NARROW_WORDS),
];

#[test]
fn rows_are_those_from_scratch_in_all(rt: HostRuntime) -> Result<(), Fail> {
    check_each(&rt, &SHAPES, is_right_in)
}

static STORED: [Step; 6] = [
    Empty(true),
    Settings(WHOLE),
    End(1, (0, 0)),
    PutLine("abc"),
    Empty(false),
    End(1, (0, 3)),
];

// Whether a line replaces the empty text, and is returned.
fn is_stored(alloc: Global) -> Result<bool, AllocError> {
    let mut text_layout = text_layout(alloc, &[], WHOLE)?;
    let leads_there = lead_there(&mut text_layout, &STORED)?;
    let lines = text_layout.into_lines();
    Ok(leads_there && lines.len() == 1 && lines[0].as_str() == "abc")
}

fn is_borrowed(view: &TextLayoutView<'_>) -> bool {
    if view.row_count() != 3 || !is_place(view.lines(), (0, 5)) {
        return false;
    }
    let row = view.row_at(1);
    (row.line, row.number, row.before, row.is_last) == (0, 1, "abcd", true)
        && view.lines().len() == 2
        && (view.greatest_column(0), view.greatest_column(1)) == (3, 2)
        && view.visual_position((0, 5)) == at((1, 1))
        && view.place_near(VisualPosition { row: 0, column: 9 }) == (0, 3)
}

// Whether a view borrows the lines with their visual rows.
fn is_view_borrowed(alloc: Global) -> Result<bool, AllocError> {
    let text_layout = text_layout(alloc, &TWO_LINES, GLYPHS)?;
    let view = text_layout.view();
    Ok(has_rows(&view, &["abcd", "ef", "gh"]) && is_borrowed(&view))
}

#[test]
fn lines_are_stored_and_borrowed(rt: HostRuntime) -> Result<(), Fail> {
    assert!(rt; is_stored(rt.alloc())?);
    assert!(rt; is_view_borrowed(rt.alloc())?);
    Ok(())
}
