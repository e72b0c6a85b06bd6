//! Look-ups, worked by hand from the rules, by views and by maps, and maps that follow hundreds of
//! replacements.
ghost use Rattle.std.specs.Prelude.{◌≡◌, ◌+◌, ◌<◌, ◌≤◌, length, vec_len, IfOk, OnOk};
ghost use Rattle.textarea_text.specs.Text.{lines_of};
ghost use Rattle.textarea_screen_map.specs.LineRows.{AreRowsOf};

use crate::cases::check_each;
use crate::map::Fact::*;
use crate::texts::{Place, RowAndColumn, at, is_place, strings};
use std::alloc::{AllocError, Global};
use std::test::Fail;
use textarea_screen_map::layout::{VisualPosition, Wrapping};
use textarea_screen_map::line_marks::LineMarks;
use textarea_screen_map::screen_map::{RowText, ScreenMap};
use textarea_screen_map::view::TextLayoutView;
use textarea_text::rows::Replacement;
use textarea_wrap::wrap::{WrapCount, WrapMode};

/// How lines are wrapped: the mode, the width and the tab length.
type Shape = (WrapMode, usize, u8);

const ONE_ROW_A_LINE: Shape = (WrapMode::None, 0, 4);

const WITHOUT_STOPS: Shape = (WrapMode::None, 0, 0);

const WORDS: Shape = (WrapMode::Word, 6, 4);

const GLYPHS: Shape = (WrapMode::Glyph, 4, 4);

const WIDE_WORDS: Shape = (WrapMode::Word, 9, 4);

/// A fact about the map of some lines.
#[derive(Clone, Copy)]
enum Fact {
    /// The number of visual rows.
    RowCount(usize),
    /// A position, its visual position, and where the cursor moves from it: up, and down.
    Moves(Place, RowAndColumn, Option<Place>, Option<Place>),
    /// The width and the greatest cursor column of a visual row.
    Columns(usize, (usize, usize)),
    /// A visual row: line, number there, text before it, its own text, and whether it is the last.
    Row(usize, (usize, usize), (&'static str, &'static str), bool),
    /// The position to which a visual row and a display column lead back.
    Back(RowAndColumn, Place),
}

/// Lines, how they are wrapped, and facts of their map.
type Case = (&'static [&'static str], Shape, &'static [Fact]);

static CASES: [Case; 13] = [
    // Up and down.
    (
        &["犬犬", "abcd"],
        ONE_ROW_A_LINE,
        &[
            Moves((0, 1), (0, 2), None, Some((1, 2))),
            Moves((1, 1), (1, 1), Some((0, 0)), None),
            Moves((1, 4), (1, 4), Some((0, 2)), None),
        ],
    ),
    (
        &["🐱", "🐶", "🐰", "🐮"],
        ONE_ROW_A_LINE,
        &[
            Moves((0, 0), (0, 0), None, Some((1, 0))),
            Moves((2, 1), (2, 2), Some((1, 1)), Some((3, 1))),
        ],
    ),
    (
        &["abcdefgh", "x"],
        GLYPHS,
        &[
            Moves((0, 3), (0, 3), None, Some((0, 7))),
            Moves((0, 4), (1, 0), Some((0, 0)), Some((1, 0))),
            Moves((0, 8), (1, 4), Some((0, 3)), Some((1, 1))),
            Moves((1, 1), (2, 1), Some((0, 5)), None),
        ],
    ),
    (
        &["abcdef ghi", "0123456"],
        WORDS,
        &[
            Moves((0, 6), (0, 6), None, Some((0, 10))),
            Moves((0, 7), (1, 0), Some((0, 0)), Some((1, 0))),
            Moves((1, 6), (3, 0), Some((1, 0)), None),
        ],
    ),
    // Tabs.
    (
        &["a\tb", "xyzwvu"],
        ONE_ROW_A_LINE,
        &[
            Moves((0, 2), (0, 4), None, Some((1, 4))),
            Moves((1, 2), (1, 2), Some((0, 1)), None),
            Moves((1, 4), (1, 4), Some((0, 2)), None),
            Moves((1, 6), (1, 6), Some((0, 3)), None),
        ],
    ),
    (
        &["a\tb", "xyzwvu"],
        WITHOUT_STOPS,
        &[Moves((0, 2), (0, 2), None, Some((1, 2)))],
    ),
    // Visual rows.
    (
        &["abcdef ghi", ""],
        WORDS,
        &[
            RowCount(3),
            Columns(0, (7, 6)),
            Columns(1, (3, 3)),
            Columns(2, (0, 0)),
        ],
    ),
    (
        &["ab犬猫"],
        GLYPHS,
        &[RowCount(2), Columns(0, (4, 2)), Columns(1, (2, 2))],
    ),
    (
        &["a\tb"],
        ONE_ROW_A_LINE,
        &[RowCount(1), Columns(0, (5, 5))],
    ),
    (
        &["abcdef ghi", ""],
        WORDS,
        &[
            RowCount(3),
            Row(0, (0, 0), ("", "abcdef "), false),
            Row(1, (0, 1), ("abcdef ", "ghi"), true),
            Row(2, (1, 0), ("", ""), true),
        ],
    ),
    (
        &["x", "ab犬猫"],
        GLYPHS,
        &[
            RowCount(3),
            Row(0, (0, 0), ("", "x"), true),
            Row(1, (1, 0), ("", "ab犬"), false),
            Row(2, (1, 1), ("ab犬", "猫"), true),
        ],
    ),
    // Back from visual rows and columns to positions.
    (
        &["e\u{301}x犬"],
        ONE_ROW_A_LINE,
        &[
            Back((0, 0), (0, 0)),
            Back((0, 1), (0, 1)),
            Back((0, 2), (0, 3)),
            Back((0, 3), (0, 3)),
            Back((0, 4), (0, 4)),
            Back((0, 9), (0, 4)),
        ],
    ),
    (
        &["abcdef"],
        GLYPHS,
        &[
            Back((0, 3), (0, 3)),
            Back((0, 4), (0, 4)),
            Back((0, 9), (0, 4)),
            Back((1, 1), (0, 5)),
            Back((1, 2), (0, 6)),
        ],
    ),
];

fn is_alike(one: RowText<'_>, another: RowText<'_>) -> bool {
    (one.line, one.number, one.is_last) == (another.line, another.number, another.is_last)
        && one.before == another.before
        && one.text == another.text
}

fn is_so(view: &TextLayoutView<'_>, fact: Fact) -> bool {
    let rows = view.row_count();
    match fact {
        RowCount(count) => rows == count,
        Moves(place, visual, above, below) => {
            is_place(view.lines(), place)
                && view.visual_position(place) == at(visual)
                && view.above(place) == above
                && view.below(place) == below
        }
        Columns(row, wanted) => {
            row < rows && (view.row_width(row), view.greatest_column(row)) == wanted
        }
        Row(row, (line, number), (before, text), is_last) => {
            let wanted = RowText {
                line,
                number,
                before,
                text,
                is_last,
            };
            row < rows && is_alike(view.row_at(row), wanted)
        }
        Back((row, column), place) => {
            row < rows && view.place_at(VisualPosition { row, column }) == place
        }
    }
}

fn are_so(view: &TextLayoutView<'_>, facts: &[Fact]) -> bool {
    for fact in facts {
        if !is_so(view, *fact) {
            return false;
        }
    }
    true
}

// Whether the map's own look-ups, to which its lines are lent, agree with a fact.
fn is_looked_up(map: &ScreenMap, lines: &[String], fact: Fact) -> bool
    requires { AreRowsOf map.now.wrapping (lines_of lines.now) map.now.rows }
{
    let rows = map.row_count();
    match fact {
        RowCount(count) => rows == count,
        Moves(place, visual, _, _) => {
            is_place(lines, place) && map.visual_position(lines, place) == at(visual)
        }
        Columns(row, wanted) => {
            row < rows && (map.row_width(lines, row), map.greatest_column(lines, row)) == wanted
        }
        Row(row, (line, _), (_, text), _) => {
            if rows <= row {
                return false;
            }
            let found = map.row_at(lines, row);
            (found.line, found.text) == (line, text)
        }
        Back((row, column), place) => {
            row < rows && map.place_at(lines, VisualPosition { row, column }) == place
        }
    }
}

fn are_looked_up(map: &ScreenMap, lines: &[String], facts: &[Fact]) -> bool
    requires { AreRowsOf map.now.wrapping (lines_of lines.now) map.now.rows }
{
    for fact in facts {
        if !is_looked_up(map, lines, *fact) {
            return false;
        }
    }
    true
}

// Whether the greatest cursor column of each visual row leads to a position there, and back.
fn leads_back(map: &ScreenMap, lines: &[String]) -> bool
    requires { AreRowsOf map.now.wrapping (lines_of lines.now) map.now.rows }
{
    for row in 0..map.row_count() {
        let column = map.greatest_column(lines, row);
        let visual = VisualPosition { row, column };
        let place = map.place_at(lines, visual);
        if map.row_width(lines, row) < column || map.visual_position(lines, place) != visual {
            return false;
        }
    }
    true
}

fn wrapped((mode, width, tab_len): Shape) -> Wrapping {
    Wrapping {
        mode,
        width,
        tab_len,
    }
}

fn is_met(alloc: Global, (texts, shape, facts): &Case) -> Result<bool, AllocError> {
    let lines = strings(alloc, texts)?;
    let map = ScreenMap::new(
        alloc,
        lines.as_slice(),
        wrapped(*shape),
        &mut WrapCount::new(),
    )?;
    let marks = LineMarks::new(alloc);
    if lines.is_empty() {
        return Ok(false);
    }
    let view = TextLayoutView::new(lines.as_slice(), &map, &marks);
    Ok(
        are_so(&view, facts)
            && are_looked_up(&map, lines.as_slice(), facts)
            && leads_back(&map, lines.as_slice()),
    )
}

#[test]
fn places_and_rows(rt: HostRuntime) -> Result<(), Fail> {
    check_each(&rt, &CASES, is_met)
}

// Whether look-ups at a position are the same in two views of the same lines.
fn agree_at(one: &TextLayoutView<'_>, other: &TextLayoutView<'_>, place: Place) -> bool {
    if !is_place(one.lines(), place) || !is_place(other.lines(), place) {
        return false;
    }
    let visual = one.visual_position(place);
    visual == other.visual_position(place)
        && one.offset_of(place) == other.offset_of(place)
        && one.above(place) == other.above(place)
        && one.below(place) == other.below(place)
        && visual.row < other.row_count()
        && one.place_near(visual) == other.place_near(visual)
}

// Whether look-ups in a long line are the same with marks up to these columns as without.
fn agrees_with_marks(alloc: Global, columns: &[usize]) -> Result<bool, AllocError> {
    let mut line = String::new(alloc);
    for _part in 0..500 {
        line.push_str("ab\t犬e\u{301}")?;
    }
    let mut lines = strings(alloc, &["the line above"])?;
    lines.push(line)?;
    let lines = lines.as_slice();
    if lines.len() <= 1 {
        return Ok(false);
    }
    let map = ScreenMap::new(alloc, lines, wrapped(ONE_ROW_A_LINE), &mut WrapCount::new())?;
    let none = LineMarks::new(alloc);
    let without = TextLayoutView::new(lines, &map, &none);
    for column in columns {
        let mut marks = LineMarks::new(alloc);
        marks.extend(lines, 1, 4, *column);
        let with = TextLayoutView::new(lines, &map, &marks);
        if !agree_at(&without, &with, (1, *column)) {
            return Ok(false);
        }
    }
    Ok(true)
}

#[test]
fn marks_change_no_result(rt: HostRuntime) -> Result<(), Fail> {
    let columns = [0, 767, 768, 770, 800, 1536, 2000, 2999, 3000];
    assert!(rt; agrees_with_marks(rt.alloc(), &columns)?);
    Ok(())
}

// Numbers that look random, each made from the one before.
#[derive(Drop)]
struct Numbers {
    state: u64,
}

impl Numbers {
    fn below(&mut self, limit: usize) -> usize
        requires { 0 < limit }
        ensures { result < limit }
    {
        self.state = self
            .state
            .wrapping_mul(6_364_136_223_846_793_005)
            .wrapping_add(1_442_695_040_888_963_407);
        (self.state >> 33) as usize % limit
    }
}

fn some_line(alloc: Global, numbers: &mut Numbers) -> Result<String, AllocError> {
    let segments = ["a", " ", "\t", "犬", "e\u{301}", "word ", "🐶", "-"];
    let mut line = String::new(alloc);
    for _segment in 0..numbers.below(24) {
        line.push_str(segments[numbers.below(8)])?;
    }
    Ok(line)
}

// Returns fewer lines than the limit.
fn some_lines(alloc: Global, numbers: &mut Numbers, limit: usize) -> Result<Vec<String>, AllocError>
    requires { 0 < limit }
{
    let mut lines = Vec::new(alloc);
    for _line in 0..numbers.below(limit) {
        let line = some_line(alloc, numbers)?;
        lines.push(line)?;
    }
    Ok(lines)
}

// Replaces lines by others, and their visual rows in the map.
fn replace(
    alloc: Global,
    map: &mut ScreenMap,
    lines: &mut Vec<String>,
    change: Replacement,
    wrapping: Wrapping,
    counter: &mut WrapCount,
) -> Result<(), AllocError>
    requires rows { AreRowsOf wrapping (lines_of lines.old.items) map.old.rows }
    requires within { change.row + change.count ≤ vec_len lines.old }
    ensures rows { OnOk result (AreRowsOf wrapping (lines_of lines.new.items) map.new.rows) }
    ensures wrapping { OnOk result (map.new.wrapping ≡ wrapping) }
{
    let prepared = map.prepare(
        alloc,
        change.row,
        change.count,
        change.lines.as_slice(),
        wrapping,
        counter,
    )?;
    change.apply(lines)?;
    map.replace(prepared);
    Ok(())
}

fn is_same(one: &TextLayoutView<'_>, other: &TextLayoutView<'_>) -> bool {
    if one.row_count() != other.row_count() {
        return false;
    }
    for row in 0..one.row_count() {
        if row >= other.row_count() || !is_alike(one.row_at(row), other.row_at(row)) {
            return false;
        }
    }
    true
}

// Whether the map has the visual rows of a map from scratch.
fn is_as_fresh(
    alloc: Global,
    map: &ScreenMap,
    lines: &[String],
    wrapping: Wrapping,
    counter: &mut WrapCount,
) -> Result<bool, AllocError>
    requires { AreRowsOf map.now.wrapping (lines_of lines.now) map.now.rows }
{
    let fresh = ScreenMap::new(alloc, lines, wrapping, counter)?;
    if lines.is_empty() {
        return Ok(map.row_count() == 0);
    }
    let marks = LineMarks::new(alloc);
    let view = TextLayoutView::new(lines, map, &marks);
    let wanted = TextLayoutView::new(lines, &fresh, &marks);
    Ok(is_same(&view, &wanted))
}

// Lines, and the lines that they replace, both fewer than the limit.
fn some_change(
    alloc: Global,
    numbers: &mut Numbers,
    lines: &[String],
    limit: usize,
) -> Result<Replacement, AllocError>
    requires { 0 < limit }
    ensures { IfOk result (λ change. change.row + change.count ≤ length lines.now) }
{
    let row = numbers.below(lines.len() + 1);
    let count = numbers.below(lines.len() - row + 1).min(limit - 1);
    let lines = some_lines(alloc, numbers, limit)?;
    Ok(Replacement { row, count, lines })
}

// Replaces lines by others. Returns whether the map is the one from scratch.
fn follows_one(
    alloc: Global,
    map: &mut ScreenMap,
    lines: &mut Vec<String>,
    change: Replacement,
    wrapping: Wrapping,
    counter: &mut WrapCount,
) -> Result<bool, AllocError>
    requires rows { AreRowsOf wrapping (lines_of lines.old.items) map.old.rows }
    requires within { change.row + change.count ≤ vec_len lines.old }
    ensures rows { OnOk result (AreRowsOf wrapping (lines_of lines.new.items) map.new.rows) }
    ensures wrapping { OnOk result (map.new.wrapping ≡ wrapping) }
{
    replace(alloc, map, lines, change, wrapping, counter)?;
    is_as_fresh(alloc, map, lines.as_slice(), wrapping, counter)
}

// Random-looking replacements: the seed of their numbers, the limit of lines in each, the count.
#[derive(Clone, Copy)]
struct Replacements {
    seed: u64,
    limit: usize,
    count: usize,
}

// Whether a map follows these replacements, and has a copy that does.
fn follows_all(
    alloc: Global,
    map: &mut ScreenMap,
    lines: &mut Vec<String>,
    made: Replacements,
    wrapping: Wrapping,
) -> Result<bool, AllocError>
    requires some { 0 < made.limit }
    requires rows { AreRowsOf wrapping (lines_of lines.old.items) map.old.rows }
    requires wrapping { map.old.wrapping ≡ wrapping }
{
    let mut counter = WrapCount::new();
    let mut numbers = Numbers { state: made.seed };
    for _step in 0..made.count {
        let change = some_change(alloc, &mut numbers, lines.as_slice(), made.limit)?;
        if !follows_one(alloc, map, lines, change, wrapping, &mut counter)? {
            return Ok(false);
        }
    }
    is_as_fresh(
        alloc,
        &map.clone()?,
        lines.as_slice(),
        wrapping,
        &mut counter,
    )
}

/// The limit of lines in each replacement, and the number of replacements.
type Amount = (usize, usize);

const SMALL: Amount = (5, 150);

/// More lines than a block of the map has.
const LARGE: Amount = (1500, 5);

/// The seed of the numbers of replacements, the amount of these, and how their lines are wrapped.
type Followed = (u64, Amount, Shape);

static FOLLOWED: [Followed; 7] = [
    (1, SMALL, ONE_ROW_A_LINE),
    (2, SMALL, WIDE_WORDS),
    (3, SMALL, (WrapMode::Glyph, 5, 4)),
    (4, SMALL, (WrapMode::WordOrGlyph, 1, 4)),
    (5, SMALL, (WrapMode::Word, 200, 4)),
    (6, LARGE, ONE_ROW_A_LINE),
    (7, LARGE, WIDE_WORDS),
];

fn is_followed(alloc: Global, case: &Followed) -> Result<bool, AllocError> {
    let (seed, (limit, count), shape) = *case;
    if limit == 0 {
        return Ok(false);
    }
    let made = Replacements { seed, limit, count };
    let wrapping = wrapped(shape);
    let mut lines = some_lines(alloc, &mut Numbers { state: seed }, limit)?;
    let mut map = ScreenMap::new(alloc, lines.as_slice(), wrapping, &mut WrapCount::new())?;
    follows_all(alloc, &mut map, &mut lines, made, wrapping)
}

#[test]
fn follows_replacements(rt: HostRuntime) -> Result<(), Fail> {
    check_each(&rt, &FOLLOWED, is_followed)
}

// Replaces the line in `row` by two, `count` times. Returns whether the map is as from scratch.
fn follows_breaks(
    alloc: Global,
    map: &mut ScreenMap,
    lines: &mut Vec<String>,
    row: usize,
    count: usize,
    wrapping: Wrapping,
) -> Result<bool, AllocError>
    requires rows { AreRowsOf wrapping (lines_of lines.old.items) map.old.rows }
    requires wrapping { map.old.wrapping ≡ wrapping }
{
    let mut counter = WrapCount::new();
    for _step in 0..count {
        if lines.len() <= row {
            return Ok(false);
        }
        let change = Replacement {
            row,
            count: 1,
            lines: strings(alloc, &["one line of many", "and its other part"])?,
        };
        replace(alloc, map, lines, change, wrapping, &mut counter)?;
    }
    let is_right = leads_back(map, lines.as_slice());
    Ok(is_right && is_as_fresh(alloc, map, lines.as_slice(), wrapping, &mut counter)?)
}

fn follows_breaks_of(
    alloc: Global,
    lines: &mut Vec<String>,
    row: usize,
    count: usize,
) -> Result<bool, AllocError> {
    let wrapping = wrapped(WIDE_WORDS);
    let mut map = ScreenMap::new(alloc, lines.as_slice(), wrapping, &mut WrapCount::new())?;
    follows_breaks(alloc, &mut map, lines, row, count, wrapping)
}

// A full block is halved.
#[test]
fn follows_many_breaks(rt: HostRuntime) -> Result<(), Fail> {
    let mut lines = strings(rt.alloc(), &["above", "here", "below"])?;
    assert!(rt; follows_breaks_of(rt.alloc(), &mut lines, 1, 3000)?);
    assert!(rt; follows_breaks_of(rt.alloc(), &mut lines, 1500, 1500)?);
    Ok(())
}
