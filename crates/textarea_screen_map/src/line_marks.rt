//! Positions of a long line that are known, so that a look-up doesn't read the line from its start.
ghost use Rattle.std.specs.Prelude.{◌≡◌, ◌+◌, ◌-◌, ◌<◌, ◌≤◌, ℕ, List, [], chars, get_or, length, IfSome};
ghost use Rattle.textarea_screen_map.specs.LineMarks.{AreMarks, AreMarksOf, IsMark, IsSameBefore, line_start};
ghost use Rattle.textarea_text.specs.Text.{lines_of};
ghost use Rattle.textarea_util.specs.Limit.{size_limit};

use std::alloc::Global;
use std::marker::Model;
use textarea_wrap::wrap::columns::display_column_after;
use textarea_wrap::wrap::is_short;

/// The least number of characters between two marks.
const STRETCH: usize = 768;

/// A position of a line: its column, its byte offset, and its display column.
#[derive(Clone, Copy, Debug, PartialEq, Eq)]
pub struct Mark {
    pub column: usize,
    pub offset: usize,
    pub display: usize,
}

/// The start of a line.
pub const LINE_START: Mark = Mark {
    column: 0,
    offset: 0,
    display: 0,
};

/// Marks of one line, the one that was asked for last, as far as they were asked for. A mark is the
/// first position at its display column. Look-ups are right with any marks, and only faster with
/// more of them.
#[derive(Drop)]
pub struct LineMarks {
    row: usize,
    tab_len: u8,
    marks: Vec<Mark>,
}

impl Model for LineMarks {
    ghost use Rattle.textarea_screen_map.specs.LineMarks.{MarkedLine};

    ghost Value = { MarkedLine };

    ghost view = { λ marks. record {
      row = marks.row;
      tab_len = marks.tab_len;
      marks = marks.marks.items;
    } };
}

impl LineMarks {
    /// Returns no marks.
    pub fn new(alloc: Global) -> LineMarks
        ensures { (lines : List (List ℕ)) → AreMarksOf lines result }
    {
        LineMarks {
            row: 0,
            tab_len: 0,
            marks: Vec::new(alloc),
        }
    }

    /// Returns the last known position of the line at or before a column.
    pub fn at_column(&self, row: usize, tab_len: u8, column: usize) -> Mark
        ensures mark { (lines : List (List ℕ)) → AreMarksOf lines self.now
            → IsMark tab_len (get_or lines row []) result }
        ensures before { result.column ≤ column }
    {
        self.last_until(row, tab_len, column, usize::MAX)
    }

    /// Returns the last known position of the line at or before a display column.
    pub fn at_display(&self, row: usize, tab_len: u8, display: usize) -> Mark
        ensures mark { (lines : List (List ℕ)) → AreMarksOf lines self.now
            → IsMark tab_len (get_or lines row []) result }
        ensures before { result.display ≤ display }
    {
        self.last_until(row, tab_len, usize::MAX, display)
    }

    // Returns the last known position of the line at or before a column and a display column.
    fn last_until(&self, row: usize, tab_len: u8, column: usize, display: usize) -> Mark
        ensures mark { (lines : List (List ℕ)) → AreMarksOf lines self.now
            → IsMark tab_len (get_or lines row []) result }
        ensures column { result.column ≤ column }
        ensures display { result.display ≤ display }
    {
        if self.row != row || self.tab_len != tab_len {
            return LINE_START;
        }
        let count = count_until(self.marks.as_slice(), column, display);
        if count == 0 {
            return LINE_START;
        }
        self.marks[count - 1]
    }

    /// Adds marks of the line in the row up to a column. They replace those of another line. If
    /// memory runs out, there are only the marks so far.
    pub fn extend(&mut self, lines: &[String], row: usize, tab_len: u8, column: usize)
        requires row { row < length lines.now }
        requires marks { AreMarksOf (lines_of lines.now) self.old }
        ensures { AreMarksOf (lines_of lines.now) self.new }
    {
        let line = lines[row].as_str();
        if column < STRETCH || !is_short(line) {
            return;
        }
        if self.row != row || self.tab_len != tab_len {
            self.marks.clear();
            self.row = row;
            self.tab_len = tab_len;
        }
        push_marks(&mut self.marks, line, tab_len, column);
    }

    /// Keeps the marks that are right after a change of the line in the row from a column on.
    pub fn cut(&mut self, row: usize, column: usize)
        ensures { (old new : List (List ℕ)) → IsSameBefore old new row column
            → AreMarksOf old self.old → AreMarksOf new self.new }
    {
        if self.row == row {
            let count = count_until(self.marks.as_slice(), column, usize::MAX);
            self.marks.truncate(count);
        }
    }

    /// Removes all marks.
    pub fn clear(&mut self)
        ensures none { self.new.marks ≡ [] }
        ensures right { (lines : List (List ℕ)) → AreMarksOf lines self.new }
    {
        self.marks.clear();
    }
}

// Returns the number of marks up to the last one at or before a column and a display column.
fn count_until(marks: &[Mark], column: usize, display: usize) -> usize
    ensures within { result ≤ length marks.now }
    ensures column { 0 < result → (get_or marks.now (result - 1) line_start).column ≤ column }
    ensures display { 0 < result → (get_or marks.now (result - 1) line_start).display ≤ display }
{
    let mut low = 0;
    let mut high = marks.len();
    'halving: while low < high {
        let middle = low + (high - low) / 2;
        let mark = marks[middle];
        if mark.column <= column && mark.display <= display {
            low = middle + 1;
        } else {
            high = middle;
        }
    }
    low
}

// Returns the last of the marks, or the line's start.
fn last_of(marks: &[Mark]) -> Mark
    ensures none { length marks.now ≡ 0 → result ≡ line_start }
    ensures last { 0 < length marks.now
        → result ≡ get_or marks.now (length marks.now - 1) line_start }
{
    if marks.is_empty() {
        return LINE_START;
    }
    marks[marks.len() - 1]
}

// Appends marks of a line up to a column.
fn push_marks(marks: &mut Vec<Mark>, line: &str, tab_len: u8, column: usize)
    requires short { length line.now < size_limit }
    requires marks { AreMarks tab_len (chars line.now) marks.old.items }
    ensures { AreMarks tab_len (chars line.now) marks.new.items }
{
    let mut last = last_of(marks.as_slice());
    'marking: while last.column < column {
        let Some(next) = mark_after(line, last, column, tab_len) else {
            return;
        };
        if marks.push(next).is_err() {
            return;
        }
        last = next;
    }
}

// Returns the next mark after a known position that is some stretch away from it, and at most at a
// column, if the line has one.
fn mark_after(line: &str, known: Mark, to: usize, tab_len: u8) -> Option<Mark>
    requires known { IsMark tab_len (chars line.now) known }
    requires short { length line.now < size_limit }
    ensures mark { IfSome result (IsMark tab_len (chars line.now)) }
    ensures after { IfSome result (λ mark. known.column < mark.column) }
{
    let least = known.column + STRETCH;
    let mut at = known;
    if to < least {
        return None;
    }
    for c in line[known.offset..].chars() {
        if to <= at.column {
            return None;
        }
        let before = at.display;
        let display = display_column_after(c, before, tab_len);
        at = Mark {
            column: at.column + 1,
            offset: at.offset + c.len_utf8(),
            display,
        };
        if before < display && least <= at.column {
            return Some(at);
        }
    }
    None
}
