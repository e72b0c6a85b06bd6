//! The visual rows of several lines.
ghost use Rattle.std.specs.Prelude.{◌≡◌, ◌+◌, ◌≤◌, ◌∷◌, ◌++◌, [], ℕ, List, chars, length, max, IfOk, OnOk};
ghost use Rattle.textarea_screen_map.specs.Prelude.{size_limit, size_of, lines_of, AreRowsOf, ticks_after, ticks_of, IsRowCount};
ghost use Rattle.textarea_wrap.specs.Marks.{marks_of};
ghost use Rattle.textarea_wrap.specs.WrapResult.{IsWrapped};

use std::alloc::{AllocError, Global};
use textarea_text::rows::size_within_limit;
use textarea_wrap::wrap::{Rows, WrapCount, WrapMode, line_ranges, line_ranges_after};

/// How lines are wrapped: the mode, the width in columns, where 0 counts as 1, and the columns
/// between tab stops. In the mode `None` each line is one row.
#[derive(Clone, Copy, Debug, PartialEq, Eq)]
pub struct Wrapping {
    pub mode: WrapMode,
    pub width: usize,
    pub tab_len: u8,
}

/// A position in the layout: a visual row, and a display column in it, both from 0.
#[derive(Clone, Copy, Debug, PartialEq, Eq)]
pub struct VisualPosition {
    pub row: usize,
    pub column: usize,
}

/// Wraps the lines and appends their rows. Each line adds one to `count`.
pub fn push_rows(
    alloc: Global,
    rows: &mut Vec<Rows>,
    lines: &[String],
    wrapping: Wrapping,
    count: &mut WrapCount,
) -> Result<(), AllocError>
    ensures counted { OnOk result (count.new ≡ count.old + length lines.now) }
    ensures never_less { count.old ≤ count.new }
    ensures rows { (before : List (List ℕ)) → AreRowsOf wrapping before rows.old.items
        → OnOk result (AreRowsOf wrapping (before ++ lines_of lines.now) rows.new.items) }
    ensures ticks { OnOk result (ticks_of rows.new.items
        ≡ ticks_of rows.old.items ++ ticks_after count.old (length lines.now)) }
{
    for i in 0..lines.len() {
        let wrapped = line_ranges(
            alloc,
            lines[i].as_str(),
            wrapping.mode,
            wrapping.width,
            wrapping.tab_len,
            count,
        )?;
        rows.push(wrapped)?;
    }
    Ok(())
}

/// Returns the rows of all these lines. Each line adds one to `count`.
pub fn rows_of(
    alloc: Global,
    lines: &[String],
    wrapping: Wrapping,
    count: &mut WrapCount,
) -> Result<Vec<Rows>, AllocError>
    ensures counted { OnOk result (count.new ≡ count.old + length lines.now) }
    ensures never_less { count.old ≤ count.new }
    ensures rows { IfOk result (λ rows. AreRowsOf wrapping (lines_of lines.now) rows.items) }
    ensures ticks { IfOk result (λ rows.
        ticks_of rows.items ≡ ticks_after count.old (length lines.now)) }
{
    let mut rows = Vec::with_capacity(alloc, lines.len())?;
    push_rows(alloc, &mut rows, lines, wrapping, count)?;
    Ok(rows)
}

/// Returns the rows of a line that replaces another one, `old_line`, whose rows are `old`. The same
/// as `rows_of`, but only what the change may have changed is wrapped. Adds one to `count`.
pub fn rows_of_changed(
    alloc: Global,
    line: &str,
    old_line: &str,
    old: &Rows,
    wrapping: Wrapping,
    count: &mut WrapCount,
) -> Result<Vec<Rows>, AllocError>
    requires wrapped { IsWrapped wrapping.mode wrapping.tab_len (max wrapping.width 1) old_line.now
        old.now.ranges }
    requires marked { old.now.marks ≡ marks_of old_line.now old.now.ranges }
    ensures counted { OnOk result (count.new ≡ count.old + 1) }
    ensures never_less { count.old ≤ count.new }
    ensures rows { IfOk result (λ rows. AreRowsOf wrapping (chars line.now ∷ []) rows.items) }
    ensures ticks { IfOk result (λ rows. ticks_of rows.items ≡ ticks_after count.old 1) }
{
    let mut rows = Vec::with_capacity(alloc, 1)?;
    let wrapped = line_ranges_after(
        alloc,
        line,
        wrapping.mode,
        wrapping.width,
        wrapping.tab_len,
        old_line,
        old,
        count,
    )?;
    rows.push(wrapped)?;
    Ok(rows)
}

/// Returns the number of rows of the lines. Wraps each line once and stores no row. More than 2^48
/// bytes and lines together are out of memory.
pub fn rows_in(alloc: Global, lines: &[String], wrapping: Wrapping) -> Result<usize, AllocError>
    ensures rows { IfOk result (IsRowCount wrapping (lines_of lines.now)) }
    ensures limit { OnOk result (size_of lines.now ≤ size_limit) }
{
    size_within_limit(lines)?;
    let Wrapping {
        mode,
        width,
        tab_len,
    } = wrapping;
    let mut count = WrapCount::new();
    let mut total = 0;
    for line in lines {
        let wrapped = line_ranges(alloc, line.as_str(), mode, width, tab_len, &mut count)?;
        total += wrapped.as_slice().len();
    }
    Ok(total)
}
