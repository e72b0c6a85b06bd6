//! Wrapping of lines for a change.
ghost use Rattle.std.specs.Prelude.{◌≡◌, ◌≢◌, ◌+◌, ◌-◌, ◌^◌, ◌<◌, ◌≤◌, ◌++◌, [], ℕ, List, get_or, length, vec_capacity, vec_len, IfOk, None, OnOk};
ghost use Rattle.textarea_lines.specs.Prelude.{lines_of, AreRowsOf, ticks_after, ticks_of, all_rows, CanStayWhole, HasWholeLine, count_after, lines_after, AreReadyRows, CanReplace};
ghost use Rattle.textarea_screen_map.specs.Prepared.{IsPreparedFor, rows_in};

use crate::settings::{LayoutSettings, is_same, wrapping_for};
use std::alloc::{AllocError, Global};
use textarea_screen_map::layout::Wrapping;
use textarea_screen_map::screen_map::{NewRows, PreparedRows, ScreenMap};
use textarea_screen_map::wrapped_blocks::{RowBlocks, push_lines};
use textarea_text::rows::Replacement;
use textarea_wrap::wrap::{Rows, WrapCount, WrapMode, line_ranges};

// The number of visual rows of all lines at a wrapping.
#[derive(Clone, Copy, Debug, PartialEq, Eq)]
pub struct Measured {
    pub wrapping: Wrapping,
    pub rows: usize,
}

// The visual rows of all lines, wrapped from scratch, and the counter after that.
#[derive(Drop)]
pub struct WrappedRows {
    pub map: ScreenMap,
    pub count: WrapCount,
}

// Drops the cached rows, if there are any.
pub(crate) fn drop_measured(cached: &mut Option<WrappedRows>)
    ensures { cached.new ≡ None }
{
    *cached = None;
}

// Returns the rows of all lines after the replacement: above it, in it, and below it.
fn rows_after(
    alloc: Global,
    lines: &[String],
    replacement: &Replacement,
    wrapping: Wrapping,
    count: &mut WrapCount,
) -> Result<RowBlocks, AllocError>
    requires { replacement.now.row + replacement.now.count ≤ length lines.now }
    ensures counted { OnOk result
        (count.new ≡ count.old + count_after (length lines.now) replacement.now) }
    ensures rows { IfOk result (λ rows.
        AreRowsOf wrapping (lines_after lines.now replacement.now) (all_rows rows.blocks)) }
    ensures ticks { IfOk result (λ rows. ticks_of (all_rows rows.blocks)
        ≡ ticks_after count.old (count_after (length lines.now) replacement.now)) }
    ensures never_less { count.old ≤ count.new }
{
    let none = RowBlocks::new(alloc);
    let above = with_rows_of(alloc, none, &lines[..replacement.row], wrapping, count)?;
    let new = replacement.lines.as_slice();
    let through = with_rows_of(alloc, above, new, wrapping, count)?;
    let below = &lines[replacement.row + replacement.count..];
    let all = with_rows_of(alloc, through, below, wrapping, count)?;
    Ok(all)
}

// Returns the rows, and after them those of these lines.
fn with_rows_of(
    alloc: Global,
    mut rows: RowBlocks,
    lines: &[String],
    wrapping: Wrapping,
    count: &mut WrapCount,
) -> Result<RowBlocks, AllocError>
    ensures counted { OnOk result (count.new ≡ count.old + length lines.now) }
    ensures never_less { count.old ≤ count.new }
    ensures rows { (before : List (List ℕ)) → AreRowsOf wrapping before (all_rows rows.blocks) →
        IfOk result
        (λ whole. AreRowsOf wrapping (before ++ lines_of lines.now) (all_rows whole.blocks)) }
    ensures ticks { IfOk result (λ whole. ticks_of (all_rows whole.blocks)
        ≡ ticks_of (all_rows rows.blocks) ++ ticks_after count.old (length lines.now)) }
{
    push_lines(alloc, &mut rows, lines, wrapping, count)?;
    Ok(rows)
}

// Returns the rows of the replacement's lines, which are wrapped as before. Of one line that
// replaces another one, only what the change may have changed is wrapped.
fn prepare_lines(
    alloc: Global,
    map: &mut ScreenMap,
    lines: &[String],
    replacement: &Replacement,
    wrapping: Wrapping,
    count: &mut WrapCount,
) -> Result<PreparedRows, AllocError>
    requires within { replacement.now.row + replacement.now.count ≤ length lines.now }
    requires rows { AreRowsOf wrapping (lines_of lines.now) map.old.rows }
    ensures same { map.new.rows ≡ map.old.rows }
    ensures same_wrapping { map.new.wrapping ≡ map.old.wrapping }
    ensures prepared { IfOk result
        (IsPreparedFor map.new replacement.now.row replacement.now.count wrapping) }
    ensures rows { IfOk result (λ prepared.
        AreRowsOf wrapping (lines_of replacement.now.lines.items) (rows_in prepared.rows)) }
    ensures ticks { IfOk result (λ prepared. ticks_of (rows_in prepared.rows)
        ≡ ticks_after count.old (length replacement.now.lines.items)) }
    ensures counted { OnOk result
        (count.new ≡ count.old + length replacement.now.lines.items) }
    ensures never_less { count.old ≤ count.new }
{
    let row = replacement.row;
    let new = replacement.lines.as_slice();
    if replacement.count != 1 || new.len() != 1 {
        return map.prepare(alloc, row, replacement.count, new, wrapping, count);
    }
    map.prepare_changed(
        alloc,
        row,
        lines[row].as_str(),
        new[0].as_str(),
        wrapping,
        count,
    )
}

// Returns the rows to put in for the replacement: those of its lines, or of all lines if the new
// number of lines changes how lines are wrapped.
fn prepare_rows(
    alloc: Global,
    map: &mut ScreenMap,
    lines: &[String],
    replacement: &Replacement,
    settings: LayoutSettings,
    count: &mut WrapCount,
) -> Result<PreparedRows, AllocError>
    requires { CanReplace settings lines.now map.old replacement.now }
    ensures same { map.new.rows ≡ map.old.rows }
    ensures same_wrapping { map.new.wrapping ≡ map.old.wrapping }
    ensures ready { IfOk result
        (AreReadyRows settings lines.now map.new replacement.now count.old count.new) }
    ensures never_less { count.old ≤ count.new }
{
    let new = replacement.lines.as_slice();
    let before = map.wrapping();
    let after = wrapping_for(settings, lines.len() - replacement.count + new.len());
    if is_same(after, before) {
        return prepare_lines(alloc, map, lines, replacement, after, count);
    }
    let rows = rows_after(alloc, lines, replacement, after, count)?;
    map.make_room(0, lines.len(), NewRows::Many(rows), after)
}

// Wraps lines for the replacement and reserves room. Lines and rows don't change yet.
pub(crate) fn prepare_rows_for(
    lines: &mut Vec<String>,
    map: &mut ScreenMap,
    replacement: &Replacement,
    settings: LayoutSettings,
    count: &WrapCount,
) -> Result<(PreparedRows, WrapCount), AllocError>
    requires { CanReplace settings lines.old.items map.old replacement.now }
    ensures same_lines { lines.new.items ≡ lines.old.items }
    ensures same { map.new.rows ≡ map.old.rows }
    ensures same_wrapping { map.new.wrapping ≡ map.old.wrapping }
    ensures room { OnOk result (length lines.old.items + vec_len replacement.now.lines
        ≤ vec_capacity lines.new + replacement.now.count) }
    ensures ready { IfOk result (λ ready.
        AreReadyRows settings lines.old.items map.new replacement.now count.now ready.1 ready.0) }
{
    let mut after = count.clone()?;
    let alloc = *lines.allocator();
    let prepared = prepare_rows(
        alloc,
        map,
        lines.as_slice(),
        replacement,
        settings,
        &mut after,
    )?;
    let more = replacement.lines.len().saturating_sub(replacement.count);
    lines.reserve(more)?;
    Ok((prepared, after))
}

// Replaces the row of a line that isn't wrapped. `size` is that of all lines then. `rows` has room
// for the new row, so this allocates nothing.
pub(crate) fn put_whole_line(
    alloc: Global,
    map: &mut ScreenMap,
    mut rows: Vec<Rows>,
    lines: &[String],
    row: usize,
    size: usize,
    count: &mut WrapCount,
)
    requires empty { vec_len rows ≡ 0 }
    requires room { 1 ≤ vec_capacity rows }
    requires whole { CanStayWhole lines.now map.old.rows row size }
    ensures rows { HasWholeLine map.old.wrapping.tab_len (get_or (lines_of lines.now) row []) row
        (count.old + 1) map.old.rows map.new.rows }
    ensures wrapping { map.new.wrapping ≡ map.old.wrapping }
    ensures counted { count.new ≡ count.old + 1 }
{
    let wrapping = map.wrapping();
    let line = lines[row].as_str();
    let wrapped = line_ranges(alloc, line, WrapMode::None, 1, wrapping.tab_len, count).unwrap();
    let _ = rows.push(wrapped);
    map.replace(PreparedRows {
        row,
        count: 1,
        rows: NewRows::Few(rows),
        total: map.row_count(),
        size,
        wrapping,
    });
}
