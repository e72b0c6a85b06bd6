//! The visual rows of lines after several changes, of which only those are wrapped that a change
//! touched.
ghost use Rattle.std.specs.Prelude.{◌≡◌, ◌∷◌, [], chars, length, IfOk, OnOk};
ghost use Rattle.textarea_lines.specs.Prelude.{all_rows, lines_of};
ghost use Rattle.textarea_lines.specs.RowsAtOnce.{AreRowsAtOnce, HasOldRows, HaveOldRows};

use std::alloc::{AllocError, Global};
use textarea_screen_map::screen_map::ScreenMap;
use textarea_screen_map::wrapped_blocks::{BLOCK, RowBlocks};
use textarea_wrap::wrap::{Rows, WrapCount, line_ranges};

/// Returns the map of lines that come from there, in the wrapping of the old map. Each line keeps
/// the rows of the line that it comes from, and those that come from none are wrapped, each once.
pub(crate) fn map_at_once(
    alloc: Global,
    old: &ScreenMap,
    lines: &[String],
    origins: &[Option<usize>],
    count: &mut WrapCount,
) -> Result<ScreenMap, AllocError>
    requires long { length origins.now ≡ length lines.now }
    requires rows { HaveOldRows old.now origins.now (lines_of lines.now) }
    ensures wrapping { IfOk result (λ map. map.wrapping ≡ old.now.wrapping) }
    ensures rows { IfOk result (λ map. AreRowsAtOnce old.now count.old (lines_of lines.now)
        origins.now map.rows count.new) }
{
    let mut blocks = RowBlocks::new(alloc);
    push_at_once(alloc, &mut blocks, old, lines, origins, count)?;
    ScreenMap::of_rows(blocks, old.wrapping())
}

// Appends the rows of the lines to no rows, in blocks of `BLOCK` lines and a last one.
fn push_at_once(
    alloc: Global,
    blocks: &mut RowBlocks,
    old: &ScreenMap,
    lines: &[String],
    origins: &[Option<usize>],
    count: &mut WrapCount,
) -> Result<(), AllocError>
    requires none { blocks.old.blocks ≡ [] }
    requires long { length origins.now ≡ length lines.now }
    requires rows { HaveOldRows old.now origins.now (lines_of lines.now) }
    ensures { OnOk result (AreRowsAtOnce old.now count.old (lines_of lines.now) origins.now
        (all_rows blocks.new.blocks) count.new) }
{
    let mut from = 0;
    'wraps: while from < lines.len() {
        let to = lines.len().min(from + BLOCK);
        let rows = rows_at_once(alloc, old, &lines[from..to], &origins[from..to], count)?;
        blocks.push(rows)?;
        from = to;
    }
    Ok(())
}

// Returns the rows of the lines.
fn rows_at_once(
    alloc: Global,
    old: &ScreenMap,
    lines: &[String],
    origins: &[Option<usize>],
    count: &mut WrapCount,
) -> Result<Vec<Rows>, AllocError>
    requires long { length origins.now ≡ length lines.now }
    requires rows { HaveOldRows old.now origins.now (lines_of lines.now) }
    ensures { IfOk result (λ rows. AreRowsAtOnce old.now count.old (lines_of lines.now)
        origins.now rows.items count.new) }
{
    let mut rows = Vec::with_capacity(alloc, lines.len())?;
    for i in 0..lines.len() {
        let of_line = rows_of_line(alloc, old, lines[i].as_str(), origins[i], count)?;
        rows.push(of_line)?;
    }
    Ok(rows)
}

// Returns the rows of a line: those of the old line that it comes from, or else new ones.
fn rows_of_line(
    alloc: Global,
    old: &ScreenMap,
    line: &str,
    origin: Option<usize>,
    count: &mut WrapCount,
) -> Result<Rows, AllocError>
    requires { HasOldRows old.now origin (chars line.now) }
    ensures { IfOk result (λ rows. AreRowsAtOnce old.now count.old (chars line.now ∷ [])
        (origin ∷ []) (rows ∷ []) count.new) }
{
    match origin {
        Some(number) => old.rows_at(number).clone(),
        None => {
            let wrapping = old.wrapping();
            line_ranges(
                alloc,
                line,
                wrapping.mode,
                wrapping.width,
                wrapping.tab_len,
                count,
            )
        }
    }
}
