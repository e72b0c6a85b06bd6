//! Wrapping at the ends of units.
ghost use Rattle.std.specs.Prelude.{◌≡◌, ℕ, ◌+◌, ◌*◌, ◌^◌, ◌<◌, ◌≤◌, ◌↔◌, List, [], ◌∷◌, ◌++◌, length, map, IsTrue, IfOk, OnOk};
ghost use Rattle.textarea_wrap.specs.Prelude.{concat, flat_map, AllByRecursion, Stretch, UnitBlock, AreBlocks, HangsOver, begins_with_content, units_of, rows_of, ranges_from, IsWordWalk};

use super::columns::column_after_text;
use super::glyphs::push_glyph_rows;
use super::units::is_all_whitespace;
use super::{Ranges, push_nonempty};
use std::alloc::AllocError;

/// Returns whether there is a unit and the first is not all whitespace.
fn starts_with_content(units: &[&str]) -> bool
    ensures { result ≡ begins_with_content (map (λ unit. unit.now) units.now) }
{
    match units.first() {
        None => false,
        Some(unit) => !is_all_whitespace(unit),
    }
}

// A visual row that is being filled: its first offset, and the offset and column after it.
#[derive(Clone, Copy)]
struct OpenRow {
    start: usize,
    end: usize,
    column: usize,
}

/// Returns whether the row has a unit, and `unit` is whitespace after it that ends one column past
/// the width, before content.
fn hangs_over(row: OpenRow, unit: &str, later: &[&str], end: usize, width: usize) -> bool
    ensures { IsTrue result ↔ (row.start < row.end)
        × HangsOver width end unit.now (map (λ unit. unit.now) later.now) }
{
    row.start < row.end
        && width < end
        && end - 1 == width
        && is_all_whitespace(unit)
        && starts_with_content(later)
}

// Puts a unit into the open row or the next, or gives it rows of its own. Returns the open row.
fn place_unit(
    rows: &mut Ranges,
    row: OpenRow,
    unit: &str,
    later: &[&str],
    width: usize,
    tab_len: u8,
) -> Result<OpenRow, AllocError>
    requires some { 0 < length unit.now }
    requires short { row.end + 255 * length unit.now < 2 ^ 63 }
    requires narrow { row.column + 255 * length unit.now < 2 ^ 63 }
    ensures placed { IfOk result (λ placed. (units : Stretch) → (before : List (ℕ × ℕ))
        → IsWordWalk tab_len width units before rows.old.items
        (unit.now ∷ map (λ unit. unit.now) later.now) row.start row.end row.column
        → IsWordWalk tab_len width units before rows.new.items
        (map (λ unit. unit.now) later.now) placed.start placed.end placed.column) }
    ensures end { IfOk result (λ placed. placed.end ≡ row.end + length unit.now) }
    ensures near { IfOk result (λ placed. placed.column ≤ row.column + 255 * length unit.now) }
{
    let end = row.end + unit.len();
    let joined = column_after_text(unit, row.column, tab_len);
    if joined <= width || hangs_over(row, unit, later, joined, width) {
        return Ok(OpenRow {
            start: row.start,
            end,
            column: joined,
        });
    }
    push_nonempty(rows, row.start, row.end)?;
    let single = column_after_text(unit, 0, tab_len);
    if single <= width {
        return Ok(OpenRow {
            start: row.end,
            end,
            column: single,
        });
    }
    push_glyph_rows(rows, unit, row.end, width, tab_len)?;
    Ok(OpenRow {
        start: end,
        end,
        column: 0,
    })
}

/// Appends the byte ranges of the visual rows of these units, which make up the line.
pub fn push_word_rows(
    rows: &mut Ranges,
    units: &[&str],
    width: usize,
    tab_len: u8,
) -> Result<(), AllocError>
    requires nonempty { AllByRecursion (λ unit. 0 < length unit)
        (map (λ unit. unit.now) units.now) }
    requires short { 255 * length (concat (map (λ unit. unit.now) units.now)) < 2 ^ 62 }
    ensures { OnOk result
        ((blocks : List UnitBlock) × (flat_map units_of blocks ≡ map (λ unit. unit.now) units.now)
        × AreBlocks tab_len width blocks []
        × (rows.new.items ≡ rows.old.items ++ ranges_from 0 (flat_map rows_of blocks))) }
{
    let mut row = OpenRow {
        start: 0,
        end: 0,
        column: 0,
    };
    for (i, unit) in units.iter().enumerate() {
        row = place_unit(rows, row, unit, &units[i + 1..], width, tab_len)?;
    }
    push_nonempty(rows, row.start, row.end)
}
