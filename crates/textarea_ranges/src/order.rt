//! The order of ranges.
ghost use Rattle.std.specs.Prelude.{◌≡◌, IfOk};
ghost use Rattle.textarea_ranges.specs.Order.{in_order};

use std::alloc::AllocError;
use textarea_data::range::AtomicRange;

/// Returns the ranges by row and start, ties in their order. Fails only when out of memory.
pub fn in_order(mut ranges: Vec<AtomicRange>) -> Result<Vec<AtomicRange>, AllocError>
    ensures { IfOk result (λ ordered. ordered.items ≡ in_order ranges.items) }
{
    ranges.sort_by_key(|range| (range.row, range.start_col))?;
    Ok(ranges)
}
