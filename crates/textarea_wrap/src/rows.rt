//! The byte ranges of a line's visual rows, with the number of the call that wrapped the line.
ghost use Rattle.std.specs.Prelude.{◌≡◌, ◌+◌, ◌≤◌, ◌↔◌, length, take, drop, IfOk, IsOk};
ghost use Rattle.textarea_wrap.specs.Marks.{range_count};

use crate::count::WrapCount;
use smallvec::SmallVec;
use std::alloc::AllocError;
use std::marker::Model;

/// Byte ranges of visual rows, and then marks of them. A single range is stored inline, and only
/// more need an allocation.
pub type Ranges = SmallVec<(usize, usize), 1>;

/// The byte ranges of a line's visual rows, marks of every eighth row, and the counter's number
/// after the call that wrapped the line. Only `line_ranges` and `clone` return one.
#[derive(Drop)]
pub struct Rows {
    // The ranges, and after them the marks, one for each eight rows. So a line of fewer rows takes
    // no memory for marks.
    items: Ranges,
    tick: WrapCount,
}

impl Model for Rows {
    ghost use Rattle.std.specs.Prelude.{drop, length, take};
    ghost use Rattle.textarea_wrap.specs.Marks.{range_count};
    ghost use Rattle.textarea_wrap.specs.RowsView.{RowsView};

    ghost Value = { RowsView };

    ghost view = { λ rows. record {
      ranges = take (range_count (length rows.items.items)) rows.items.items;
      marks = drop (range_count (length rows.items.items)) rows.items.items;
      tick = rows.tick;
    } };
}

// Returns how many of this number of ranges and marks are ranges.
fn range_count(count: usize) -> usize
    ensures { result ≡ range_count count }
{
    count - count / 9
}

impl Rows {
    // Counts a call that wraps a line, and returns its rows with the new number. A call that ran
    // out of memory is counted too, and its error is returned. Allocates nothing. Only
    // `line_ranges` calls this, and nothing else counts.
    pub(crate) fn counted(
        wrapped: Result<Ranges, AllocError>,
        count: &mut WrapCount,
    ) -> Result<Rows, AllocError>
        ensures counted { count.new ≡ count.old + 1 }
        ensures tick { IfOk result (λ rows. rows.tick ≡ count.new) }
        ensures ranges { IfOk wrapped (λ items. IfOk result (λ rows. rows.ranges
            ≡ take (range_count (length items.items)) items.items)) }
        ensures marks { IfOk wrapped (λ items. IfOk result (λ rows. rows.marks
            ≡ drop (range_count (length items.items)) items.items)) }
        ensures out_of_memory { IsOk result ↔ IsOk wrapped }
    {
        count.tick();
        Ok(Rows {
            items: wrapped?,
            tick: count.clone()?,
        })
    }

    /// Returns for each row the offset of its first byte and the offset after its last one.
    pub fn as_slice(&self) -> &[(usize, usize)]
        ensures { result.now ≡ self.now.ranges }
    {
        let items = self.items.as_slice();
        &items[..range_count(items.len())]
    }

    /// Returns the marks: for every eighth row, the number of the line's characters before it and
    /// the offset of its first byte.
    pub fn marks(&self) -> &[(usize, usize)]
        ensures { result.now ≡ self.now.marks }
    {
        let items = self.items.as_slice();
        &items[range_count(items.len())..]
    }
}

impl Clone for Rows {
    ghost is_clone = { λ rows copy. copy ≡ rows };

    ghost is_infallible = { λ rows. length rows.ranges ≤ 1 };

    /// Returns the same rows with the same `tick`. A single row needs no allocation.
    fn clone(&self) -> Result<Rows, AllocError> {
        Ok(Rows {
            items: self.items.clone()?,
            tick: self.tick.clone()?,
        })
    }
}
