//! The number of visual rows of lines, and the size of the lines by their rows.
ghost use Rattle.std.specs.Prelude.{◌≡◌, min};
ghost use Rattle.textarea_blocks.specs.Sums.{line_bytes, row_total, size_total};

use textarea_wrap::rows::Rows;

/// Returns the number of visual rows in all, at most the greatest `usize`.
pub fn count_rows(rows: &[Rows]) -> usize
    ensures { result ≡ min (row_total rows.now) usize.MAX }
{
    let mut total = 0usize;
    for line in rows {
        total = total.saturating_add(line.as_slice().len());
    }
    total
}

/// Returns the sum of the bytes and the number of the lines, at most the greatest `usize`.
#[inline]
pub fn size_of_rows(rows: &[Rows]) -> usize
    ensures { result ≡ min (size_total rows.now) usize.MAX }
{
    let mut size = 0usize;
    for line in rows {
        size = size
            .saturating_add(line_bytes(line.as_slice()))
            .saturating_add(1);
    }
    size
}

// Returns the bytes of the line that has these rows.
fn line_bytes(ranges: &[(usize, usize)]) -> usize
    ensures { result ≡ line_bytes ranges.now }
{
    match ranges.last() {
        Some(range) => range.1,
        None => 0,
    }
}
