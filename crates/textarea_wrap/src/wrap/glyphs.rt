//! Wrapping at the ends of grapheme clusters.
ghost use Rattle.std.specs.Prelude.{◌≡◌, ℕ, ◌+◌, ◌*◌, ◌^◌, ◌<◌, ◌≤◌, List, ◌++◌, length, OnOk};
ghost use Rattle.textarea_wrap.specs.Prelude.{concat, IsGlyphWrapping, ranges_from};

use super::columns::column_after_text;
use super::{Ranges, push_nonempty};
use std::alloc::AllocError;
use unicode_segmentation::UnicodeSegmentation;

/// Appends the byte ranges of the text's visual rows. The text begins at the offset `start`.
pub fn push_glyph_rows(
    rows: &mut Ranges,
    text: &str,
    start: usize,
    width: usize,
    tab_len: u8,
) -> Result<(), AllocError>
    requires { start + 255 * length text.now < 2 ^ 63 }
    ensures { OnOk result ((texts : List (List ℕ)) × IsGlyphWrapping tab_len width text.now texts
        × (concat texts ≡ text.now)
        × (rows.new.items ≡ rows.old.items ++ ranges_from start texts)) }
{
    let mut row_start = start;
    let mut row_end = start;
    let mut column = 0;
    for cluster in text.graphemes(true) {
        let end = column_after_text(cluster, column, tab_len);
        if row_start < row_end && width < end {
            rows.push((row_start, row_end))?;
            row_start = row_end;
            column = column_after_text(cluster, 0, tab_len);
        } else {
            column = end;
        }
        row_end += cluster.len();
    }
    push_nonempty(rows, row_start, row_end)
}
