//! The units of a line, between which a word mode may begin a visual row.
ghost use Rattle.std.specs.Prelude.{◌≡◌, map, IfOk};
ghost use Rattle.textarea_wrap.specs.Units.{is_blank, line_units};

use std::alloc::{AllocError, Global};
use unicode_segmentation::UnicodeSegmentation;

/// Returns whether each character is whitespace.
pub fn is_all_whitespace(text: &str) -> bool
    ensures { result ≡ is_blank text.now }
{
    text.chars().all(|c| c.is_whitespace())
}

/// Returns the word segments (UAX #29) of the line; blank ones are split into grapheme clusters.
pub fn collect_units<'a>(alloc: Global, line: &'a str) -> Result<Vec<&'a str>, AllocError>
    ensures { IfOk result (λ units. map (λ unit. unit.now) units.items ≡ line_units line.now) }
{
    let mut units = Vec::new(alloc);
    for segment in line.split_word_bounds() {
        if is_all_whitespace(segment) {
            for cluster in segment.graphemes(true) {
                units.push(cluster)?;
            }
        } else {
            units.push(segment)?;
        }
    }
    Ok(units)
}
