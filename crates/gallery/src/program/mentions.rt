//! Mentions: names in a text area that are atomic ranges.
ghost use Rattle.std.specs.Prelude.{◌≡◌, ◌&&◌, Contains, IfOk, drop, encode_utf8_all, is_some, not, string_bytes, take, true};
ghost use Rattle.std.specs.Str.{chars};
ghost use Rattle.gallery.specs.Mentions.{AreWhole, names};
ghost use Rattle.textarea_ranges.specs.Moved.{covered_characters};
ghost use Rattle.textarea_text.specs.Text.{lines};

use crate::program::byte_of;
use std::alloc::{AllocError, Global};
use textarea_text::places::line_of;
use tui_textarea::input_laws::ranges_cover_as_before;
use tui_textarea::laws::is_sound;
use tui_textarea::outcomes::laws::ranges_cover_no_more;
use tui_textarea::{AtomicRange, AtomicRangeError, Input, Style, TextArea};

/// Returns one of the names, by turns.
pub fn name_of(turn: usize) -> &'static str
    ensures { Contains names result.now }
{
    match turn % 3 {
        0 => "@Ada",
        1 => "@Alan",
        _ => "@Grace",
    }
}

// Returns whether names are inserted whole: a text area that is read only takes none, and one with a
// greatest number of characters may cut them.
fn takes_whole_names(area: &TextArea<'_>) -> bool
    ensures { result
        ≡ (not area.now.settings.read_only && not (is_some area.now.settings.max_chars)) }
{
    !area.read_only() && area.max_chars().is_none()
}

/// Inserts a name at the cursor as a mention, unless it could be cut, or as plain text if an accent
/// after it joins it. All mentions stay whole.
pub fn mention(
    area: &mut TextArea<'_>,
    alloc: Global,
    name: &str,
) -> Result<Result<(), AtomicRangeError>, AllocError>
    requires { Contains names name.now }
    ensures { AreWhole area.old → AreWhole area.new }
{
    is_sound(area);
    ranges_cover_no_more();
    if !takes_whole_names(area) {
        return Ok(Ok(()));
    }
    area.insert_str(name)?;
    // A name has a byte for each character.
    let range = before_cursor(area, name.len());
    let is_whole = covers(area, range, name)?;
    if !is_whole {
        return Ok(Ok(()));
    }
    let mut ranges = Vec::from_slice(alloc, area.atomic_ranges())?;
    ranges.push(range)?;
    area.try_set_atomic_ranges(ranges)
}

// Returns the range of this number of characters before the cursor.
fn before_cursor(area: &TextArea<'_>, count: usize) -> AtomicRange {
    let (row, end_col) = area.cursor();
    AtomicRange {
        row,
        start_col: end_col.saturating_sub(count),
        end_col,
    }
}

// Returns whether a range covers a name.
fn covers(area: &TextArea<'_>, range: AtomicRange, name: &str) -> Result<bool, AllocError>
    ensures { IfOk result (λ covers. covers ≡ true →
        covered_characters (lines area.now.document.text) range ≡ chars name.now) }
{
    let lines = area.lines();
    if range.row >= lines.len() {
        return Ok(false);
    }
    let line = line_of(lines, range.row);
    let count = range.end_col.saturating_sub(range.start_col);
    let found = section(area.allocator(), line, range.start_col, count)?;
    Ok(found.as_str() == name)
}

// Returns this number of a line's characters from a column on.
fn section(alloc: Global, line: &str, column: usize, count: usize) -> Result<String, AllocError>
    ensures { IfOk result (λ section. string_bytes section
        ≡ encode_utf8_all (take count (drop column (chars line.now)))) }
{
    line.chars().skip(column).take(count).collect(alloc)
}

/// Gives an input to a text area. All mentions stay whole.
pub fn edit(area: &mut TextArea<'_>, input: Input) -> Result<(), AllocError>
    ensures { AreWhole area.old → AreWhole area.new }
{
    is_sound(area);
    ranges_cover_as_before();
    area.input(input)?;
    Ok(())
}

/// Lights these ranges, and nothing else. The text and its ranges stay.
pub fn light_all(area: &mut TextArea<'_>, ranges: &[AtomicRange]) -> Result<(), AllocError>
    ensures { area.new.document ≡ area.old.document }
{
    area.clear_custom_highlight();
    for range in ranges {
        light(area, *range)?;
    }
    Ok(())
}

// Lights a range.
fn light(area: &mut TextArea<'_>, range: AtomicRange) -> Result<(), AllocError>
    ensures { area.new.document ≡ area.old.document }
{
    let Some(line) = area.lines().get(range.row) else {
        return Ok(());
    };
    let start = (range.row, byte_of(line.as_str(), range.start_col));
    let end = (range.row, byte_of(line.as_str(), range.end_col));
    area.custom_highlight((start, end), Style::new().light_blue().bold(), 5)
}
