//! Single steps of a line break in the middle of many lines, in the screen map and among the lines'
//! headers; and the move of the bytes after a character that is typed in a long line.
ghost use Rattle.std.specs.Prelude.{◌≡◌, ◌+◌, ◌<◌, ◌≤◌, length, vec_len, IfOk, OnOk};

use std::alloc::{AllocError, Global};
use textarea_screen_map::layout::Wrapping;
use textarea_screen_map::screen_map::ScreenMap;
use textarea_screen_map::wrapped_blocks::BLOCK;
use textarea_util::replace::replace_items;
use textarea_wrap::wrap::{WrapCount, WrapMode};

const WRAPPED: Wrapping = Wrapping {
    mode: WrapMode::WordOrGlyph,
    width: 80,
    tab_len: 4,
};

/// Breaks a line in the screen map, in the middle of the block in the lines' middle, and joins it
/// again, `times` times. Returns the number of visual rows.
pub fn break_in_map(alloc: Global, lines: &[String], times: usize) -> Result<usize, AllocError> {
    let mut counter = WrapCount::new();
    let mut map = ScreenMap::new(alloc, lines, WRAPPED, &mut counter)?;
    let row = lines.len() / 2 / BLOCK * BLOCK + BLOCK / 2;
    let mut broken = Ok(());
    if row < lines.len() {
        broken = break_rows(alloc, &mut map, row, times, &mut counter);
    }
    let rows = map.row_count();
    drop(map);
    broken?;
    Ok(rows)
}

// Replaces one line by two, and these two by one, `times` times.
fn break_rows(
    alloc: Global,
    map: &mut ScreenMap,
    row: usize,
    times: usize,
    counter: &mut WrapCount,
) -> Result<(), AllocError>
    requires { row < length map.old.rows }
{
    let components = texts(
        alloc,
        &[
            "A line that is as wide as the screen,",
            " so that one character more takes a row mor",
        ],
    )?;
    let whole = texts(
        alloc,
        &["A line that is as wide as the screen, so that one character more takes a row mor"],
    )?;
    for _ in 0..times {
        put_rows(alloc, map, row, 1, components.as_slice(), counter)?;
        put_rows(alloc, map, row, 2, whole.as_slice(), counter)?;
    }
    Ok(())
}

// Replaces the rows of `count` lines by those of others.
fn put_rows(
    alloc: Global,
    map: &mut ScreenMap,
    row: usize,
    count: usize,
    lines: &[String],
    counter: &mut WrapCount,
) -> Result<(), AllocError>
    requires { row + count ≤ length map.old.rows }
    ensures { OnOk result (length map.new.rows + count ≡ length map.old.rows + length lines.now) }
{
    let prepared = map.prepare(alloc, row, count, lines, WRAPPED, counter)?;
    map.replace(prepared);
    Ok(())
}

fn texts(alloc: Global, input: &[&str]) -> Result<Vec<String>, AllocError>
    ensures { IfOk result (λ lines. vec_len lines ≡ length input.now) }
{
    let mut lines = Vec::new(alloc);
    for text in input {
        lines.push(String::from_str(alloc, *text)?)?;
    }
    Ok(lines)
}

/// Moves the lines' headers as a break in their middle does, and back. Returns their number.
pub fn break_headers(
    alloc: Global,
    lines: &mut Vec<String>,
    times: usize,
) -> Result<usize, AllocError> {
    for _ in 0..times {
        move_headers(alloc, lines)?;
    }
    Ok(lines.len())
}

fn move_headers(alloc: Global, lines: &mut Vec<String>) -> Result<(), AllocError> {
    if lines.is_empty() {
        return Ok(());
    }
    let middle = lines.len() / 2;
    let (two, one) = (texts(alloc, &["", ""])?, texts(alloc, &[""])?);
    lines.reserve(1)?;
    replace_items(lines, middle, 1, two);
    replace_items(lines, middle, 2, one);
    Ok(())
}

/// Moves bytes as a character of two bytes does in the middle of a line of `characters` such
/// characters, and back, `times` times. Returns the number of bytes.
pub fn move_bytes(alloc: Global, characters: usize, times: usize) -> Result<usize, AllocError> {
    let mut bytes = Vec::new(alloc);
    bytes.resize(characters.saturating_mul(2), 0u8)?;
    for _ in 0..times {
        move_to_end(alloc, &mut bytes)?;
    }
    Ok(bytes.len())
}

fn move_to_end(alloc: Global, bytes: &mut Vec<u8>) -> Result<(), AllocError> {
    let middle = bytes.len() / 2;
    let character = vec![in alloc; 0xc3u8, 0xa9]?;
    bytes.reserve(2)?;
    replace_items(bytes, middle, 0, character);
    replace_items(bytes, middle, 2, Vec::new(alloc));
    Ok(())
}
