//! Wraps lines of given sizes and counts their visual rows.
//!
//! A job has five fields with one space between them: a mode's name, a number of kilobytes, how
//! often to wrap, a width, and a text, which is repeated to that size. The tab length is 4.
ghost use Rattle.std.specs.Prelude.{◌≡◌, ℕ, max, List, length, IfOk};
ghost use Rattle.textarea_wrap.specs.WrapResult.{IsWrapped};

use std::alloc::{AllocError, Global};
use textarea_wrap::wrap::{WrapCount, WrapMode, line_ranges};

const TAB_LEN: u8 = 4;

/// A line to wrap: a text, repeated to a number of bytes, at a width, `times` times.
#[derive(Drop)]
pub struct WrapJob<'a> {
    mode: WrapMode,
    kilobytes: usize,
    times: usize,
    width: usize,
    text: &'a str,
}

impl<'a> WrapJob<'a> {
    pub fn parse(line: &'a str) -> Option<WrapJob<'a>> {
        let mut components = line.splitn(5, ' ');
        let mode = mode_named(components.next()?)?;
        let kilobytes = components.next()?.parse().ok()?;
        let times = components.next()?.parse().ok()?;
        let width = components.next()?.parse().ok()?;
        let text = components.next()?;
        Some(WrapJob {
            mode,
            kilobytes,
            times,
            width,
            text,
        })
    }

    /// Returns the number of rows, the same each time.
    pub fn run(&self, alloc: Global) -> Result<usize, AllocError> {
        let line = repeat(alloc, self.text, self.kilobytes.saturating_mul(1000))?;
        let mut rows = 0;
        for _ in 0..self.times {
            rows = count_rows(alloc, line.as_str(), self.mode, self.width)?;
        }
        Ok(rows)
    }
}

fn mode_named(name: &str) -> Option<WrapMode> {
    match name {
        "None" => Some(WrapMode::None),
        "Word" => Some(WrapMode::Word),
        "Glyph" => Some(WrapMode::Glyph),
        "WordOrGlyph" => Some(WrapMode::WordOrGlyph),
        _ => None,
    }
}

// Returns the text, repeated until there are at least `len` bytes.
fn repeat(alloc: Global, text: &str, len: usize) -> Result<String, AllocError> {
    let mut line = String::new(alloc);
    if text.is_empty() {
        return Ok(line);
    }
    for _ in 0..len / text.len() {
        line.push_str(text)?;
    }
    Ok(line)
}

/// Returns the number of rows of the line.
pub fn count_rows(
    alloc: Global,
    line: &str,
    mode: WrapMode,
    width: usize,
) -> Result<usize, AllocError>
    ensures { IfOk result
        (λ rows. (ranges : List (ℕ × ℕ)) × IsWrapped mode 4 (max width 1) line.now ranges
        × (rows ≡ length ranges)) }
{
    let mut count = WrapCount::new();
    let rows = line_ranges(alloc, line, mode, width, TAB_LEN, &mut count)?;
    Ok(rows.as_slice().len())
}
