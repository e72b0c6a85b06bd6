//! Long values that calls borrow.
use std::alloc::{AllocError, Global};
use textarea_test_support::expand::counted;
use textarea_test_support::words::{Borrows, character, titled};
use tui_textarea::{Borders, Line, Style, Text};

/// Returns the values that the calls of a case borrow, and its other lines. A first line `lent
/// COLUMNS LINES` sets the width of the block's title and the number of the placeholder's lines.
pub fn borrowed_and_rest(alloc: Global, row: &str) -> Result<(Borrows, &str), AllocError> {
    let Some(sizes) = row.strip_prefix("lent ") else {
        return Ok((Borrows::new(alloc)?, row));
    };
    let (sizes, rest) = sizes.split_once('\n').unwrap_or((sizes, ""));
    let (columns, lines) = counted(sizes);
    let lines = lines.parse::<usize>().unwrap_or(0);
    Ok((long_borrowed(alloc, columns, lines)?, rest))
}

fn long_borrowed(alloc: Global, columns: usize, lines: usize) -> Result<Borrows, AllocError> {
    let title = letters(alloc, columns)?;
    Ok(Borrows {
        block: titled(alloc, Borders::ALL, title.as_str())?,
        placeholder: text_of(alloc, lines)?,
        letter: character('z'),
    })
}

fn letters(alloc: Global, count: usize) -> Result<String, AllocError> {
    let mut text = String::new(alloc);
    for _ in 0..count {
        text.push('t')?;
    }
    Ok(text)
}

fn text_of(alloc: Global, count: usize) -> Result<Text<'static>, AllocError> {
    let mut lines = Vec::new(alloc);
    for _ in 0..count {
        lines.push(Line::raw(String::from_str(alloc, "type here")?)?)?;
    }
    Ok(Text {
        lines,
        style: Style::new(),
    })
}
