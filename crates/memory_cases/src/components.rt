//! Parts of a text area, called directly: a line with highlights, and the matches of a pattern.
use std::alloc::{AllocError, Global};
use tui_textarea::highlight::{CursorCellRender, LineHighlighter};
use tui_textarea::search::{Search, SearchError};
use tui_textarea::{Color, Line, Style};

/// Returns the spans of `abcdef` with a match 0 to 3 and a highlight 1 to 5, each followed by `|`.
pub fn spans_of(alloc: Global) -> Result<String, AllocError> {
    let hidden = CursorCellRender::Hidden;
    let mut row = LineHighlighter::new(alloc, "abcdef", hidden, 4, None, Style::new());
    row.search([(0, 3)].into_iter(), Style::new().bg(Color::Blue))?;
    row.custom(0, ((0, 1), (0, 5)), Style::new().fg(Color::Red), 5)?;
    let line = row.into_spans()?;
    joined(alloc, &line)
}

fn joined(alloc: Global, line: &Line<'_>) -> Result<String, AllocError> {
    let mut text = String::new(alloc);
    for span in line.spans.iter() {
        text.push_str(span.content.as_str())?;
        text.push('|')?;
    }
    Ok(text)
}

/// Returns the byte ranges of the matches of `fo+` in `fo foo bar fooo`.
pub fn matches_of(alloc: Global) -> Result<String, AllocError> {
    let mut search = Search::default();
    match search.set_pattern(alloc, "fo+") {
        Ok(()) => listed(alloc, &search),
        Err(SearchError::Memory(error)) => Err(error),
        Err(SearchError::Pattern(_)) => Err(AllocError),
    }
}

fn listed(alloc: Global, search: &Search) -> Result<String, AllocError> {
    let mut text = String::new(alloc);
    if let Some(matches) = search.matches("fo foo bar fooo")? {
        for (start, end) in matches {
            write!(text, "{start} {end}, ")?;
        }
    }
    Ok(text)
}
