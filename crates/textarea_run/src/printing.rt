//! The text that `tascript` prints of a run that made all its calls.
use std::fmt;
use textarea_calls::Answer;
use textarea_calls::printing::Escaped;
use textarea_screen::screen::{Buffer, Rect};
use tui_textarea::TextArea;

/// The end of a run. It prints one line per result, numbered from 1, then the lines, the cursor and
/// the selection of the text area, and then the screen, if anything was drawn.
#[derive(Clone, Copy)]
pub struct Report<'a, 'b> {
    pub answers: &'a [Answer],
    pub area: &'a TextArea<'b>,
    pub screen: Option<PrintedCells<'a>>,
}

/// The cells of a buffer inside an area, printed one screen row after another.
#[derive(Clone, Copy)]
pub struct PrintedCells<'a> {
    pub buffer: &'a Buffer,
    pub area: Rect,
}

impl fmt::Display for Report<'_, '_> {
    fn fmt<W: fmt::Write>(&self, f: &mut fmt::Formatter<W>) -> fmt::Result {
        write_results(f, self.answers)?;
        write_lines(f, self.area.lines())?;
        write_cursor(f, self.area.cursor())?;
        write_selection(f, self.area.selection_range())?;
        match self.screen {
            Some(screen) => write!(f, "{screen}"),
            None => Ok(()),
        }
    }
}

fn write_results<W: fmt::Write>(f: &mut fmt::Formatter<W>, answers: &[Answer]) -> fmt::Result {
    for (index, answer) in answers.iter().enumerate() {
        writeln!(f, "{} {answer}", index + 1)?;
    }
    Ok(())
}

fn write_lines<W: fmt::Write>(f: &mut fmt::Formatter<W>, lines: &[String]) -> fmt::Result {
    writeln!(f, "lines {}", lines.len())?;
    for line in lines {
        writeln!(f, "|{}", Escaped(line.as_str()))?;
    }
    Ok(())
}

fn write_cursor<W: fmt::Write>(
    f: &mut fmt::Formatter<W>,
    (row, column): (usize, usize),
) -> fmt::Result {
    writeln!(f, "cursor {row} {column}")
}

fn write_selection<W: fmt::Write>(
    f: &mut fmt::Formatter<W>,
    selection: Option<((usize, usize), (usize, usize))>,
) -> fmt::Result {
    match selection {
        Some((start, end)) => writeln!(f, "selection {} {} {} {}", start.0, start.1, end.0, end.1),
        None => writeln!(f, "selection none"),
    }
}

impl fmt::Display for PrintedCells<'_> {
    fn fmt<W: fmt::Write>(&self, f: &mut fmt::Formatter<W>) -> fmt::Result {
        let PrintedCells { buffer, area } = *self;
        let whole = buffer.area();
        let top = area.y.max(whole.y);
        let bottom = (area.y + area.height).min(whole.y + whole.height);
        let left = area.x.max(whole.x);
        let right = (area.x + area.width).min(whole.x + whole.width);
        writeln!(f, "screen {}", bottom.saturating_sub(top))?;
        for y in top..bottom {
            write_row(f, buffer, y, (left, right))?;
        }
        Ok(())
    }
}

// Writes the cells of a screen row from the column `left` up to the column `right`.
fn write_row<W: fmt::Write>(
    f: &mut fmt::Formatter<W>,
    buffer: &Buffer,
    y: u16,
    (left, right): (u16, u16),
) -> fmt::Result {
    write!(f, "|")?;
    for x in left..right {
        if let Some(cell) = buffer.cell(x, y) {
            write!(f, "{}", Escaped(cell.symbol()))?;
        }
    }
    writeln!(f, "|")
}
