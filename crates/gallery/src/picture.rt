//! Printed screens, from which `tools/gallery-pictures` draws.
//!
//! The first line is `screen NAME COLUMNS ROWS CAPTION`. The screen's rows follow, each between two
//! bars, and then a line `style ROW START END FG BG MODIFIERS` for each run of cells of a row in one
//! style that isn't plain: from column START up to, but not including, column END.

use bitflags::Flags;
use std::fmt;
use tui_textarea::{Buffer, Cell, Modifier, Style};

/// The screen of a program, with the program's name and a caption.
#[derive(Clone, Copy)]
pub struct Picture<'a> {
    pub name: &'a str,
    pub caption: &'a str,
    pub buffer: &'a Buffer,
}

impl fmt::Display for Picture<'_> {
    fn fmt<W: fmt::Write>(&self, f: &mut fmt::Formatter<W>) -> fmt::Result {
        let area = self.buffer.area();
        let Picture { name, caption, .. } = *self;
        writeln!(f, "screen {name} {} {} {caption}", area.width, area.height)?;
        for y in area.y..area.bottom() {
            write_row(f, self.buffer, y)?;
        }
        for y in area.y..area.bottom() {
            write_styles(f, self.buffer, y)?;
        }
        Ok(())
    }
}

fn write_row<W: fmt::Write>(f: &mut fmt::Formatter<W>, buffer: &Buffer, y: u16) -> fmt::Result {
    f.write_str("|")?;
    for x in buffer.area().x..buffer.area().right() {
        f.write_str(buffer.cell(x, y).map_or("", |cell| cell.symbol()))?;
    }
    f.write_str("|\n")
}

// Writes the runs of cells of a row that have a style.
fn write_styles<W: fmt::Write>(f: &mut fmt::Formatter<W>, buffer: &Buffer, y: u16) -> fmt::Result {
    let area = buffer.area();
    let plain = Cell::fresh().style();
    let mut start = area.x;
    for x in area.x..area.right() {
        let end = x + 1;
        let style = style_at(buffer, x, y);
        if end < area.right() && style_at(buffer, end, y) == style {
            continue;
        }
        if style != plain {
            write!(f, "style {y} {start} {end}")?;
            write_style(f, style)?;
        }
        start = end;
    }
    Ok(())
}

fn style_at(buffer: &Buffer, x: u16, y: u16) -> Style {
    match buffer.cell(x, y) {
        Some(cell) => cell.style(),
        None => Style::new(),
    }
}

fn write_style<W: fmt::Write>(f: &mut fmt::Formatter<W>, style: Style) -> fmt::Result {
    let fg = style.fg.unwrap_or_default();
    let bg = style.bg.unwrap_or_default();
    write!(f, " {fg:?} {bg:?}")?;
    for flag in Modifier::flags() {
        if style.add_modifier.contains(*flag.value()) {
            write!(f, " {}", flag.name())?;
        }
    }
    f.write_str("\n")
}
