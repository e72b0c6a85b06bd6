//! Printed forms of styles by name, of a buffer's styles, and of differences from a new text area.
use crate::stop::Stop;
use crate::styles::style_name;
use std::alloc::{AllocError, Global};
use std::fmt;
use textarea_calls::Answer;
use textarea_calls::printing::Escaped;
use textarea_data::range::AtomicRange;
use textarea_screen::screen::{Buffer, Color, Rect, Style};
use textarea_wrap::wrap::WrapMode;

// A style, printed by its name.
#[derive(Clone, Copy)]
struct Named(Style);

impl fmt::Display for Named {
    fn fmt<W: fmt::Write>(&self, f: &mut fmt::Formatter<W>) -> fmt::Result {
        match style_name(self.0) {
            Some(name) => write!(f, "{name}"),
            None => write!(f, "{:?}", self.0),
        }
    }
}

// Ranges, printed with a blank between them.
#[derive(Clone, Copy)]
struct Ranges<'a>(&'a [AtomicRange]);

impl fmt::Display for Ranges<'_> {
    fn fmt<W: fmt::Write>(&self, f: &mut fmt::Formatter<W>) -> fmt::Result {
        for (index, range) in self.0.iter().enumerate() {
            if index != 0 {
                write!(f, " ")?;
            }
            write!(f, "{}", Answer::Range(Some(*range)))?;
        }
        Ok(())
    }
}

/// Returns a result as scripts print it, but a style by its name.
pub fn result_text(alloc: Global, answer: &Answer) -> Result<String, AllocError> {
    match answer {
        Answer::Style(style) | Answer::StyleIfVisible(Some(style)) => {
            format!(in alloc; "{}", Named(*style))
        }
        Answer::StyleIfVisible(None) => String::from_str(alloc, "none"),
        _ => format!(in alloc; "{answer}"),
    }
}

/// Returns the printed ranges, with a blank between them, or `none`.
pub fn ranges_text(alloc: Global, ranges: &[AtomicRange]) -> Result<String, AllocError> {
    if ranges.is_empty() {
        return String::from_str(alloc, "none");
    }
    format!(in alloc; "{}", Ranges(ranges))
}

/// Returns the styles of the cells in an area of a buffer, row by row, with the length of each run
/// of equal styles. The area is written as left column, top row, width and height.
pub fn styles_text(alloc: Global, buffer: &Buffer, place: &str) -> Result<String, Stop> {
    let Some(place) = area_of(place) else {
        return Err(Stop::Unparsed);
    };
    let mut report = String::new(alloc);
    let (mut count, mut last) = (0usize, Style::new());
    for y in place.y..place.y + place.height {
        for x in place.x..place.x + place.width {
            let style = style_of(buffer, x, y);
            if style != last && count != 0 {
                write!(report, "{count} {}, ", Named(last))?;
                count = 0;
            }
            count = count.saturating_add(1);
            last = style;
        }
    }
    write!(report, "{count} {}", Named(last))?;
    Ok(report)
}

// The style of a cell, without the terminal's default colours.
fn style_of(buffer: &Buffer, x: u16, y: u16) -> Style {
    let Some(cell) = buffer.cell(x, y) else {
        return Style::new();
    };
    let style = cell.style();
    Style {
        fg: own_color(style.fg),
        bg: own_color(style.bg),
        ..style
    }
}

fn own_color(color: Option<Color>) -> Option<Color> {
    match color {
        Some(Color::Reset) => None,
        _ => color,
    }
}

fn area_of(text: &str) -> Option<Rect> {
    let mut numbers = text.split(' ');
    let x = number(numbers.next())?;
    let y = number(numbers.next())?;
    let width = number(numbers.next())?;
    let height = number(numbers.next())?;
    Some(Rect::new(x, y, width, height))
}

fn number(text: Option<&str>) -> Option<u16> {
    text?.parse().ok()
}

/// The printed differences from a new text area, each by its name.
#[derive(Drop)]
pub struct Differences {
    report: String,
}

impl Differences {
    /// Returns an empty list of differences.
    pub fn new(alloc: Global) -> Differences {
        Differences {
            report: String::new(alloc),
        }
    }

    /// Returns the printed differences, or `nothing`.
    pub fn report(&self, alloc: Global) -> Result<String, AllocError> {
        match self.report.strip_prefix(", ") {
            Some(differences) => String::from_str(alloc, differences),
            None => String::from_str(alloc, "nothing"),
        }
    }

    /// Adds a flag that is set.
    pub fn flag(&mut self, is_set: bool, name: &str) -> Result<(), AllocError> {
        if is_set {
            write!(self.report, ", {name}")?;
        }
        Ok(())
    }

    /// Adds a number that differs from that of a new text area.
    pub fn number(&mut self, number: usize, at_first: usize, name: &str) -> Result<(), AllocError> {
        if number != at_first {
            write!(self.report, ", {name} {number}")?;
        }
        Ok(())
    }

    /// Adds a style that is set.
    pub fn style(&mut self, style: Option<Style>, name: &str) -> Result<(), AllocError> {
        match style {
            Some(style) => write!(self.report, ", {name} {}", Named(style)),
            None => Ok(()),
        }
    }

    /// Adds an indent other than four blanks.
    pub fn indent(&mut self, indent: &str) -> Result<(), AllocError> {
        if indent != "    " {
            write!(self.report, ", indent \"{}\"", Escaped(indent))?;
        }
        Ok(())
    }

    /// Adds the wrap mode, if lines are wrapped.
    pub fn mode(&mut self, mode: WrapMode) -> Result<(), AllocError> {
        if mode != WrapMode::None {
            write!(self.report, ", wrap_mode {mode:?}")?;
        }
        Ok(())
    }

    /// Adds the search pattern, if there is one.
    pub fn pattern(&mut self, pattern: Option<&str>) -> Result<(), AllocError> {
        match pattern {
            Some(pattern) => write!(self.report, ", search_pattern {pattern}"),
            None => Ok(()),
        }
    }

    /// Adds the atomic ranges, if there are any.
    pub fn ranges(&mut self, ranges: &[AtomicRange]) -> Result<(), AllocError> {
        if !ranges.is_empty() {
            write!(self.report, ", atomic_ranges {}", Ranges(ranges))?;
        }
        Ok(())
    }

    /// Adds the placeholder, if it has lines.
    pub fn placeholder(&mut self, lines: usize, text: &str) -> Result<(), AllocError> {
        if lines != 0 {
            write!(self.report, ", placeholder {lines} {}", Escaped(text))?;
        }
        Ok(())
    }
}
