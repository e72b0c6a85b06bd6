//! A buffer and a painter, and the commands on them.
//!
//! `size W H` makes a buffer and a painter of W columns and H rows.
//! `cell X Y FG BG MODIFIER SYMBOL` sets a cell of the buffer; the bits of MODIFIER are the
//! modifiers, and the rest of the line is the text. `paint X Y` paints the buffer with the caret in
//! that cell, and `paint` without a caret. `reset` and `resize W H` are calls of the painter, as is
//! `colors N` with N colours: 0, 16, 256 or all for any other number. `shape N` gives the cursor
//! the shape N of DECSCUSR, and `title TEXT` the window a title. A colour is 0 for the terminal's
//! own, 1 to 16 for a named one, 256 + N for the indexed colour N, and 16777216 + 0xRRGGBB for RGB.
//!
//! Each paint, shape and title prints a line `frame N`, and then N bytes and a line feed.

use std::alloc::{AllocError, Global};
use textarea_screen::screen::{Buffer, Color, Modifier, Position, Rect, Style};
use textarea_terminal::output::title::{set_cursor_shape, set_title};
use textarea_terminal::output::{Colors, CursorShape, Painter};

/// A buffer and a painter.
#[derive(Drop)]
pub struct Painting {
    buffer: Buffer,
    painter: Painter,
}

impl Painting {
    /// A painter of no cells.
    pub fn new(alloc: Global) -> Result<Painting, AllocError> {
        let area = Rect::new(0, 0, 0, 0);
        Ok(Painting {
            buffer: Buffer::empty(alloc, area)?,
            painter: Painter::new(alloc, area)?,
        })
    }

    /// Serves one line, and adds its output. Returns `false` if it is no command. A call of the
    /// painter that runs out of memory is repeated once, and counted.
    pub fn serve(
        &mut self,
        alloc: Global,
        line: &str,
        printed: &mut Vec<u8>,
        out_of_memory_count: &mut usize,
    ) -> Result<bool, AllocError> {
        let (word, rest) = line.split_once(' ').unwrap_or((line, ""));
        match word {
            "size" => self.size(alloc, rest),
            "cell" => self.cell(rest),
            "paint" => self.paint(alloc, rest, printed, out_of_memory_count),
            "resize" => self.resize(alloc, rest, out_of_memory_count),
            "colors" => {
                self.painter.set_colors(colors(rest));
                Ok(true)
            }
            "shape" => print_shape(alloc, rest, printed),
            "title" => print_title(alloc, rest, printed),
            "reset" => {
                self.painter.reset();
                Ok(true)
            }
            _ => Ok(false),
        }
    }

    fn size(&mut self, alloc: Global, rest: &str) -> Result<bool, AllocError> {
        let Some((width, height)) = pair(rest) else {
            return Ok(false);
        };
        let area = Rect::new(0, 0, width, height);
        self.buffer = Buffer::empty(alloc, area)?;
        self.painter = Painter::new(alloc, area)?;
        Ok(true)
    }

    fn resize(
        &mut self,
        alloc: Global,
        rest: &str,
        out_of_memory_count: &mut usize,
    ) -> Result<bool, AllocError> {
        let Some((width, height)) = pair(rest) else {
            return Ok(false);
        };
        let area = Rect::new(0, 0, width, height);
        self.buffer = Buffer::empty(alloc, area)?;
        if self.painter.resize(area).is_err() {
            *out_of_memory_count = out_of_memory_count.saturating_add(1);
            self.painter.resize(area)?;
        }
        Ok(true)
    }

    fn cell(&mut self, rest: &str) -> Result<bool, AllocError> {
        let Some((position, rest)) = place(rest) else {
            return Ok(false);
        };
        let Some((style, symbol)) = style(rest) else {
            return Ok(false);
        };
        self.buffer.put(position.x, position.y, symbol, style)?;
        Ok(true)
    }

    fn paint(
        &mut self,
        alloc: Global,
        rest: &str,
        printed: &mut Vec<u8>,
        out_of_memory_count: &mut usize,
    ) -> Result<bool, AllocError> {
        let caret = match pair(rest) {
            Some((x, y)) => Some(Position { x, y }),
            None => None,
        };
        let mut frame = Vec::new(alloc);
        if self.painter.paint(&self.buffer, caret, &mut frame).is_err() {
            *out_of_memory_count = out_of_memory_count.saturating_add(1);
            self.painter.paint(&self.buffer, caret, &mut frame)?;
        }
        print_frame(alloc, frame.as_slice(), printed)
    }
}

fn print_frame(alloc: Global, frame: &[u8], printed: &mut Vec<u8>) -> Result<bool, AllocError> {
    let count = frame.len();
    let head = format!(in alloc; "frame {count}\n")?;
    printed.extend_from_slice(head.as_bytes())?;
    printed.extend_from_slice(frame)?;
    printed.extend_from_slice(b"\n")?;
    Ok(true)
}

fn print_shape(alloc: Global, rest: &str, printed: &mut Vec<u8>) -> Result<bool, AllocError> {
    let mut bytes = Vec::new(alloc);
    set_cursor_shape(shape(rest), &mut bytes)?;
    print_frame(alloc, bytes.as_slice(), printed)
}

fn print_title(alloc: Global, rest: &str, printed: &mut Vec<u8>) -> Result<bool, AllocError> {
    let mut bytes = Vec::new(alloc);
    set_title(alloc, rest, &mut bytes)?;
    print_frame(alloc, bytes.as_slice(), printed)
}

/// The colours of their number.
fn colors(number: &str) -> Colors {
    match number {
        "0" => Colors::None,
        "16" => Colors::Sixteen,
        "256" => Colors::Indexed,
        _ => Colors::True,
    }
}

/// The shape of its number.
fn shape(number: &str) -> CursorShape {
    match number {
        "1" => CursorShape::BlinkingBlock,
        "2" => CursorShape::Block,
        "3" => CursorShape::BlinkingUnderline,
        "4" => CursorShape::Underline,
        "5" => CursorShape::BlinkingBar,
        "6" => CursorShape::Bar,
        _ => CursorShape::Default,
    }
}

/// Two numbers.
fn pair(text: &str) -> Option<(u16, u16)> {
    let (first, second) = text.split_once(' ')?;
    let first = first.parse::<u16>().ok()?;
    let second = second.parse::<u16>().ok()?;
    Some((first, second))
}

/// A position, and what comes after it.
fn place(text: &str) -> Option<(Position, &str)> {
    let (x, rest) = text.split_once(' ')?;
    let (y, rest) = rest.split_once(' ')?;
    let x = x.parse::<u16>().ok()?;
    let y = y.parse::<u16>().ok()?;
    Some((Position { x, y }, rest))
}

/// The style that sets colours and modifiers, and what comes after them.
fn style(text: &str) -> Option<(Style, &str)> {
    let (fg, rest) = text.split_once(' ')?;
    let (bg, rest) = rest.split_once(' ')?;
    let (bits, symbol) = rest.split_once(' ')?;
    let bits = bits.parse::<u16>().ok()?;
    let style = Style {
        fg: Some(color(fg.parse::<u32>().ok()?)),
        bg: Some(color(bg.parse::<u32>().ok()?)),
        add_modifier: Modifier(bits),
        sub_modifier: Modifier(!bits),
    };
    Some((style, symbol))
}

/// The colour of a number.
fn color(number: u32) -> Color {
    let low = (number & 255) as u8;
    if number >= 16_777_216 {
        let red = (number / 65_536 % 256) as u8;
        let green = (number / 256 % 256) as u8;
        return Color::Rgb(red, green, low);
    }
    if number >= 256 {
        return Color::Indexed(low);
    }
    match number {
        1 => Color::Black,
        2 => Color::Red,
        3 => Color::Green,
        4 => Color::Yellow,
        5 => Color::Blue,
        6 => Color::Magenta,
        7 => Color::Cyan,
        8 => Color::Gray,
        9 => Color::DarkGray,
        10 => Color::LightRed,
        11 => Color::LightGreen,
        12 => Color::LightYellow,
        13 => Color::LightBlue,
        14 => Color::LightMagenta,
        15 => Color::LightCyan,
        16 => Color::White,
        _ => Color::Reset,
    }
}
