//! Decodes bytes as a terminal sends them, and paints frames, and counts events or bytes.
//!
//! A job has five fields with one space between them. After `decode`: the kind of the bytes
//! (`letters`, `accents`, `keys`, `mouse` or `paste`), their least number, the number of bytes in
//! each call, and how often all of them are decoded. After `paint`: the frames (see `Frames`),
//! their columns, their rows, and the number of frames after the first one.
use std::alloc::{AllocError, Global};
use textarea_screen::screen::{Buffer, Color, Modifier, Position, Rect, Style};
use textarea_terminal::input::Decoder;
use textarea_terminal::output::Painter;

/// The bytes to decode.
#[derive(Clone, Copy)]
pub enum Sent {
    Letters,
    Accents,
    Keys,
    Mouse,
    Paste,
}

/// The frames that follow each other.
#[derive(Clone, Copy)]
pub enum Frames {
    /// The same frame.
    Same,
    /// In turns frames that differ in one row.
    Line,
    /// In turns frames that differ in each cell.
    Whole,
    /// The same, with a reset before each.
    Reset,
    /// No frame is painted: the cells of two frames are compared.
    Compared,
}

/// The work, on how many bytes or cells, and how often.
#[derive(Clone, Copy)]
pub enum TerminalJob {
    Decode {
        sent: Sent,
        bytes: usize,
        read_size: usize,
        times: usize,
    },
    Paint {
        frames: Frames,
        columns: u16,
        rows: u16,
        times: usize,
    },
}

impl TerminalJob {
    pub fn parse(line: &str) -> Option<TerminalJob> {
        let (topic, components) = line.split_once(' ')?;
        let (word, components) = components.split_once(' ')?;
        let (first, components) = components.split_once(' ')?;
        let (second, times) = components.split_once(' ')?;
        let times = times.parse().ok()?;
        match topic {
            "decode" => Some(TerminalJob::Decode {
                sent: sent_of(word)?,
                bytes: first.parse().ok()?,
                read_size: second.parse().ok()?,
                times,
            }),
            "paint" => Some(TerminalJob::Paint {
                frames: frames_of(word)?,
                columns: first.parse().ok()?,
                rows: second.parse().ok()?,
                times,
            }),
            _ => None,
        }
    }

    /// Does the job, and returns the number of events or bytes.
    pub fn run(&self, alloc: Global) -> Result<usize, AllocError> {
        match *self {
            TerminalJob::Decode {
                sent,
                bytes,
                read_size,
                times,
            } => decode(
                alloc,
                bytes_of(alloc, sent, bytes)?.as_slice(),
                read_size,
                times,
            ),
            TerminalJob::Paint {
                frames,
                columns,
                rows,
                times,
            } => paint(alloc, frames, Rect::new(0, 0, columns, rows), times),
        }
    }
}

fn sent_of(word: &str) -> Option<Sent> {
    match word {
        "letters" => Some(Sent::Letters),
        "accents" => Some(Sent::Accents),
        "keys" => Some(Sent::Keys),
        "mouse" => Some(Sent::Mouse),
        "paste" => Some(Sent::Paste),
        _ => None,
    }
}

fn frames_of(word: &str) -> Option<Frames> {
    match word {
        "same" => Some(Frames::Same),
        "line" => Some(Frames::Line),
        "whole" => Some(Frames::Whole),
        "reset" => Some(Frames::Reset),
        "compared" => Some(Frames::Compared),
        _ => None,
    }
}

/// Returns at least `count` bytes.
fn bytes_of(alloc: Global, sent: Sent, count: usize) -> Result<Vec<u8>, AllocError> {
    let (begin, segment, end) = match sent {
        Sent::Letters => ("", "The quick brown fox jumps over the lazy dog. ", ""),
        Sent::Accents => (
            "",
            "Fu\u{df}g\u{e4}nger \u{fc}berqueren die \u{6f22}\u{5b57} ",
            "",
        ),
        Sent::Keys => (
            "",
            "\u{1b}[A\u{1b}[B\u{1b}[1;5C\u{1b}[3~\u{1b}OD\u{1b}[15;2~",
            "",
        ),
        Sent::Mouse => (
            "",
            "\u{1b}[<0;10;12M\u{1b}[<32;110;42M\u{1b}[<0;110;42m",
            "",
        ),
        Sent::Paste => (
            "\u{1b}[200~",
            "The quick brown fox jumps over the lazy dog.\n",
            "\u{1b}[201~",
        ),
    };
    let mut bytes = Vec::new(alloc);
    bytes.extend_from_slice(begin.as_bytes())?;
    for _ in 0..count / segment.len() + 1 {
        bytes.extend_from_slice(segment.as_bytes())?;
    }
    bytes.extend_from_slice(end.as_bytes())?;
    Ok(bytes)
}

/// Decodes the bytes `times` times, `read_size` bytes in each call, and returns the number of
/// events.
fn decode(
    alloc: Global,
    bytes: &[u8],
    read_size: usize,
    times: usize,
) -> Result<usize, AllocError> {
    let mut decoder = Decoder::new(alloc);
    let mut events = Vec::new(alloc);
    let mut count = 0usize;
    for _ in 0..times {
        for segment in bytes.chunks(read_size.max(1)) {
            decoder.feed(segment, &mut events)?;
            count = count.wrapping_add(events.len());
            events.clear();
        }
    }
    Ok(count)
}

/// Returns the style of a cell; it changes every nine cells of a row.
fn style_at(x: u16, turn: u16) -> Style {
    let fg = match (x / 9 + turn % 2) % 4 {
        0 => Color::Reset,
        1 => Color::Blue,
        2 => Color::Indexed(208),
        _ => Color::Rgb(200, 10, 150),
    };
    Style {
        fg: Some(fg),
        bg: Some(Color::Reset),
        add_modifier: Modifier((x / 9) & 1),
        sub_modifier: Modifier(0),
    }
}

const LETTERS: &str = "abcdefghijklmnopqrstuvwxyz";

/// Returns the letter of a cell, a different one at each turn.
fn letter(x: u16, y: u16, turn: u16) -> &'static str {
    let at = usize::from((x % 8 + y % 8 + turn % 2) % 26);
    LETTERS.get(at..at + 1).unwrap_or("a")
}

fn put_row(buffer: &mut Buffer, columns: u16, y: u16, turn: u16) -> Result<(), AllocError> {
    for x in 0..columns {
        buffer.put(x, y, letter(x, y, turn), style_at(x, turn))?;
    }
    Ok(())
}

/// Returns a frame of letters.
fn frame_of(alloc: Global, area: Rect, turn: u16) -> Result<Buffer, AllocError> {
    let mut buffer = Buffer::empty(alloc, area)?;
    for y in 0..area.height {
        put_row(&mut buffer, area.width, y, turn)?;
    }
    Ok(buffer)
}

/// Returns the other frame: the first one, or one with one row or all rows changed.
fn other_frame(alloc: Global, area: Rect, frames: Frames) -> Result<Buffer, AllocError> {
    match frames {
        Frames::Same | Frames::Compared => frame_of(alloc, area, 0),
        Frames::Line => {
            let mut buffer = frame_of(alloc, area, 0)?;
            put_row(&mut buffer, area.width, area.height / 2, 1)?;
            Ok(buffer)
        }
        Frames::Whole | Frames::Reset => frame_of(alloc, area, 1),
    }
}

/// Returns whether a cell is the same in both frames.
fn is_same_at(a: &Buffer, b: &Buffer, x: u16, y: u16) -> bool {
    match (a.cell(x, y), b.cell(x, y)) {
        (Some(a), Some(b)) => {
            a.symbol() == b.symbol() && a.fg == b.fg && a.bg == b.bg && a.modifier == b.modifier
        }
        _ => false,
    }
}

/// Returns the number of cells that are the same in both frames.
fn same_cells(a: &Buffer, b: &Buffer, area: Rect) -> usize {
    let mut count = 0usize;
    for y in 0..area.height {
        for x in 0..area.width {
            count = count.wrapping_add(usize::from(is_same_at(a, b, x, y)));
        }
    }
    count
}

/// Paints the frames in turns, and returns the number of bytes, or of cells that are the same.
fn paint(alloc: Global, frames: Frames, area: Rect, times: usize) -> Result<usize, AllocError> {
    let first = frame_of(alloc, area, 0)?;
    let other = other_frame(alloc, area, frames)?;
    let mut painter = Painter::new(alloc, area)?;
    let mut out = Vec::new(alloc);
    let mut count = 0usize;
    for time in 0..times.saturating_add(1) {
        let frame = if time % 2 == 0 { &first } else { &other };
        match frames {
            Frames::Compared => count = count.wrapping_add(same_cells(&first, &other, area)),
            Frames::Reset => painter.reset(),
            _ => {}
        }
        if !matches!(frames, Frames::Compared) {
            painter.paint(frame, Some(Position { x: 0, y: 0 }), &mut out)?;
            count = count.wrapping_add(out.len());
            out.clear();
        }
    }
    Ok(count)
}
