//! Works on a text again and again, and returns its visual rows and the cursor's column.
//!
//! A job is a word for the work, the size of the text and the number of times, with one space
//! between them. In a text of that many lines `text` types into a long wrapped line, in turns a
//! hundred characters and a hundred times Backspace; `rows` in turns types a character that gives
//! the first line one more row, and Backspace; `breaks` in turns a line break and Backspace in the
//! first line, and `last_breaks` in the last one; `map` in turns replaces one line by two in the
//! middle of only the screen map, and these two by one, and `headers` does the same to only the
//! lines' headers; `width` sets in turns a narrower and the old inner width, and `measured` does
//! that after it measures the rows at each width. In one unwrapped line of that many characters,
//! `ascii` types and removes in the same way characters of one byte at its end, `wide` and `middle`
//! characters of two bytes at its end and in its middle, and `bytes` only moves the second half of
//! the line by two bytes, and back.
mod steps;

use crate::typing::steps::{break_headers, break_in_map, move_bytes};
use std::alloc::{AllocError, Global};
use std::time::Duration;
use textarea_document::Document;
use textarea_lines::settings::LayoutSettings;
use textarea_wrap::wrap::WrapMode;

const PARAGRAPH: &str =
    "A paragraph of a note, as people write them: a few sentences, some of them long, others not. It goes \
    over more than one row of the screen, since it is wrapped at its words, and whoever types into the middle of it sees the \
    words behind the cursor go on to the next row. Then come further sentences, about what was bought and what it cost, who \
    was there and who was not, and what is to be done tomorrow; and at the end, as so often, a remark that has little to do \
    with all of that, but had to be written down somewhere before it was forgotten. ";

// One row of 80 columns, full of text: with one more character it takes two.
const FULL_ROW: &str =
    "A line that is as wide as the screen, so that one character more takes a row mor";

/// The inner width at first and at the end.
const INNER_WIDTH: u16 = 81;

/// The work.
#[derive(Clone, Copy)]
enum Work {
    /// Types into a long wrapped line: in turns a hundred characters and a hundred times Backspace.
    Text,
    /// In turns a character that makes two rows of one, and Backspace.
    Rows,
    /// In turns a line break and Backspace, in the first line.
    Breaks,
    /// The same in the last line, which no line follows.
    LastBreaks,
    /// The same in only the screen map of the lines.
    Map,
    /// Only the same move of the lines' headers.
    Headers,
    /// Only the move of bytes for a character of two bytes in the middle of a line, and back.
    Bytes,
    /// Types into one unwrapped line: in turns a hundred characters and a hundred times Backspace.
    Line(Line),
    /// Sets in turns a narrower and the old inner width.
    Width,
    /// The same, after the rows at each width are measured.
    Measured,
}

/// A long line, and where it is edited.
#[derive(Clone, Copy)]
enum Line {
    /// Characters of one byte, at the end.
    Ascii,
    /// Characters of two bytes, at the end.
    Wide,
    /// Characters of two bytes, in the middle.
    Middle,
}

impl Line {
    // Returns the character that the line consists of.
    fn character(self) -> char {
        match self {
            Line::Ascii => 'e',
            Line::Wide | Line::Middle => 'é',
        }
    }
}

/// The work, the size of the text in lines or characters, and the number of times.
#[derive(Clone, Copy)]
pub struct TypingJob {
    work: Work,
    size: usize,
    times: usize,
}

impl TypingJob {
    pub fn parse(line: &str) -> Option<TypingJob> {
        let (work, numbers) = line.split_once(' ')?;
        let (size, times) = numbers.split_once(' ')?;
        Some(TypingJob {
            work: match work {
                "text" => Work::Text,
                "rows" => Work::Rows,
                "breaks" => Work::Breaks,
                "last_breaks" => Work::LastBreaks,
                "map" => Work::Map,
                "headers" => Work::Headers,
                "bytes" => Work::Bytes,
                "ascii" => Work::Line(Line::Ascii),
                "wide" => Work::Line(Line::Wide),
                "middle" => Work::Line(Line::Middle),
                "width" => Work::Width,
                "measured" => Work::Measured,
                _ => return None,
            },
            size: size.parse().ok()?,
            times: times.parse().ok()?,
        })
    }

    /// Does the work, and returns the number of visual rows and the cursor's column.
    pub fn run(&self, alloc: Global) -> Result<(usize, usize), AllocError> {
        if let Work::Bytes = self.work {
            return Ok((move_bytes(alloc, self.size, self.times / 2)?, 0));
        }
        let mut lines = self.lines(alloc)?;
        match self.work {
            Work::Map => Ok((break_in_map(alloc, lines.as_slice(), self.times / 2)?, 0)),
            Work::Headers => Ok((break_headers(alloc, &mut lines, self.times / 2)?, 0)),
            _ => self.run_document(alloc, lines),
        }
    }

    // Does the work on a document of these lines.
    fn run_document(
        &self,
        alloc: Global,
        lines: Vec<String>,
    ) -> Result<(usize, usize), AllocError> {
        let view = LayoutSettings {
            mode: match self.work {
                Work::Line(_) => WrapMode::None,
                _ => WrapMode::WordOrGlyph,
            },
            tab_len: 4,
            line_numbers: false,
            inner_width: INNER_WIDTH,
        };
        let mut document = Document::new(alloc, Vec::new(alloc), view, 50)?;
        let answer = self.work_on(alloc, &mut document, lines);
        drop(document);
        answer
    }

    // Sets the text, does the work, and returns the number of visual rows and the cursor's column.
    fn work_on(
        &self,
        alloc: Global,
        document: &mut Document,
        lines: Vec<String>,
    ) -> Result<(usize, usize), AllocError> {
        match self.work {
            Work::Line(line) => self.put_line(alloc, document, line)?,
            Work::LastBreaks => put_lines(document, lines, usize::MAX)?,
            _ => put_lines(document, lines, 0)?,
        }
        for time in 0..self.times {
            self.work_once(document, time)?;
        }
        let rows = document.rows_at_width(INNER_WIDTH)?;
        Ok((rows, document.cursor().1))
    }

    // Returns the lines of the text, or none for a job with one long line.
    fn lines(&self, alloc: Global) -> Result<Vec<String>, AllocError> {
        let mut lines = Vec::new(alloc);
        for index in 0..self.size {
            match self.work {
                Work::Text if index == 0 => {
                    let mut line = String::from_str(alloc, PARAGRAPH)?;
                    line.push_str(PARAGRAPH)?;
                    lines.push(line)?;
                }
                Work::Line(_) => {}
                _ => lines.push(String::from_str(alloc, FULL_ROW)?)?,
            }
        }
        Ok(lines)
    }

    // Sets one long line, with the cursor at the edited column.
    fn put_line(
        &self,
        alloc: Global,
        document: &mut Document,
        line: Line,
    ) -> Result<(), AllocError> {
        let mut text = String::new(alloc);
        for _ in 0..self.size {
            text.push(line.character())?;
        }
        let column = match line {
            Line::Ascii | Line::Wide => self.size,
            Line::Middle => self.size / 2,
        };
        document.set_lines(vec![in alloc; text]?, (0, column))
    }

    // Does the work once.
    fn work_once(&self, document: &mut Document, time: usize) -> Result<(), AllocError> {
        match self.work {
            Work::Text if time / 100 % 2 == 0 => {
                type_character(document, if time % 6 == 5 { ' ' } else { 'x' })
            }
            Work::Rows if time % 2 == 0 => type_character(document, 'x'),
            Work::Breaks | Work::LastBreaks if time % 2 == 0 => document.insert_break(
                Duration::ZERO,
            ),
            Work::Line(line) if time / 100 % 2 == 0 => type_character(document, line.character()),
            Work::Map | Work::Headers | Work::Bytes => Ok(()),
            Work::Text | Work::Rows | Work::Breaks | Work::LastBreaks | Work::Line(_) => {
                document.remove_before(true, Duration::ZERO)?;
                Ok(())
            }
            Work::Width => set_width(document, width_of(time)),
            Work::Measured => {
                document.rows_at_width(width_of(time))?;
                set_width(document, width_of(time))
            }
        }
    }
}

// Sets the lines, with the cursor at the start of this one, or of the last one if there are fewer.
fn put_lines(document: &mut Document, lines: Vec<String>, row: usize) -> Result<(), AllocError> {
    if lines.is_empty() {
        return Ok(());
    }
    document.set_lines(lines, (row, 0))
}

fn type_character(document: &mut Document, c: char) -> Result<(), AllocError> {
    document.insert_character(c, true, Duration::ZERO)
}

// Returns the inner width to set at this time.
fn width_of(time: usize) -> u16 {
    if time % 2 == 0 { 61 } else { INNER_WIDTH }
}

// Sets the inner width; the lines are wrapped for it from scratch.
fn set_width(document: &mut Document, inner_width: u16) -> Result<(), AllocError> {
    let prepared = document.prepare_width(inner_width)?;
    document.put_width(prepared);
    Ok(())
}
