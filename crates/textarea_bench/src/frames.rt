//! Draws frames of a text area and returns the first row of the last one.
//!
//! A job has three fields with one space between them: a word, the number of the text's lines, and
//! the number of frames after the first one. With the wrap modes `Word` and `None` a key is typed
//! into the first line before each frame, in turns a hundred characters and a hundred times
//! Backspace. With `plain` and `full` nothing is done between the frames, lines are wrapped at
//! words, and the end of the text is in view; with `full` it has line numbers, all of it is
//! selected, and a pattern matches in each row. A frame is 80 columns wide and 24 rows high.
use crate::paint::first_row;
use anyhow::Result;
use std::alloc::{AllocError, Global};
use tui_textarea::{Buffer, Rect, Style, TextArea, WrapMode};

const PARAGRAPH: &str =
    "A paragraph of a note, as people write them: a few sentences, some of them long, others not. It goes \
    over more than one row of the screen, since it is wrapped at its words, and whoever types into the middle of it sees the \
    words behind the cursor go on to the next row. Then come further sentences, about what was bought and what it cost. ";

const AREA: Rect = Rect {
    x: 0,
    y: 0,
    width: 80,
    height: 24,
};

/// A pattern of six letters or more: each row of the paragraphs has a match.
const PATTERN: &str = "[a-z]{6,}";

/// The content of a frame, and the work before it.
#[derive(Clone, Copy)]
enum FrameKind {
    /// A key is typed before each frame, with this wrap mode.
    Keys(WrapMode),
    /// Only frames, of lines that are wrapped at words.
    Plain,
    /// The same, with line numbers, all lines selected, and matches in each row.
    Full,
}

/// The kind of frame, the number of lines, and the number of frames after the first one.
#[derive(Clone, Copy)]
pub struct FrameJob {
    kind: FrameKind,
    lines: usize,
    frames: usize,
}

impl FrameJob {
    pub fn parse(line: &str) -> Option<FrameJob> {
        let (kind, numbers) = line.split_once(' ')?;
        let (lines, frames) = numbers.split_once(' ')?;
        Some(FrameJob {
            kind: match kind {
                "Word" => FrameKind::Keys(WrapMode::Word),
                "None" => FrameKind::Keys(WrapMode::None),
                "plain" => FrameKind::Plain,
                "full" => FrameKind::Full,
                _ => return None,
            },
            lines: lines.parse().ok()?,
            frames: frames.parse().ok()?,
        })
    }

    /// Draws a frame and then the frames of the job, and returns the first row of the last one.
    pub fn run(&self, alloc: Global) -> Result<String> {
        let mut buffer = Buffer::empty(alloc, AREA)?;
        let drawn = self.draw_text(alloc, &mut buffer);
        drop(buffer);
        drawn
    }

    // Creates the text area, draws its frames, and returns the first row of the last one.
    fn draw_text(&self, alloc: Global, buffer: &mut Buffer) -> Result<String> {
        let mut text_area = TextArea::new(self.paragraphs(alloc)?)?;
        let drawn = self.draw_frames(&mut text_area, buffer);
        drop(text_area);
        drawn?;
        Ok(first_row(alloc, buffer)?)
    }

    fn paragraphs(&self, alloc: Global) -> Result<Vec<String>, AllocError> {
        let mut lines = Vec::new(alloc);
        for _ in 0..self.lines {
            lines.push(String::from_str(alloc, PARAGRAPH)?)?;
        }
        Ok(lines)
    }

    // Draws a frame, and one after each key.
    fn draw_frames(&self, text_area: &mut TextArea<'_>, buffer: &mut Buffer) -> Result<()> {
        self.prepare(text_area)?;
        text_area.render(AREA, buffer)?;
        for frame in 0..self.frames {
            self.type_key(text_area, frame)?;
            text_area.render(AREA, buffer)?;
        }
        Ok(())
    }

    // Sets the layout of the text area, and what the frames show.
    fn prepare(&self, text_area: &mut TextArea<'_>) -> Result<()> {
        let mode = match self.kind {
            FrameKind::Keys(mode) => mode,
            FrameKind::Plain | FrameKind::Full => WrapMode::Word,
        };
        text_area.set_wrap_mode(mode)?;
        match self.kind {
            FrameKind::Keys(_) => Ok(()),
            FrameKind::Plain => {
                text_area.select_all();
                text_area.cancel_selection();
                Ok(())
            }
            FrameKind::Full => {
                text_area.set_line_number_style(Style::new())?;
                text_area.set_search_pattern(PATTERN)?;
                text_area.select_all();
                Ok(())
            }
        }
    }

    // Types the key before this frame, if any: in turns a hundred characters and Backspaces.
    fn type_key(&self, text_area: &mut TextArea<'_>, frame: usize) -> Result<(), AllocError> {
        match self.kind {
            FrameKind::Keys(_) if frame / 100 % 2 == 0 => {
                text_area.insert_char(if frame % 6 == 5 { ' ' } else { 'x' })
            }
            FrameKind::Keys(_) => {
                text_area.delete_char()?;
                Ok(())
            }
            FrameKind::Plain | FrameKind::Full => Ok(()),
        }
    }
}
