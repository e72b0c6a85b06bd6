//! The content of transcripts: a script with its results, and the state as `tascript` prints it.
use crate::lines::unescaped;
use crate::stop::Stop;
use std::alloc::{AllocError, Global};
use textarea_calls::printing::Escaped;

/// The lines of a script, and their results.
#[derive(Drop)]
pub struct Script {
    /// The lines, each with a line feed.
    pub lines: String,
    /// The results, as `tascript` prints them.
    pub answers: String,
    count: usize,
    /// Whether there was a test command, which no script has.
    pub has_words: bool,
}

impl Script {
    /// Returns an empty script.
    pub fn new(alloc: Global) -> Script {
        Script {
            lines: String::new(alloc),
            answers: String::new(alloc),
            count: 0,
            has_words: false,
        }
    }

    /// Adds a line and its result.
    pub fn push(&mut self, line: &str, answer: &str) -> Result<(), AllocError> {
        self.count = self.count.saturating_add(1);
        writeln!(self.lines, "{line}")?;
        writeln!(self.answers, "{} {answer}", self.count)
    }
}

/// The last printed state of a text area in a transcript.
#[derive(Drop)]
pub struct PrintedState {
    lines: String,
    cursor: String,
    selection: String,
    screen: String,
    // Whether the next line that begins with `|` is a screen row, and not a line of the text.
    is_screen: bool,
    /// Whether a part of the state was read that isn't compared yet.
    pub is_new: bool,
    /// Whether any part of the state was read.
    pub is_known: bool,
}

impl PrintedState {
    /// Returns the state of an empty text area.
    pub fn new(alloc: Global) -> Result<PrintedState, AllocError> {
        Ok(PrintedState {
            lines: String::from_str(alloc, "lines 1\n|\n")?,
            cursor: String::from_str(alloc, "cursor 0 0\n")?,
            selection: String::from_str(alloc, "selection none\n")?,
            screen: String::new(alloc),
            is_screen: false,
            is_new: false,
            is_known: false,
        })
    }

    /// Reads a line of the state as `tascript` prints it. After `|` it may have any escape of
    /// scripts.
    pub fn show(&mut self, alloc: Global, line: &str) -> Result<(), Stop> {
        self.is_new = true;
        self.is_known = true;
        if line.starts_with("cursor ") {
            self.cursor.clear();
            writeln!(self.cursor, "{line}")?;
        } else if line.starts_with("selection ") {
            self.selection.clear();
            writeln!(self.selection, "{line}")?;
        } else {
            let row = unescaped(alloc, line)?;
            self.show_row(row.as_str())?;
        }
        Ok(())
    }

    // Reads the head of the lines or of the screen, or one of their lines.
    fn show_row(&mut self, line: &str) -> Result<(), Stop> {
        if line.starts_with("lines ") {
            self.is_screen = false;
            self.lines.clear();
        } else if line.starts_with("screen ") {
            self.is_screen = true;
            self.screen.clear();
        } else if !line.starts_with('|') {
            return Err(Stop::Unparsed);
        }
        if self.is_screen {
            writeln!(self.screen, "{}", Escaped(line))?;
        } else {
            writeln!(self.lines, "{}", Escaped(line))?;
        }
        Ok(())
    }

    /// Returns the state as `tascript` prints it.
    pub fn printed(&self, alloc: Global) -> Result<String, AllocError> {
        let PrintedState {
            lines,
            cursor,
            selection,
            screen,
            ..
        } = self;
        format!(in alloc; "{lines}{cursor}{selection}{screen}")
    }
}
