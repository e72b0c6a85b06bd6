//! # Search and replace
//!
//! A search whose matches are lit and counted while its pattern is typed, and replaced by what is
//! typed beside it.
//!
//! Keys: Enter, Down: the next match; Up: the one before; Tab: what replaces it, or the pattern
//! again; there Enter replaces the match at the cursor, and Alt with Enter each match
//!
//! - All matches are drawn in the search style. An empty pattern matches nothing.
//! - `search_forward(true)` accepts a match at the cursor, so the cursor stays on it while the
//!   pattern grows.
//! - A pattern that is no regular expression is an error of `set_search_pattern`, which leaves the
//!   one before; here none is set then.
//! - `replace_match` goes to the next match after what it inserted, and `replace_all` replaces the
//!   matches of the text as it was: neither finds one in what it inserts. One undo takes all back,
//!   if as many edits are remembered.
//!
//! Read `edit` first.
ghost use Rattle.gallery.specs.Ends.{EndsByEsc};

use crate::program::{cursor_style, field};
use anyhow::Result;
use std::alloc::{AllocError, Global};
use tui_textarea::{Block, Buffer, Input, Key, Line, Rect, Style, TextArea};

const POEM: &str = "The sea was calm, the sea was wide,\nand on the shore the seals would hide;\n\
    they saw a sail, they saw it pass,\nas green as seaweed, smooth as glass.";

// The columns of the field for what replaces a match.
const COLUMNS: u16 = 14;

#[derive(Drop)]
pub struct Finder {
    alloc: Global,
    text: TextArea<'static>,
    pattern: TextArea<'static>,
    replacement: TextArea<'static>,
    /// Whether the keys go to the replacement.
    is_replacing: bool,
}

impl Finder {
    pub fn new(alloc: Global) -> Result<Finder, AllocError> {
        let mut text = TextArea::from_text(alloc, POEM)?;
        text.set_search_style(Style::new().black().on_yellow());
        text.set_cursor_line_style(Style::new());
        let pattern = field(alloc, " Find ")?;
        field(alloc, " Replace by ").map(|replacement| Finder {
            alloc,
            text,
            pattern,
            replacement,
            is_replacing: false,
        })
    }

    /// Esc ends the program.
    pub fn take(&mut self, input: Input) -> Result<bool>
        ensures ends { EndsByEsc input.key result }
    {
        match input.key {
            Key::Esc => return Ok(false),
            Key::Tab => self.is_replacing = !self.is_replacing,
            Key::Enter if self.is_replacing => self.replace(input.alt)?,
            Key::Enter | Key::Down => self.text.search_forward(false).map(drop)?,
            Key::Up => self.text.search_back(false).map(drop)?,
            _ if self.is_replacing => self.replacement.input(input).map(drop)?,
            _ => self.edit(input)?,
        }
        Ok(true)
    }

    // Edits the pattern, and goes to its next match.
    fn edit(&mut self, input: Input) -> Result<()> {
        self.pattern.input(input)?;
        let pattern = self.pattern.lines()[0].as_str();
        if self.text.set_search_pattern(pattern).is_err() {
            self.text.set_search_pattern("")?;
        }
        self.text.search_forward(true)?;
        Ok(())
    }

    // Replaces the match at the cursor, or each.
    fn replace(&mut self, all: bool) -> Result<(), AllocError> {
        let replacement = self.replacement.lines()[0].as_str();
        match all {
            true => self.text.replace_all(replacement).map(drop),
            false => self.text.replace_match(replacement).map(drop),
        }
    }

    // Says which of how many matches the cursor is at.
    fn found(&self) -> Result<String> {
        let count = self.text.match_count()?;
        let found = match self.text.match_index()? {
            Some(index) => format!(in self.alloc; ": {} of {count}", index.saturating_add(1)),
            None if count > 0 => format!(in self.alloc; ": {count}"),
            None if self.text.search_pattern().is_some() => format!(in self.alloc; ": no match"),
            None if self.pattern.is_empty() => Ok(String::new(self.alloc)),
            None => format!(in self.alloc; ": this is no pattern"),
        };
        Ok(found?)
    }

    /// Draws the text, and below it the two fields. The title of the first says what was found.
    pub fn draw(&mut self, screen: Rect, buffer: &mut Buffer) -> Result<()> {
        let rows = screen.height.saturating_sub(3);
        let above = Rect::new(screen.x, screen.y, screen.width, rows);
        let columns = screen.width.saturating_sub(COLUMNS);
        let left = Rect::new(screen.x, above.bottom(), columns, 3);
        let right = Rect::new(left.right(), above.bottom(), COLUMNS, 3);
        let title = format!(in self.alloc; " Find{} ", self.found()?)?;
        self.pattern
            .set_block(Block::bordered().title(Line::raw(title)?));
        self.pattern
            .set_cursor_style(cursor_style(!self.is_replacing));
        self.replacement
            .set_cursor_style(cursor_style(self.is_replacing));
        self.text.render(above, buffer)?;
        self.pattern.render(left.intersection(screen), buffer)?;
        Ok(self.replacement.render(right.intersection(screen), buffer)?)
    }
}
