//! # Prompt that grows
//!
//! A prompt that grows with its text, up to five rows, and then scrolls; above it what was sent.
//!
//! Keys: Enter sends the text; Alt with Enter breaks the line
//!
//! - `measure` returns the height that the text needs at a width, before anything is drawn. The
//!   drawing has as many rows: this is proved of `draw`.
//! - `set_max_rows` limits the height of the whole area, with the block's two rows. Then the text
//!   scrolls.
//! - The input is matched before it goes to the text area, so Enter is the program's own key.
//! - `insert_pasted` breaks lines at carriage returns too, as terminals paste them; `insert_str`
//!   doesn't.
//!
//! Read `draw_prompt` first.

ghost use Rattle.std.specs.Prelude.{IfOk};
ghost use Rattle.gallery.specs.Ends.{EndsByEsc};
ghost use Rattle.gallery.specs.Heights.{IsAsHighAsItsText};

use std::alloc::{AllocError, Global};
use tui_textarea::laws::measured_as_drawn;
use tui_textarea::{Block, Buffer, CursorMove, Input, Key, Rect, Style, TextArea, WrapMode};

/// The most rows of text that are visible.
const MOST_ROWS: u16 = 5;

#[derive(Drop)]
pub struct Prompt {
    area: TextArea<'static>,
    sent: TextArea<'static>,
}

fn set_up(area: &mut TextArea<'_>) -> Result<(), AllocError> {
    area.set_block(Block::bordered().border_style(Style::new().cyan()));
    area.set_max_rows(MOST_ROWS + 2);
    area.set_cursor_line_style(Style::new());
    area.set_placeholder_style(Style::new().dark_gray());
    area.set_placeholder_text("Ask anything")?;
    area.set_wrap_mode(WrapMode::Word)
}

// What was sent has no cursor that shows.
fn set_up_sent(sent: &mut TextArea<'_>) -> Result<(), AllocError> {
    sent.set_cursor_style(Style::new());
    sent.set_cursor_line_style(Style::new());
    sent.set_wrap_mode(WrapMode::Word)
}

// Adds the lines of a text below those that were sent before.
fn add(sent: &mut TextArea<'_>, lines: &[String]) -> Result<(), AllocError> {
    sent.move_cursor(CursorMove::Bottom);
    sent.move_cursor(CursorMove::End);
    for line in lines {
        sent.insert_newline()?;
        sent.insert_str(line.as_str())?;
    }
    Ok(())
}

impl Prompt {
    pub fn new(alloc: Global) -> Result<Prompt, AllocError> {
        let mut area = TextArea::try_default(alloc)?;
        set_up(&mut area)?;
        let mut sent = TextArea::try_default(alloc)?;
        set_up_sent(&mut sent)?;
        Ok(Prompt { area, sent })
    }

    // Sends the text, and empties the prompt.
    fn send(&mut self) -> Result<bool, AllocError> {
        if !self.area.is_empty() {
            add(&mut self.sent, self.area.lines())?;
        }
        self.area.clear()
    }

    /// Enter sends the text, Alt with Enter breaks the line, and Esc ends the program.
    pub fn take(&mut self, input: Input) -> Result<bool, AllocError>
        ensures ends { EndsByEsc input.key result }
    {
        match input.key {
            Key::Esc => return Ok(false),
            Key::Enter if !input.alt => self.send()?,
            _ => self.area.input(input)?,
        };
        Ok(true)
    }

    /// Inserts a pasted text. A terminal pastes line ends as carriage returns.
    pub fn paste(&mut self, text: &str) -> Result<(), AllocError> {
        self.area.insert_pasted(text)?;
        Ok(())
    }

    /// Draws the prompt at the bottom of the screen, as high as its text needs, and above it what was
    /// sent. Returns the prompt's area.
    pub fn draw(&mut self, screen: Rect, buffer: &mut Buffer) -> Result<Rect, AllocError>
        ensures height { IfOk result (IsAsHighAsItsText self.old.area self.new.area screen) }
    {
        let area = draw_prompt(&mut self.area, screen, buffer)?;
        let above = area.y.saturating_sub(screen.y);
        let rows = Rect::new(screen.x, screen.y, screen.width, above);
        self.sent.render(rows, buffer)?;
        Ok(area)
    }
}

// Draws the prompt at the bottom of the screen, as high as its text needs, and returns its area.
fn draw_prompt(
    text: &mut TextArea<'_>,
    screen: Rect,
    buffer: &mut Buffer,
) -> Result<Rect, AllocError>
    ensures height { IfOk result (IsAsHighAsItsText text.old text.new screen) }
{
    measured_as_drawn();
    let height = text.measure(screen.width)?.preferred_rows;
    let height = height.min(screen.height);
    let top = screen.bottom() - height;
    let area = Rect::new(screen.x, top, screen.width, height);
    text.render(area, buffer)?;
    Ok(area)
}
