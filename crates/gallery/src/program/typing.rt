//! # What one undo takes back
//!
//! What one undo takes back: with joined edits a run of typing, else a character.
//!
//! - With `set_undo_coalescing` a run of typing is one edit: letters of a word, without a pause.
//!   The program passes the time by `set_now`, so that a script can replay it.
//! - Without it each character is an edit.
ghost use Rattle.gallery.specs.Ends.{EndsByEsc};

use crate::program::field;
use std::alloc::{AllocError, Global};
use std::time::Duration;
use tui_textarea::{Buffer, Input, Key, Rect, TextArea};

#[derive(Drop)]
pub struct Typing {
    runs: TextArea<'static>,
    characters: TextArea<'static>,
}

impl Typing {
    pub fn new(alloc: Global) -> Result<Typing, AllocError> {
        let mut runs = field(alloc, " by runs ")?;
        runs.set_undo_coalescing(true);
        field(alloc, " by characters ").map(|characters| Typing { runs, characters })
    }

    /// Each key goes to both; Ctrl with `u` undoes, and Esc ends the program. A pause ends a run.
    pub fn take(&mut self, input: Input, now: Duration) -> Result<bool, AllocError>
        ensures ends { EndsByEsc input.key result }
    {
        if input.key == Key::Esc {
            return Ok(false);
        }
        self.runs.set_now(now);
        self.runs.input(input.clone()?)?;
        self.characters.input(input)?;
        Ok(true)
    }

    /// Draws the two one below the other.
    pub fn draw(&mut self, screen: Rect, buffer: &mut Buffer) -> Result<(), AllocError> {
        let half = screen.height / 2;
        let top = Rect::new(screen.x, screen.y, screen.width, half);
        let bottom = Rect::new(screen.x, top.bottom(), screen.width, screen.height);
        self.runs.render(top, buffer)?;
        self.characters.render(bottom.intersection(screen), buffer)
    }
}
