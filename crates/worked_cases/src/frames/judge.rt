//! Draws frames and checks their carets.
ghost use Rattle.textarea_calls.specs.Possible.{CanBeMade};

use crate::frames::caret::{is_caret_promised, is_wide_row};
use crate::frames::tally::{FrameTally, count};
use std::alloc::{AllocError, Global};
use textarea_calls::Call;
use textarea_run::perform::perform;
use tui_textarea::{Buffer, Position, Rect, TextArea};

/// The width of the buffer, in columns: enough for the longest tab and what is beside it.
const COLUMNS: u16 = 300;

/// The height of the buffer, in rows.
const ROWS: u16 = 8;

/// Draws and checks the frames of one text.
#[derive(Drop)]
pub struct FrameJudge {
    buffer: Buffer,
    // The width of the text's widest cluster except tabs.
    widest: usize,
    tally: FrameTally,
}

impl FrameJudge {
    /// Returns a judge without counts. `widest` is the width of the widest cluster except tabs.
    pub fn new(alloc: Global, widest: usize) -> Result<FrameJudge, AllocError> {
        Ok(FrameJudge {
            buffer: Buffer::empty(alloc, Rect::new(0, 0, COLUMNS, ROWS))?,
            widest,
            tally: FrameTally::default(),
        })
    }

    pub fn tally(&self) -> FrameTally {
        self.tally
    }

    /// Makes a call that writes the text. It isn't counted.
    pub fn write(&mut self, area: &mut TextArea<'_>, call: Call<'_>) -> Result<(), AllocError>
        requires { CanBeMade call }
    {
        make(area, call, &mut self.buffer)
    }

    /// Makes a call, if it can be made. It must not fail.
    pub fn make_call(&mut self, area: &mut TextArea<'_>, call: Call<'_>) {
        if !call.can_be_made() {
            return;
        }
        count(&mut self.tally.calls);
        if make(area, call, &mut self.buffer).is_err() {
            count(&mut self.tally.failed);
        }
    }

    /// Draws the text area into this area, which must not fail, and checks its caret.
    pub fn draw_frame(&mut self, area: &mut TextArea<'_>, place: Rect) {
        count(&mut self.tally.frames);
        if area.render(place, &mut self.buffer).is_err() {
            count(&mut self.tally.failed);
            return;
        }
        let inner = match area.block() {
            Some(block) => block.inner(place),
            None => place,
        };
        self.judge_caret(area, inner);
    }

    // Checks that the caret is where it is promised.
    fn judge_caret(&mut self, area: &TextArea<'_>, inner: Rect) {
        let is_promised = is_caret_promised(area, inner, self.widest);
        if is_promised {
            count(&mut self.tally.promised);
        }
        match area.rendered_cursor_position() {
            Some(cell) => self.judge_cell(area, inner, cell),
            None if is_promised => count(&mut self.tally.missing),
            None => {}
        }
    }

    // Checks the caret's cell. It must be in the inner area, and its hit test must give the cursor
    // or, if the cursor's visual row has a character of display width 0, any position.
    fn judge_cell(&mut self, area: &TextArea<'_>, inner: Rect, cell: Position) {
        count(&mut self.tally.displayed);
        let found = area.cursor_at_position(cell).unwrap_or(None);
        if found == Some(area.cursor()) && inner.contains(cell) {
            count(&mut self.tally.caret_hit);
        } else if found.is_none() || !inner.contains(cell) || is_wide_row(area, inner.width()) {
            count(&mut self.tally.astray);
        }
    }
}

// Makes a call and drops its result.
fn make(area: &mut TextArea<'_>, call: Call<'_>, buffer: &mut Buffer) -> Result<(), AllocError>
    requires { CanBeMade call }
{
    let answer = perform(area, call, buffer)?;
    drop(answer);
    Ok(())
}
