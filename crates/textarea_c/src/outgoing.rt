//! What a terminal is sent, behind a handle.
use std::alloc::{AllocError, Global};
use std::marker::Model;
use textarea_screen::screen::{Buffer, Position, Rect};
use textarea_terminal::output::{Colors, Painter};

/// A painter, and the bytes of the frame that was painted last.
///
/// In a clause it is an [`OutgoingState`](../specs/Outgoing.antt).
#[derive(Drop)]
pub struct Outgoing {
    painter: Painter,
    bytes: Vec<u8>,
}

impl Model for Outgoing {
    ghost use Rattle.textarea_terminal.specs.Painter.{painted, painter_area, painter_colors};
    ghost use Rattle.textarea_c.specs.Outgoing.{OutgoingState};

    ghost Value = { OutgoingState };

    ghost view = { λ outgoing. record {
      area = painter_area outgoing.painter;
      colors = painter_colors outgoing.painter;
      painted = painted outgoing.painter;
      bytes = outgoing.bytes.items;
    } };
}

impl Outgoing {
    ghost use Rattle.std.specs.Prelude.{◌≡◌, IfOk, OnOk, OnErr};
    ghost use Rattle.textarea_c.specs.Outgoing.{IsFramePainted, new_outgoing, resized, unpainted, with_colors};

    /// Returns a painter for a terminal whose content is unknown, with no bytes.
    pub fn new(alloc: Global, area: Rect) -> Result<Outgoing, AllocError>
        ensures { IfOk result (λ outgoing. outgoing ≡ new_outgoing area) }
    {
        Ok(Outgoing {
            painter: Painter::new(alloc, area)?,
            bytes: Vec::new(alloc),
        })
    }

    /// Replaces the bytes by those that make the terminal show a buffer and a caret, after the frame
    /// before. Out of memory, nothing changes.
    pub fn paint(&mut self, buffer: &Buffer, caret: Option<Position>) -> Result<(), AllocError>
        ensures ok { OnOk result (IsFramePainted self.old buffer.now caret self.new) }
        ensures err { OnErr result (self.new ≡ self.old) }
    {
        let before = self.bytes.len();
        self.painter.paint(buffer, caret, &mut self.bytes)?;
        self.bytes.rotate_left(before);
        let count = self.bytes.len() - before;
        self.bytes.truncate(count);
        Ok(())
    }

    /// Returns the bytes of the frame that was painted last.
    pub fn bytes(&self) -> &[u8]
        ensures { result.now ≡ self.now.bytes }
    {
        self.bytes.as_slice()
    }

    /// Forgets what the terminal shows, and its modes.
    pub fn reset(&mut self)
        ensures { self.new ≡ unpainted self.old }
    {
        self.painter.reset();
    }

    /// Changes the area, and forgets what the terminal shows. Out of memory, nothing changes.
    pub fn resize(&mut self, area: Rect) -> Result<(), AllocError>
        ensures ok { OnOk result (self.new ≡ resized self.old area) }
        ensures err { OnErr result (self.new ≡ self.old) }
    {
        self.painter.resize(area)
    }

    /// Changes the colours that the terminal has, and forgets what it shows.
    pub fn set_colors(&mut self, colors: Colors)
        ensures { self.new ≡ with_colors self.old colors }
    {
        self.painter.set_colors(colors);
    }
}
