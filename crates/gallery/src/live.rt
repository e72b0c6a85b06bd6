//! A program in a terminal, which is in raw mode, and whose reads return after a while if no byte
//! comes. `tools/gallery-live` prepares it so.

use crate::program::Program;
use anyhow::Result;
use std::alloc::Global;
use std::io::{Read, Write};
use std::time::{Duration, Instant};
use textarea_host::{SizeFile, Watch, size_in};
use textarea_terminal::input::{Decoder, Event};
use textarea_terminal::output::Painter;
use tui_textarea::{Buffer, Rect};

/// A program, and the terminal that it runs in.
#[derive(Drop)]
struct Session {
    alloc: Global,
    program: Program,
    decoder: Decoder,
    painter: Painter,
    screen: Rect,
}

/// Runs the program of this name until it ends, or until the terminal is gone.
pub fn run(rt: &HostRuntime, name: &str) -> Result<()> {
    let screen = Rect::new(0, 0, size_in(rt, "COLUMNS", 80), size_in(rt, "LINES", 24));
    let painter = Painter::new(rt.alloc(), screen)?;
    let mut session = Session {
        alloc: rt.alloc(),
        program: Program::new(rt.alloc(), name)?,
        decoder: Decoder::new(rt.alloc()),
        painter,
        screen,
    };
    let ended = session.run(rt);
    drop(session);
    ended
}

impl Session {
    fn run(&mut self, rt: &HostRuntime) -> Result<()> {
        let begin = Instant::now(rt)?;
        let mut sizes = SizeFile::new(rt);
        let mut watch = Watch::default();
        self.show(rt)?;
        for _ in 0..u64::MAX {
            let mut bytes = [0u8; 4096];
            let asked = Instant::now(rt)?;
            let count = rt.stdin().read(&mut bytes)?;
            let now = Instant::now(rt)?;
            let waited = now.duration_since(asked);
            if count == 0 {
                self.take_size(rt, &mut sizes)?;
            }
            let goes_on = self.take(rt, &bytes[..count], waited, now.duration_since(begin))?;
            if !goes_on || watch.is_gone(count, waited) {
                break;
            }
        }
        Ok(())
    }

    // Draws all again if the terminal has another size.
    fn take_size(&mut self, rt: &HostRuntime, sizes: &mut SizeFile) -> Result<()> {
        if let Some((columns, rows)) = sizes.news(rt) {
            self.resize(columns, rows)?;
            self.show(rt)?;
        }
        Ok(())
    }

    fn resize(&mut self, columns: u16, rows: u16) -> Result<()> {
        self.screen = Rect::new(0, 0, columns, rows);
        Ok(self.painter.resize(self.screen)?)
    }

    // Takes bytes of the terminal, or that none came in this time, and returns whether the program
    // goes on.
    fn take(
        &mut self,
        rt: &HostRuntime,
        bytes: &[u8],
        waited: Duration,
        now: Duration,
    ) -> Result<bool> {
        let mut events = Vec::new(self.alloc);
        if bytes.is_empty() {
            let milliseconds = u32::try_from(waited.as_millis()).unwrap_or(u32::MAX);
            self.decoder.idle(milliseconds, &mut events)?;
        } else {
            self.decoder.feed(bytes, &mut events)?;
        }
        for event in &events {
            if let Event::Size { columns, rows } = event {
                self.resize(*columns, *rows)?;
            }
            if !self.program.take(event, now)? {
                return Ok(false);
            }
        }
        if !events.is_empty() {
            self.show(rt)?;
        }
        Ok(true)
    }

    fn show(&mut self, rt: &HostRuntime) -> Result<()> {
        let mut buffer = Buffer::empty(self.alloc, self.screen)?;
        self.program.draw(self.screen, &mut buffer)?;
        let mut out = Vec::new(self.alloc);
        self.painter.paint(&buffer, None, &mut out)?;
        let mut terminal = rt.stdout();
        terminal.write_all(out.as_slice())?;
        terminal.flush()?;
        Ok(())
    }
}
