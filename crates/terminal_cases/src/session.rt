//! Lines, and what they print.

use crate::decode::events_in_order;
use crate::painting::Painting;
use crate::random::{first_differing, first_differing_block};
use crate::text::push_events;
use std::alloc::{AllocError, Global};

/// The output of the lines so far, and the painter of their frames.
#[derive(Drop)]
pub struct Session {
    painting: Painting,
    printed: Vec<u8>,
    out_of_memory_count: usize,
    is_right: bool,
}

impl Session {
    /// A session with no output.
    pub fn new(alloc: Global) -> Result<Session, AllocError> {
        Ok(Session {
            painting: Painting::new(alloc)?,
            printed: Vec::new(alloc),
            out_of_memory_count: 0,
            is_right: true,
        })
    }

    /// The output of the lines.
    pub fn printed(&self) -> &[u8] {
        self.printed.as_slice()
    }

    /// The number of calls of the decoder and the painter that ran out of memory.
    pub fn out_of_memory_count(&self) -> usize {
        self.out_of_memory_count
    }

    /// Whether the events of all random strings were the same, however they were split.
    pub fn is_right(&self) -> bool {
        self.is_right
    }

    /// Serves one line. Returns `false` if it is unparsed.
    pub fn serve(&mut self, alloc: Global, line: &str) -> Result<bool, AllocError> {
        if line.starts_with("# ") {
            return self.print(line);
        }
        // A cell's text may be a tab.
        if line.starts_with("cell ") {
            return self.serve_command(alloc, line);
        }
        match line.split_once('\t') {
            Some((name, hex)) => self.serve_case(alloc, name, hex),
            None => self.serve_command(alloc, line),
        }
    }

    fn serve_case(&mut self, alloc: Global, name: &str, hex: &str) -> Result<bool, AllocError> {
        match events_in_order(alloc, hex, &mut self.out_of_memory_count)? {
            Some(events) => {
                let mut text = String::from_str(alloc, name)?;
                push_events(&mut text, events.as_slice())?;
                self.print(text.as_str())
            }
            None => Ok(false),
        }
    }

    fn serve_command(&mut self, alloc: Global, line: &str) -> Result<bool, AllocError> {
        match line.split_once(' ') {
            Some(("random", count)) => self.serve_random(alloc, count),
            Some(("stream", rest)) => self.serve_stream(alloc, rest),
            _ => {
                let (painting, printed) = (&mut self.painting, &mut self.printed);
                painting.serve(alloc, line, printed, &mut self.out_of_memory_count)
            }
        }
    }

    fn serve_random(&mut self, alloc: Global, count: &str) -> Result<bool, AllocError> {
        let Ok(count) = count.parse::<u32>() else {
            return Ok(false);
        };
        match first_differing(alloc, count)? {
            None => self.print("random strings; the same in any pieces"),
            Some(number) => {
                self.is_right = false;
                let reported = format!(in alloc; "random string {number} differs in pieces")?;
                self.print(reported.as_str())
            }
        }
    }

    fn serve_stream(&mut self, alloc: Global, rest: &str) -> Result<bool, AllocError> {
        let Some((seed, count)) = seed_and_count(rest) else {
            return Ok(false);
        };
        match first_differing_block(alloc, seed, count)? {
            None => self.print("a stream; the same in any pieces"),
            Some(number) => {
                self.is_right = false;
                let reported = format!(in alloc; "block {number} differs in pieces")?;
                self.print(reported.as_str())
            }
        }
    }

    fn print(&mut self, line: &str) -> Result<bool, AllocError> {
        self.printed.extend_from_slice(line.as_bytes())?;
        self.printed.extend_from_slice(b"\n")?;
        Ok(true)
    }
}

// The two numbers of a stream.
fn seed_and_count(text: &str) -> Option<(u64, u32)> {
    let (seed, count) = text.split_once(' ')?;
    Some((seed.parse::<u64>().ok()?, count.parse::<u32>().ok()?))
}
