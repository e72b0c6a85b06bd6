//! What a program learns of the terminal that it runs in: its size, and that it is gone.
#![tactic(auto)]

ghost use Rattle.std.specs.Duration.{as_nanos};
ghost use Rattle.std.specs.Prelude.{◌≡◌, nat_lt};
ghost use Rattle.textarea_host.specs.Watch.{unanswered_after};

use std::time::Duration;
use std::{env, fs};

// A read of this many nanoseconds is one that waited.
const LEAST_WAIT: u128 = 5_000_000;

// After more unanswered reads than these, one after another, the terminal is gone.
const MOST_UNANSWERED: u32 = 100;

/// Returns the number that an environment variable has, such as `COLUMNS`, or another one if it has
/// none.
pub fn size_in(rt: &HostRuntime, variable: &str, other: u16) -> u16 {
    match env::var(rt, variable) {
        Ok(text) => text.parse::<u16>().unwrap_or(other),
        Err(_) => other,
    }
}

/// The file that the script which starts a program writes when the terminal's size may have changed:
/// the rows, the columns, and a number that differs from the one before. The program reads it while it
/// waits for keys, so that no reply of the terminal gets among these.
#[derive(Drop)]
pub struct SizeFile {
    name: Option<String>,
    text: String,
}

impl SizeFile {
    /// Returns the file that the variable `TEXTAREA_SIZE` names. Without one there is no news.
    pub fn new(rt: &HostRuntime) -> SizeFile {
        SizeFile {
            name: env::var(rt, "TEXTAREA_SIZE").ok(),
            text: String::new(rt.alloc()),
        }
    }

    /// Returns the columns and rows of the terminal if the file was written since the last call.
    pub fn news(&mut self, rt: &HostRuntime) -> Option<(u16, u16)> {
        let text = fs::read_to_string(rt, self.name.as_ref()?.as_str()).ok()?;
        if text.as_str() == self.text.as_str() {
            return None;
        }
        let size = columns_and_rows(text.as_str());
        self.text = text;
        size
    }
}

fn columns_and_rows(text: &str) -> Option<(u16, u16)> {
    let mut words = text.split(' ');
    let rows = words.next()?.parse::<u16>().ok()?;
    let columns = words.next()?.parse::<u16>().ok()?;
    Some((columns, rows))
}

/// Watches whether the terminal is still there.
#[derive(Clone, Copy, Debug, Default, PartialEq, Eq)]
pub struct Watch {
    /// The reads, one after another, that got no byte and took no time.
    unanswered: u32,
}

impl Watch {
    /// Returns whether the terminal is gone, after a read that got this number of bytes and took this
    /// time: more than 100 reads, one after another, got none in less than 5 milliseconds. A terminal
    /// that is there lets an empty read wait.
    pub fn is_gone(&mut self, count: usize, taken: Duration) -> bool
        ensures reads { self.new.unanswered
            ≡ unanswered_after self.old.unanswered count (as_nanos taken) }
        ensures gone { result ≡ nat_lt 100 self.new.unanswered }
    {
        self.unanswered = if count > 0 || taken.as_nanos() >= LEAST_WAIT {
            0
        } else {
            self.unanswered.saturating_add(1)
        };
        self.unanswered > MOST_UNANSWERED
    }
}
