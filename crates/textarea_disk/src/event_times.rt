//! When a journal is to be written.

ghost use Rattle.std.specs.Duration.{as_nanos};
ghost use Rattle.std.specs.Prelude.{◌≡◌, None};
ghost use Rattle.textarea_disk.specs.EventTimes.{is_due, noted};

use std::time::Duration;

// A second, in nanoseconds.
const SECOND: u128 = 1_000_000_000;

/// The times of the events after which a text may be another one than its journal has.
#[derive(Clone, Copy, Debug, Default)]
pub struct EventTimes {
    // Those of the first one since the last write, and of the last one, in nanoseconds.
    times: Option<(u128, u128)>,
}

impl EventTimes {
    /// Notes an event at this time since any start.
    pub fn note(&mut self, now: Duration)
        ensures { self.new.times ≡ noted self.old.times (as_nanos now) }
    {
        let now = now.as_nanos();
        self.times = match self.times {
            None => Some((now, now)),
            Some((first, _)) => Some((first, now)),
        };
    }

    /// Returns whether the journal is to be written at this time: a second after the last event, or
    /// five seconds after the first one.
    pub fn is_due(&self, now: Duration) -> bool
        ensures { result ≡ is_due self.now.times (as_nanos now) }
    {
        let now = now.as_nanos();
        match self.times {
            None => false,
            Some((first, last)) => {
                now.saturating_sub(last) >= SECOND || now.saturating_sub(first) >= 5 * SECOND
            }
        }
    }

    /// Forgets the events: the journal was written.
    pub fn clear(&mut self)
        ensures { self.new.times ≡ None }
    {
        self.times = None;
    }
}
