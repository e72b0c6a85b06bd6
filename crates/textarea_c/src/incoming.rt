//! What a terminal sent, behind a handle.
use std::alloc::{AllocError, Global};
use std::marker::Model;
use textarea_c_data::event::CEvent;
use textarea_terminal::input::{Decoder, Event};

/// A decoder, the events that were not taken yet, and the text that was pasted last.
///
/// In a clause it is an [`IncomingState`](../specs/Incoming.antt).
#[derive(Drop)]
pub struct Incoming {
    decoder: Decoder,
    // The events that were not taken yet, the oldest last.
    waiting: Vec<Event>,
    pasted: String,
}

impl Model for Incoming {
    ghost use Rattle.std.specs.Prelude.{map, reverse, string_bytes};
    ghost use Rattle.textarea_terminal.specs.InputEvent.{value_of};
    ghost use Rattle.textarea_c.specs.Incoming.{IncomingState};

    ghost Value = { IncomingState };

    ghost view = { λ incoming. record {
      decoder = incoming.decoder;
      events = map value_of (reverse incoming.waiting.items);
      pasted = string_bytes incoming.pasted;
    } };
}

impl Incoming {
    ghost use Rattle.std.specs.Prelude.{◌≡◌, OnOk, OnErr};
    ghost use Rattle.textarea_terminal.specs.InputState.{asked, fed, on_console, paused, resizing};
    ghost use Rattle.textarea_c.specs.Incoming.{after_decoding, event_taken, new_incoming, rest_taken, with_expected_in};

    /// Returns a new decoder, with no event.
    pub fn new(alloc: Global) -> Incoming
        ensures { result ≡ new_incoming }
    {
        Incoming {
            decoder: Decoder::new(alloc),
            waiting: Vec::new(alloc),
            pasted: String::new(alloc),
        }
    }

    /// Decodes the next bytes of the terminal. Out of memory, nothing changes.
    pub fn feed(&mut self, bytes: &[u8]) -> Result<(), AllocError>
        ensures ok { OnOk result (self.new ≡ after_decoding self.old (fed self.old.decoder bytes.now)) }
        ensures err { OnErr result (self.new ≡ self.old) }
    {
        self.waiting.reverse();
        let fed = self.decoder.feed(bytes, &mut self.waiting);
        self.waiting.reverse();
        fed
    }

    /// Tells that no byte came for so many milliseconds, since the last byte or the last call of
    /// `idle`. Out of memory, nothing changes.
    pub fn idle(&mut self, milliseconds: u32) -> Result<(), AllocError>
        ensures ok { OnOk result (self.new ≡ after_decoding self.old (paused self.old.decoder milliseconds)) }
        ensures err { OnErr result (self.new ≡ self.old) }
    {
        self.waiting.reverse();
        let settled = self.decoder.idle(milliseconds, &mut self.waiting);
        self.waiting.reverse();
        settled
    }

    /// Takes the oldest event. If it is a pasted text, `pasted` returns that from now on.
    pub fn take(&mut self) -> Option<CEvent>
        ensures taken { result ≡ event_taken self.old.events }
        ensures rest { self.new ≡ rest_taken self.old self.old.events }
    {
        let event = self.waiting.pop()?;
        let taken = CEvent::of(&event);
        if let Event::Paste(text) = event {
            self.pasted = text;
        }
        Some(taken)
    }

    /// Returns the text that was pasted last, of the events that were taken.
    pub fn pasted(&self) -> &str
        ensures { result.now ≡ self.now.pasted }
    {
        self.pasted.as_str()
    }

    /// Tells that a query was sent, whose reply is a size or the cursor's position.
    pub fn asked(&mut self)
        ensures { self.new ≡ with_expected_in self.old (asked self.old.decoder.expected) }
    {
        self.decoder.asked();
    }

    /// Sets whether the terminal reports a new size by itself (mode 2048).
    pub fn set_resizes(&mut self, resizes: bool)
        ensures { self.new ≡ with_expected_in self.old (resizing resizes self.old.decoder.expected) }
    {
        self.decoder.set_resizes(resizes);
    }

    /// Sets whether the terminal is the Linux console.
    pub fn set_console(&mut self, console: bool)
        ensures { self.new ≡ with_expected_in self.old (on_console console self.old.decoder.expected) }
    {
        self.decoder.set_console(console);
    }
}
