//! A decoder of the bytes of a terminal.

ghost use Rattle.std.specs.Prelude.{◌≡◌, ◌≤◌, ◌+◌, ◌++◌, [], ◌∷◌, min, length, take, drop, None, true, false, is_some, IfSome, IfOk, OnOk, OnErr, vec_len};
ghost use Rattle.textarea_terminal.specs.InputUnit.{unit_at, after_mark, paste_start};
ghost use Rattle.textarea_terminal.specs.InputStream.{Adds, AddsUpTo, begun_bytes, leading_key, keys_after_escape, idle_keys, values_of_keys, idle_decoding};
ghost use Rattle.textarea_terminal.specs.InputReply.{made, refining};
ghost use Rattle.textarea_terminal.specs.InputState.{reading, quiet_after, pause_limit, fed, paused, long_pause, keys_or_unknown, given, settled_by, with_expected, asked, resizing, on_console, new_decoder};

use crate::input::event::Event;
use crate::input::key::{alt_input, plain_input};
use crate::input::paste::{after_start, find_end};
use crate::input::reply::{Expected, push_found, push_paste};
use crate::input::short::read_quick;
use crate::input::unit::{begins_string, read_unit};
use std::alloc::{AllocError, Global};
use std::marker::Model;
use textarea_data::input::{Input, Key};

const ESCAPE: u8 = 0x1b;

// The milliseconds of a long pause.
const PAUSE_LIMIT: u32 = 5000;

// Adds the keys at the front that `read_quick` reads, and returns the rest of the bytes. On the
// Linux console it adds none. After an `Err` some may have been added.
fn push_short<'a>(
    expected: Expected,
    bytes: &'a [u8],
    events: &mut Vec<Event>,
) -> Result<&'a [u8], AllocError>
    ensures left { IfOk result (λ rest. begun_bytes rest.now ≡ begun_bytes bytes.now) }
    ensures events { IfOk result (λ rest. AddsUpTo events.old.items events.new.items
        (made expected rest.now).0 (made expected bytes.now).0) }
    ensures expected { IfOk result (λ rest.
        (made expected rest.now).1 ≡ (made expected bytes.now).1) }
    ensures front { take (vec_len events.old) events.new.items ≡ events.old.items }
    ensures shorter { IfOk result (λ rest. length rest.now ≤ length bytes.now) }
{
    if expected.console {
        return Ok(bytes);
    }
    let mut rest = bytes;
    while let Some((input, after)) = read_quick(rest) {
        events.push(Event::Input(input))?;
        rest = after;
    }
    Ok(rest)
}

// Adds the events of the bytes, and returns the bytes of what is incomplete at their end, and what
// is expected then. The first `begun` bytes are known to be incomplete. After an `Err` some events
// may have been added.
fn read_units<'a>(
    alloc: Global,
    bytes: &'a [u8],
    begun: usize,
    expected: Expected,
    events: &mut Vec<Event>,
) -> Result<(&'a [u8], Expected), AllocError>
    requires within { begun ≤ length bytes.now }
    requires begun { unit_at (take begun bytes.now) ≡ None }
    ensures rest { IfOk result (λ x. x.0.now ≡ begun_bytes bytes.now) }
    ensures expected { IfOk result (λ x. x.1 ≡ (made expected bytes.now).1) }
    ensures events { OnOk result (Adds events.old.items events.new.items
        (made expected bytes.now).0) }
    ensures front { take (vec_len events.old) events.new.items ≡ events.old.items }
{
    let mut rest = bytes;
    let mut begun = begun;
    let mut expected = expected;
    while let Some((found, after)) = read_unit(rest, begun) {
        expected = push_found(alloc, expected, found, events)?;
        rest = push_short(expected, after, events)?;
        begun = 0;
    }
    Ok((rest, expected))
}

// Removes bytes from the front.
fn remove_front(bytes: &mut Vec<u8>, count: usize)
    requires { count ≤ vec_len bytes.old }
    ensures { bytes.new.items ≡ drop count bytes.old.items }
{
    if count == 0 {
        return;
    }
    let len = bytes.len();
    bytes.copy_within(count..len, 0);
    bytes.truncate(len - count);
}

// Adds the events of bytes when none are pending, stores the bytes of what is incomplete, and
// returns what is expected then. After an `Err` some events may have been added.
#[tactic(auto, using(crate::proofs::InputUnits::nothing_begun))]
fn read_fresh(
    pending: &mut Vec<u8>,
    bytes: &[u8],
    expected: Expected,
    events: &mut Vec<Event>,
) -> Result<Expected, AllocError>
    requires { pending.old.items ≡ [] }
    ensures pending { OnOk result (pending.new.items ≡ begun_bytes bytes.now) }
    ensures expected { IfOk result (λ e. e ≡ (made expected bytes.now).1) }
    ensures events { OnOk result (Adds events.old.items events.new.items
        (made expected bytes.now).0) }
    ensures err { OnErr result (pending.new.items ≡ pending.old.items) }
    ensures front { take (vec_len events.old) events.new.items ≡ events.old.items }
{
    let alloc = *pending.allocator();
    let (rest, expected) = read_units(alloc, bytes, 0, expected, events)?;
    pending.extend_from_slice(rest)?;
    Ok(expected)
}

// Adds the events of the pending bytes and these after them, stores the bytes of what is
// incomplete, and returns what is expected then. After an `Err` some bytes and events may have been
// added.
fn read_begun(
    pending: &mut Vec<u8>,
    bytes: &[u8],
    expected: Expected,
    events: &mut Vec<Event>,
) -> Result<Expected, AllocError>
    requires { unit_at pending.old.items ≡ None }
    ensures pending { OnOk result
        (pending.new.items ≡ begun_bytes (pending.old.items ++ bytes.now)) }
    ensures expected { IfOk result (λ e. e ≡ (made expected (pending.old.items ++ bytes.now)).1) }
    ensures events { OnOk result (Adds events.old.items events.new.items
        (made expected (pending.old.items ++ bytes.now)).0) }
    ensures err { OnErr result (take (vec_len pending.old) pending.new.items ≡ pending.old.items) }
    ensures front { take (vec_len events.old) events.new.items ≡ events.old.items }
{
    let begun = pending.len();
    pending.extend_from_slice(bytes)?;
    let alloc = *pending.allocator();
    let (rest, expected) = read_units(alloc, pending.as_slice(), begun, expected, events)?;
    let left = rest.len();
    let count = pending.len() - left;
    remove_front(pending, count);
    Ok(expected)
}

// The same, of what is after the rest of a paste that gave way, and returns whether that rest goes
// on. After an `Err` some bytes and events may have been added.
#[tactic(auto, using(crate::proofs::InputUnits::nothing_begun), unfolding(crate::specs::InputState::reading, crate::specs::InputReply::refining))]
fn read_dropped(
    pending: &mut Vec<u8>,
    bytes: &[u8],
    expected: Expected,
    events: &mut Vec<Event>,
) -> Result<(bool, Expected), AllocError>
    ensures pending { OnOk result
        (pending.new.items ≡ (reading true (pending.old.items ++ bytes.now)).pending) }
    ensures drops { IfOk result (λ x.
        x.0 ≡ (reading true (pending.old.items ++ bytes.now)).drops) }
    ensures expected { IfOk result (λ x. x.1
        ≡ (refining expected (reading true (pending.old.items ++ bytes.now)).values).1) }
    ensures events { OnOk result (Adds events.old.items events.new.items
        (refining expected (reading true (pending.old.items ++ bytes.now)).values).0) }
    ensures err { OnErr result (take (vec_len pending.old) pending.new.items ≡ pending.old.items) }
    ensures front { take (vec_len events.old) events.new.items ≡ events.old.items }
{
    pending.extend_from_slice(bytes)?;
    let alloc = *pending.allocator();
    match find_end(pending.as_slice(), 0) {
        Some(index) => {
            let after = &pending.as_slice()[index + 6..];
            let (rest, expected) = read_units(alloc, after, 0, expected, events)?;
            let left = rest.len();
            let count = pending.len() - left;
            remove_front(pending, count);
            Ok((false, expected))
        }
        None => {
            let count = pending.len().saturating_sub(5);
            remove_front(pending, count);
            Ok((true, expected))
        }
    }
}

// The same, whether bytes are dropped or not, and whether bytes are pending or not.
#[tactic(auto, unfolding(crate::specs::InputState::reading))]
fn read_segments(
    pending: &mut Vec<u8>,
    drops: bool,
    bytes: &[u8],
    expected: Expected,
    events: &mut Vec<Event>,
) -> Result<(bool, Expected), AllocError>
    requires { drops ≡ false → unit_at pending.old.items ≡ None }
    ensures pending { OnOk result
        (pending.new.items ≡ (reading drops (pending.old.items ++ bytes.now)).pending) }
    ensures drops { IfOk result (λ x.
        x.0 ≡ (reading drops (pending.old.items ++ bytes.now)).drops) }
    ensures expected { IfOk result (λ x. x.1
        ≡ (refining expected (reading drops (pending.old.items ++ bytes.now)).values).1) }
    ensures events { OnOk result (Adds events.old.items events.new.items
        (refining expected (reading drops (pending.old.items ++ bytes.now)).values).0) }
    ensures err { OnErr result (take (vec_len pending.old) pending.new.items ≡ pending.old.items) }
    ensures front { take (vec_len events.old) events.new.items ≡ events.old.items }
{
    if drops {
        read_dropped(pending, bytes, expected, events)
    } else if pending.is_empty() {
        let expected = read_fresh(pending, bytes, expected, events)?;
        Ok((false, expected))
    } else {
        let expected = read_begun(pending, bytes, expected, events)?;
        Ok((false, expected))
    }
}

// The same. An `Err` changes nothing.
fn feed_pending(
    pending: &mut Vec<u8>,
    drops: bool,
    bytes: &[u8],
    expected: Expected,
    events: &mut Vec<Event>,
) -> Result<(bool, Expected), AllocError>
    requires { drops ≡ false → unit_at pending.old.items ≡ None }
    ensures pending { OnOk result
        (pending.new.items ≡ (reading drops (pending.old.items ++ bytes.now)).pending) }
    ensures drops { IfOk result (λ x.
        x.0 ≡ (reading drops (pending.old.items ++ bytes.now)).drops) }
    ensures expected { IfOk result (λ x. x.1
        ≡ (refining expected (reading drops (pending.old.items ++ bytes.now)).values).1) }
    ensures events { OnOk result (Adds events.old.items events.new.items
        (refining expected (reading drops (pending.old.items ++ bytes.now)).values).0) }
    ensures err { OnErr result ((pending.new.items ≡ pending.old.items)
        × (events.new.items ≡ events.old.items)) }
{
    let begun = pending.len();
    let events_before = events.len();
    match read_segments(pending, drops, bytes, expected, events) {
        Ok(read) => Ok(read),
        Err(error) => {
            events.truncate(events_before);
            pending.truncate(begun);
            Err(error)
        }
    }
}

// The key that an incomplete sequence is when no more bytes come, by the bytes after its ESC.
#[tactic(auto, unfolding(crate::specs::InputStream::leading_key))]
fn read_first_key(bytes: &[u8]) -> Option<Input>
    ensures { result ≡ leading_key bytes.now }
{
    match bytes {
        [] => Some(plain_input(Key::Esc)),
        [first] => {
            if *first == b'[' || *first == b'O' || begins_string(*first) {
                Some(alt_input(plain_input(Key::Char(char::from(*first)))))
            } else {
                None
            }
        }
        _ => None,
    }
}

#[tactic(auto, unfolding(crate::specs::InputStream::keys_after_escape))]
fn read_keys_after_escape(bytes: &[u8]) -> Option<(bool, Input)>
    ensures { result ≡ keys_after_escape bytes.now }
{
    match bytes {
        [] => Some((false, plain_input(Key::Esc))),
        [ESCAPE, rest @ ..] => Some((true, read_first_key(rest)?)),
        [_, ..] => Some((false, read_first_key(bytes)?)),
    }
}

// The keys that an incomplete sequence is when no more bytes come: whether Esc is first, and the
// key after it.
#[tactic(auto, unfolding(crate::specs::InputStream::idle_keys))]
fn read_idle_keys(bytes: &[u8]) -> Option<(bool, Input)>
    ensures { result ≡ idle_keys bytes.now }
{
    match bytes {
        [ESCAPE, rest @ ..] => read_keys_after_escape(rest),
        _ => None,
    }
}

// Adds Esc, if it is first, and a key. After an `Err` Esc may have been added.
fn push_keys(is_escape_first: bool, key: Input, events: &mut Vec<Event>) -> Result<(), AllocError>
    ensures events { OnOk result (Adds events.old.items events.new.items
        (values_of_keys is_escape_first key)) }
    ensures front { take (vec_len events.old) events.new.items ≡ events.old.items }
{
    if is_escape_first {
        events.push(Event::Input(plain_input(Key::Esc)))?;
    }
    events.push(Event::Input(key))?;
    Ok(())
}

// Adds the keys that an incomplete sequence is when no more bytes come. An `Err` changes nothing.
#[tactic(auto, using(crate::proofs::InputUnits::nothing_begun), unfolding(crate::specs::InputStream::idle_decoding))]
fn idle_pending(pending: &mut Vec<u8>, events: &mut Vec<Event>) -> Result<(), AllocError>
    requires { unit_at pending.old.items ≡ None }
    ensures pending { OnOk result (pending.new.items ≡ (idle_decoding pending.old.items).1) }
    ensures events { OnOk result (Adds events.old.items events.new.items
        (idle_decoding pending.old.items).0) }
    ensures err { OnErr result ((pending.new.items ≡ pending.old.items)
        × (events.new.items ≡ events.old.items)) }
    ensures begun { unit_at pending.new.items ≡ None }
{
    let Some((is_escape_first, key)) = read_idle_keys(pending.as_slice()) else {
        return Ok(());
    };
    let events_before = events.len();
    match push_keys(is_escape_first, key, events) {
        Ok(()) => {
            pending.clear();
            Ok(())
        }
        Err(error) => {
            events.truncate(events_before);
            Err(error)
        }
    }
}

// The milliseconds of two pauses, at most those of a long one.
fn added_pause(quiet: u32, milliseconds: u32) -> u32
    ensures { result ≡ min pause_limit (quiet + milliseconds) }
{
    let sum = quiet.saturating_add(milliseconds);
    if sum < PAUSE_LIMIT { sum } else { PAUSE_LIMIT }
}

// The milliseconds without bytes, after these.
fn quiet_after(bytes: &[u8], quiet: u32) -> u32
    ensures { result ≡ quiet_after bytes.now quiet }
{
    match bytes {
        [] => quiet,
        [_, ..] => 0,
    }
}

// Adds the keys that incomplete bytes are, or an unknown event, when no more come for long. After an
// `Err` some events may have been added.
fn push_last(bytes: &[u8], events: &mut Vec<Event>) -> Result<(), AllocError>
    ensures events { OnOk result (Adds events.old.items events.new.items
        (keys_or_unknown bytes.now (idle_keys bytes.now))) }
    ensures front { take (vec_len events.old) events.new.items ≡ events.old.items }
{
    match read_idle_keys(bytes) {
        Some((is_escape_first, key)) => push_keys(is_escape_first, key, events),
        None => {
            if bytes.is_empty() {
                return Ok(());
            }
            events.push(Event::Unknown)?;
            Ok(())
        }
    }
}

// Adds the events of pending bytes when no more come for long, and returns whether they are a
// paste, whose rest is to be dropped. After an `Err` some events may have been added.
fn push_given(
    alloc: Global,
    bytes: &[u8],
    expected: Expected,
    events: &mut Vec<Event>,
) -> Result<bool, AllocError>
    ensures drops { IfOk result (λ drops. drops ≡ is_some (after_mark paste_start bytes.now)) }
    ensures events { OnOk result (Adds events.old.items events.new.items
        (given expected bytes.now (after_mark paste_start bytes.now))) }
    ensures front { take (vec_len events.old) events.new.items ≡ events.old.items }
{
    match after_start(bytes) {
        Some(text) => {
            push_paste(alloc, expected, text, events)?;
            Ok(true)
        }
        None => {
            push_last(bytes, events)?;
            Ok(false)
        }
    }
}

// The same, and removes the bytes. An `Err` changes nothing.
fn give_way(
    pending: &mut Vec<u8>,
    expected: Expected,
    events: &mut Vec<Event>,
) -> Result<bool, AllocError>
    ensures drops { IfOk result (λ drops.
        drops ≡ is_some (after_mark paste_start pending.old.items)) }
    ensures pending { OnOk result (pending.new.items ≡ []) }
    ensures events { OnOk result (Adds events.old.items events.new.items
        (given expected pending.old.items (after_mark paste_start pending.old.items))) }
    ensures err { OnErr result ((pending.new.items ≡ pending.old.items)
        × (events.new.items ≡ events.old.items)) }
{
    let alloc = *pending.allocator();
    let events_before = events.len();
    match push_given(alloc, pending.as_slice(), expected, events) {
        Ok(drops) => {
            pending.clear();
            Ok(drops)
        }
        Err(error) => {
            events.truncate(events_before);
            Err(error)
        }
    }
}

// The same, or ends the dropping.
fn settle_pending(
    pending: &mut Vec<u8>,
    drops: bool,
    expected: Expected,
    events: &mut Vec<Event>,
) -> Result<bool, AllocError>
    ensures drops { IfOk result (λ x. x ≡ (settled_by drops expected pending.old.items).0) }
    ensures pending { OnOk result (pending.new.items ≡ []) }
    ensures events { OnOk result (Adds events.old.items events.new.items
        (settled_by drops expected pending.old.items).1) }
    ensures err { OnErr result ((pending.new.items ≡ pending.old.items)
        × (events.new.items ≡ events.old.items)) }
{
    if drops {
        pending.clear();
        Ok(false)
    } else {
        give_way(pending, expected, events)
    }
}

/// Decodes the bytes of a terminal into events, however the bytes are split.
///
/// The bytes of what is incomplete are pending. They are at most 4,097 bytes, except in a string
/// (1,048,576) and in a pasted text, which is stored until its end arrives.
///
/// In a clause it is a [`DecoderState`](../../specs/InputState.antt).
#[derive(Drop)]
pub struct Decoder {
    pending: Vec<u8>,
    // Whether the rest of a paste that gave way is dropped.
    drops: bool,
    expected: Expected,
    // The milliseconds without bytes.
    quiet: u32,
}

impl Model for Decoder {
    ghost use Rattle.std.specs.Prelude.{◌≡◌, ◌≤◌, None, true, false, length};
    ghost use Rattle.textarea_terminal.specs.InputUnit.{unit_at};
    ghost use Rattle.textarea_terminal.specs.InputState.{DecoderState};

    ghost Value = { DecoderState };

    ghost view = { λ decoder. record {
      pending = decoder.pending.items;
      drops = decoder.drops;
      expected = decoder.expected;
      quiet = decoder.quiet;
    } };

    ghost invariant = { λ decoder. (decoder.drops ≡ false → unit_at decoder.pending.items ≡ None)
        × (decoder.drops ≡ true → length decoder.pending.items ≤ 5) };
}

impl Decoder {
    /// Returns a decoder with no pending bytes, of a terminal that is not the Linux console, reports
    /// no sizes by itself, and was asked nothing.
    #[tactic(auto, using(crate::proofs::InputUnits::nothing_begun))]
    pub fn new(alloc: Global) -> Decoder
        ensures { result ≡ new_decoder }
    {
        Decoder {
            pending: Vec::new(alloc),
            drops: false,
            expected: Expected {
                asked: 0,
                resizes: false,
                console: false,
            },
            quiet: 0,
        }
    }

    /// Tells that a query was sent, whose reply is a size (`CSI 18 t`) or the cursor's position
    /// (`CSI ? 6 n`). A reply that is out is no part of a pasted text in which it arrives. It is
    /// given up after 5 seconds without bytes.
    pub fn asked(&mut self)
        ensures { self.new ≡ with_expected self.old (asked self.old.expected) }
    {
        self.expected.asked = self.expected.asked.saturating_add(1);
    }

    /// Sets whether the terminal reports a new size by itself (mode 2048). Such a report is then no
    /// part of a pasted text in which it arrives.
    pub fn set_resizes(&mut self, resizes: bool)
        ensures { self.new ≡ with_expected self.old (resizing resizes self.old.expected) }
    {
        self.expected.resizes = resizes;
    }

    /// Sets whether the terminal is the Linux console, on which ESC and a tab are Tab with Shift.
    pub fn set_console(&mut self, console: bool)
        ensures { self.new ≡ with_expected self.old (on_console console self.old.expected) }
    {
        self.expected.console = console;
    }

    /// Decodes the next bytes of the terminal, and adds the events that are complete. The bytes of
    /// what is incomplete are stored until more bytes arrive.
    ///
    /// Returns an error only if memory runs out, and then changes neither the decoder nor the
    /// events.
    #[tactic(auto, using(crate::proofs::InputStates::reading_begun, crate::proofs::InputStates::reading_few), unfolding(crate::specs::InputState::fed))]
    pub fn feed(&mut self, bytes: &[u8], events: &mut Vec<Event>) -> Result<(), AllocError>
        ensures state { OnOk result (self.new ≡ (fed self.old bytes.now).1) }
        ensures events { OnOk result (Adds events.old.items events.new.items
            (fed self.old bytes.now).0) }
        ensures err { OnErr result ((self.new ≡ self.old) × (events.new.items ≡ events.old.items)) }
    {
        let (drops, expected) = feed_pending(
            &mut self.pending,
            self.drops,
            bytes,
            self.expected,
            events,
        )?;
        self.drops = drops;
        self.expected = expected;
        self.quiet = quiet_after(bytes, self.quiet);
        Ok(())
    }

    /// Tells that no byte came for so many milliseconds, since the last byte or the last call of
    /// `idle`.
    ///
    /// Adds the keys that the pending bytes are when no more bytes arrive for now: a lone ESC is
    /// the key Esc, and `ESC [`, `ESC O` and ESC with the introducer of a string are Alt with that
    /// character. After one more ESC, each of them is Esc and then that key. A longer sequence, a
    /// pasted text and a character stay pending.
    ///
    /// When the pauses without a byte between them are 5 seconds or longer, nothing stays pending.
    /// What came of a paste is pasted; what comes of it later is dropped, up to its end mark or
    /// another such pause. Other pending bytes are an unknown event. Queries without a reply are
    /// given up.
    ///
    /// Returns an error only if memory runs out, and then changes neither the decoder nor the
    /// events.
    #[tactic(auto, unfolding(crate::specs::InputState::paused))]
    pub fn idle(&mut self, milliseconds: u32, events: &mut Vec<Event>) -> Result<(), AllocError>
        ensures state { OnOk result (self.new ≡ (paused self.old milliseconds).1) }
        ensures events { OnOk result (Adds events.old.items events.new.items
            (paused self.old milliseconds).0) }
        ensures err { OnErr result ((self.new ≡ self.old) × (events.new.items ≡ events.old.items)) }
    {
        let quiet = added_pause(self.quiet, milliseconds);
        if quiet == PAUSE_LIMIT {
            return self.settle(events);
        }
        if !self.drops {
            idle_pending(&mut self.pending, events)?;
        }
        self.quiet = quiet;
        Ok(())
    }

    // A long pause.
    #[tactic(auto, using(crate::proofs::InputUnits::nothing_begun))]
    fn settle(&mut self, events: &mut Vec<Event>) -> Result<(), AllocError>
        ensures state { OnOk result (self.new ≡ (long_pause self.old).1) }
        ensures events { OnOk result (Adds events.old.items events.new.items
            (long_pause self.old).0) }
        ensures err { OnErr result ((self.new ≡ self.old) × (events.new.items ≡ events.old.items)) }
    {
        self.drops = settle_pending(&mut self.pending, self.drops, self.expected, events)?;
        self.expected.asked = 0;
        self.quiet = 0;
        Ok(())
    }
}
