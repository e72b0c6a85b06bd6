//! Events of what is in bytes: replies in pasted texts, and keys of the Linux console.

ghost use Rattle.std.specs.Prelude.{◌≡◌, ◌++◌, ◌∷◌, ◌≤◌, ◌<◌, [], None, Some, IfOk, OnOk, true, false, length, take, vec_len, List, ℕ};
ghost use Rattle.std.specs.Str.Lossy.{utf8_lossy};
ghost use Rattle.textarea_terminal.specs.InputReading.{Reads};
ghost use Rattle.textarea_terminal.specs.InputEvent.{value_of, unit_value, paste};
ghost use Rattle.textarea_terminal.specs.InputStream.{Adds, found_value};
ghost use Rattle.textarea_terminal.specs.InputReply.{answered, as_reply, reply_at, stripped, is_alt_tab, console_input, paste_events, one_event, refined, with_stripped, stripped_value};

use crate::input::event::{Event, Unit};
use crate::input::key::modified_input;
use crate::input::unit::{Found, read_key_or_sequence};
use std::alloc::{AllocError, Global};
use textarea_data::input::{Input, Key};

const ESCAPE: u8 = 0x1b;

/// What is expected of a terminal.
#[derive(Clone, Copy, Debug, PartialEq, Eq)]
pub struct Expected {
    /// The number of queries whose replies haven't come.
    pub asked: u32,
    /// Whether it reports a new size by itself (mode 2048).
    pub resizes: bool,
    /// Whether it is the Linux console.
    pub console: bool,
}

// The same, after a reply.
fn answered(expected: Expected) -> Expected
    ensures { result ≡ answered expected }
{
    Expected {
        asked: expected.asked.saturating_sub(1),
        ..expected
    }
}

// The event of a reply, if it is one that is out or a report of a new size, and what is expected
// after it.
#[tactic(auto, unfolding(crate::specs::InputReply::as_reply))]
fn as_reply(expected: Expected, unit: Unit, rest: &[u8]) -> Option<(Event, Expected, &[u8])>
    ensures { Reads (λ x. (value_of x.0, (x.1, x.2.now))) result
        (as_reply expected (Some (unit_value unit, rest.now))) }
{
    match unit {
        Unit::Size { columns, rows } => {
            if expected.asked > 0 {
                Some((Event::Size { columns, rows }, answered(expected), rest))
            } else {
                None
            }
        }
        Unit::Cursor { column, row } => {
            if expected.asked > 0 {
                Some((Event::Cursor { column, row }, answered(expected), rest))
            } else {
                None
            }
        }
        Unit::Resized { columns, rows } => {
            if expected.resizes {
                Some((Event::Size { columns, rows }, expected, rest))
            } else {
                None
            }
        }
        _ => None,
    }
}

// The reply at the front of a pasted text.
#[tactic(auto, unfolding(crate::specs::InputReply::as_reply))]
fn reply_at(expected: Expected, bytes: &[u8]) -> Option<(Event, Expected, &[u8])>
    ensures { Reads (λ x. (value_of x.0, (x.1, x.2.now))) result (reply_at expected bytes.now) }
{
    match bytes {
        [] => None,
        [first, ..] => {
            if *first != ESCAPE {
                return None;
            }
            let (unit, rest) = read_key_or_sequence(bytes, 0)?;
            as_reply(expected, unit, rest)
        }
    }
}

// A pasted text without the replies in it, their events, and what is expected after them.
#[derive(Drop)]
struct PasteParts {
    text: Vec<u8>,
    replies: Vec<Event>,
    expected: Expected,
}

// Removes a reply at the front of bytes, or keeps their first one, and returns the rest.
fn strip_first<'a>(
    parts: &mut PasteParts,
    first: u8,
    after: &'a [u8],
    bytes: &'a [u8],
) -> Result<&'a [u8], AllocError>
    requires { bytes.now ≡ first ∷ after.now }
    ensures step { IfOk result (λ rest.
        with_stripped parts.new (stripped parts.new.expected rest.now)
        ≡ with_stripped parts.old (stripped parts.old.expected bytes.now)) }
    ensures shorter { IfOk result (λ rest. length rest.now < length bytes.now) }
{
    match reply_at(parts.expected, bytes) {
        Some((event, expected, rest)) => {
            parts.replies.push(event)?;
            parts.expected = expected;
            Ok(rest)
        }
        None => {
            parts.text.push(first)?;
            Ok(after)
        }
    }
}

// Removes the replies in a pasted text.
fn strip(alloc: Global, expected: Expected, bytes: &[u8]) -> Result<PasteParts, AllocError>
    ensures { IfOk result (λ parts. stripped_value parts ≡ stripped expected bytes.now) }
{
    let mut parts = PasteParts {
        text: Vec::new(alloc),
        replies: Vec::new(alloc),
        expected,
    };
    let mut rest = bytes;
    while let Some((first, after)) = rest.split_first() {
        rest = strip_first(&mut parts, *first, after, rest)?;
    }
    Ok(parts)
}

// Adds the events of a pasted text with replies.
fn push_parts(
    alloc: Global,
    parts: PasteParts,
    events: &mut Vec<Event>,
) -> Result<Expected, AllocError>
    ensures events { OnOk result (Adds events.old.items events.new.items
        (paste_events (stripped_value parts)).0) }
    ensures expected { IfOk result (λ e. e ≡ parts.expected) }
    ensures front { take (vec_len events.old) events.new.items ≡ events.old.items }
{
    let text = String::from_utf8_lossy(alloc, parts.text.as_slice())?;
    let mut replies = parts.replies;
    replies.push(Event::Paste(text))?;
    events.append(&mut replies)?;
    Ok(parts.expected)
}

// Adds the event of a pasted text without replies.
fn push_text(alloc: Global, bytes: &[u8], events: &mut Vec<Event>) -> Result<(), AllocError>
    ensures events { OnOk result (Adds events.old.items events.new.items
        (paste (utf8_lossy bytes.now) ∷ [])) }
    ensures front { take (vec_len events.old) events.new.items ≡ events.old.items }
{
    let text = String::from_utf8_lossy(alloc, bytes)?;
    events.push(Event::Paste(text))?;
    Ok(())
}

/// Adds the events of a pasted text, and returns what is expected after it. After an `Err` the
/// events are the same, or more.
#[tactic(auto, unfolding(crate::specs::InputReply::refined))]
pub fn push_paste(
    alloc: Global,
    expected: Expected,
    bytes: &[u8],
    events: &mut Vec<Event>,
) -> Result<Expected, AllocError>
    ensures events { OnOk result (Adds events.old.items events.new.items
        (refined expected (paste bytes.now)).0) }
    ensures expected { IfOk result (λ e. e ≡ (refined expected (paste bytes.now)).1) }
    ensures front { take (vec_len events.old) events.new.items ≡ events.old.items }
{
    if expected.asked == 0 && !expected.resizes {
        push_text(alloc, bytes, events)?;
        return Ok(expected);
    }
    let parts = strip(alloc, expected, bytes)?;
    push_parts(alloc, parts, events)
}

fn is_alt_tab(input: &Input) -> bool
    ensures { result ≡ is_alt_tab input.now }
{
    match input.key {
        Key::Tab => input.alt && !input.ctrl && !input.shift,
        _ => false,
    }
}

fn console_input(console: bool, input: Input) -> Input
    ensures { result ≡ console_input console input }
{
    if console && is_alt_tab(&input) {
        modified_input(Key::Tab, 2)
    } else {
        input
    }
}

// The event of a unit, if it has one, and what is expected after it.
#[tactic(auto, unfolding(crate::specs::InputReply::refined))]
fn event_of(expected: Expected, unit: Unit) -> Option<(Event, Expected)>
    ensures { one_event expected result ≡ refined expected (unit_value unit) }
{
    match unit {
        Unit::Input(input) => {
            let input = console_input(expected.console, input);
            Some((Event::Input(input), expected))
        }
        Unit::Mouse(mouse) => Some((Event::Mouse(mouse), expected)),
        Unit::Size { columns, rows } => Some((Event::Size { columns, rows }, answered(expected))),
        Unit::Resized { columns, rows } => Some((Event::Size { columns, rows }, expected)),
        Unit::Cursor { column, row } => Some((Event::Cursor { column, row }, answered(expected))),
        Unit::FocusGained => Some((Event::FocusGained, expected)),
        Unit::FocusLost => Some((Event::FocusLost, expected)),
        Unit::Released => None,
        Unit::Unknown => Some((Event::Unknown, expected)),
    }
}

// Adds the event of a unit, if it has one, and returns what is expected after it.
fn push_unit(
    expected: Expected,
    unit: Unit,
    events: &mut Vec<Event>,
) -> Result<Expected, AllocError>
    ensures events { OnOk result (Adds events.old.items events.new.items
        (refined expected (unit_value unit)).0) }
    ensures expected { IfOk result (λ e. e ≡ (refined expected (unit_value unit)).1) }
    ensures front { take (vec_len events.old) events.new.items ≡ events.old.items }
{
    match event_of(expected, unit) {
        Some((event, next)) => {
            events.push(event)?;
            Ok(next)
        }
        None => Ok(expected),
    }
}

/// Adds the events of what was found, and returns what is expected after it. After an `Err` the
/// events are the same, or more.
pub fn push_found(
    alloc: Global,
    expected: Expected,
    found: Found<'_>,
    events: &mut Vec<Event>,
) -> Result<Expected, AllocError>
    ensures events { OnOk result (Adds events.old.items events.new.items
        (refined expected (found_value found.entry)).0) }
    ensures expected { IfOk result (λ e. e ≡ (refined expected (found_value found.entry)).1) }
    ensures front { take (vec_len events.old) events.new.items ≡ events.old.items }
{
    match found {
        Found::Paste(text) => push_paste(alloc, expected, text, events),
        Found::Unit(unit) => push_unit(expected, unit, events),
    }
}
