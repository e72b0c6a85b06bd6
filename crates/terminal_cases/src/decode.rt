//! Bytes, and their events.

use std::alloc::{AllocError, Global};
use textarea_terminal::input::{Decoder, Event};

fn digit(byte: u8) -> Option<u8> {
    match byte {
        b'0'..=b'9' => Some(byte - b'0'),
        b'a'..=b'f' => Some(byte - b'a' + 10),
        _ => None,
    }
}

fn byte_of(high: u8, low: u8) -> Option<u8> {
    digit(high)?.checked_mul(16)?.checked_add(digit(low)?)
}

/// The bytes of a text of hexadecimal digits, two for each byte; `None` for any other text.
fn bytes_of_hex(alloc: Global, text: &str) -> Result<Option<Vec<u8>>, AllocError> {
    let mut bytes = Vec::new(alloc);
    for pair in text.as_bytes().chunks(2) {
        let [high, low] = pair else {
            return Ok(None);
        };
        match byte_of(*high, *low) {
            Some(byte) => bytes.push(byte)?,
            None => return Ok(None),
        }
    }
    Ok(Some(bytes))
}

// The milliseconds of a short and of a long pause.
const SHORT_PAUSE: u32 = 100;

const LONG_PAUSE: u32 = 5000;

/// Returns the events of all bytes at once, with a call of `idle` at the end.
pub fn events_at_once(alloc: Global, bytes: &[u8]) -> Result<Vec<Event>, AllocError> {
    let mut decoder = Decoder::new(alloc);
    let mut events = Vec::new(alloc);
    decoder.feed(bytes, &mut events)?;
    decoder.idle(SHORT_PAUSE, &mut events)?;
    Ok(events)
}

/// Returns the events of slices of bytes that are fed one by one, and of what is told between them,
/// with a call of `idle` at the end; `None` if the text is unparsed. A call that runs out of memory
/// is repeated once, and counted.
pub fn events_in_order(
    alloc: Global,
    text: &str,
    out_of_memory_count: &mut usize,
) -> Result<Option<Vec<Event>>, AllocError> {
    let mut decoder = Decoder::new(alloc);
    let mut events = Vec::new(alloc);
    for word in text.split(' ') {
        if !serve_word(alloc, &mut decoder, word, &mut events, out_of_memory_count)? {
            return Ok(None);
        }
    }
    idle(&mut decoder, SHORT_PAUSE, &mut events, out_of_memory_count)?;
    Ok(Some(events))
}

// Tells the decoder what a word says, or feeds it the bytes that it is. Returns `false` if it is
// neither.
fn serve_word(
    alloc: Global,
    decoder: &mut Decoder,
    word: &str,
    events: &mut Vec<Event>,
    out_of_memory_count: &mut usize,
) -> Result<bool, AllocError> {
    match word {
        "asked" => decoder.asked(),
        "resizes" => decoder.set_resizes(true),
        "console" => decoder.set_console(true),
        "idle" => idle(decoder, SHORT_PAUSE, events, out_of_memory_count)?,
        "pause" => idle(decoder, LONG_PAUSE, events, out_of_memory_count)?,
        _ => match bytes_of_hex(alloc, word)? {
            Some(bytes) => feed(decoder, bytes.as_slice(), events, out_of_memory_count)?,
            None => return Ok(false),
        },
    }
    Ok(true)
}

fn feed(
    decoder: &mut Decoder,
    bytes: &[u8],
    events: &mut Vec<Event>,
    out_of_memory_count: &mut usize,
) -> Result<(), AllocError> {
    if decoder.feed(bytes, events).is_err() {
        *out_of_memory_count = out_of_memory_count.saturating_add(1);
        decoder.feed(bytes, events)?;
    }
    Ok(())
}

fn idle(
    decoder: &mut Decoder,
    milliseconds: u32,
    events: &mut Vec<Event>,
    out_of_memory_count: &mut usize,
) -> Result<(), AllocError> {
    if decoder.idle(milliseconds, events).is_err() {
        *out_of_memory_count = out_of_memory_count.saturating_add(1);
        decoder.idle(milliseconds, events)?;
    }
    Ok(())
}
