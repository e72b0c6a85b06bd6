//! Random strings of bytes.

use crate::decode::events_at_once;
use std::alloc::{AllocError, Global};
use textarea_terminal::input::{Decoder, Event};

/// A generator of pseudo-random numbers with a fixed seed.
#[derive(Drop)]
struct Numbers {
    state: u64,
}

impl Numbers {
    // A number below a limit, or 0 if the limit is 0.
    fn below(&mut self, limit: u64) -> u64 {
        self.state = self
            .state
            .wrapping_mul(6_364_136_223_846_793_005)
            .wrapping_add(1_442_695_040_888_963_407);
        (self.state >> 33).checked_rem(limit).unwrap_or(0)
    }
}

// Bytes that begin, continue and end sequences.
const LIKELY: &[u8; 52] =
    b"\x1b\x1b\x1b\x1b\x1b[[[[[OOMP]\\\x07\x9b0012222345678;;;:<?u~~~^$@MmRtIAaZ";

fn push_byte(numbers: &mut Numbers, bytes: &mut Vec<u8>) -> Result<(), AllocError> {
    if numbers.below(16) == 0 {
        bytes.extend_from_slice(b"\x1b[200~")?;
    } else if numbers.below(16) == 0 {
        bytes.extend_from_slice(b"\x1b[201~")?;
    } else if numbers.below(4) == 0 {
        bytes.push(u8::try_from(numbers.below(256)).unwrap_or(0))?;
    } else {
        let index = usize::try_from(numbers.below(52)).unwrap_or(0);
        bytes.push(LIKELY.get(index).copied().unwrap_or(0))?;
    }
    Ok(())
}

// The next string.
fn next_string(numbers: &mut Numbers, bytes: &mut Vec<u8>) -> Result<(), AllocError> {
    bytes.clear();
    for _ in 0..numbers.below(48) {
        push_byte(numbers, bytes)?;
    }
    Ok(())
}

// The events of bytes that are fed in slices of random lengths, of at least one byte and below a
// limit.
fn events_in_segments(
    alloc: Global,
    numbers: &mut Numbers,
    bytes: &[u8],
    limit: u64,
) -> Result<Vec<Event>, AllocError> {
    let mut decoder = Decoder::new(alloc);
    let mut events = Vec::new(alloc);
    let mut rest = bytes;
    for _ in 0..bytes.len() {
        let size = usize::try_from(numbers.below(limit)).unwrap_or(0);
        let (segment, others) = rest.split_at(size.max(1).min(rest.len()));
        decoder.feed(segment, &mut events)?;
        rest = others;
    }
    decoder.idle(100, &mut events)?;
    Ok(events)
}

// Whether slices of random lengths and single bytes give the same events as all bytes at once.
fn is_same_in_segments(
    alloc: Global,
    numbers: &mut Numbers,
    bytes: &[u8],
) -> Result<bool, AllocError> {
    let at_once = events_at_once(alloc, bytes)?;
    let in_segments = events_in_segments(alloc, numbers, bytes, 7)?;
    let by_byte = events_in_segments(alloc, numbers, bytes, 1)?;
    Ok(at_once.as_slice() == in_segments.as_slice() && at_once.as_slice() == by_byte.as_slice())
}

/// Returns the number of the first of `count` random strings whose events depend on how it is
/// split.
pub fn first_differing(alloc: Global, count: u32) -> Result<Option<u32>, AllocError> {
    let mut numbers = Numbers { state: 51 };
    let mut bytes = Vec::new(alloc);
    for number in 0..count {
        next_string(&mut numbers, &mut bytes)?;
        if !is_same_in_segments(alloc, &mut numbers, bytes.as_slice())? {
            return Ok(Some(number));
        }
    }
    Ok(None)
}

// The number of bytes that are decoded in one piece.
const BLOCK: usize = 65_536;

// What a terminal sends, after the bytes ESC and `[`.
const SEQUENCES: &[&[u8]; 16] = &[
    b"A",
    b"1;5C",
    b"3~",
    b"15;2~",
    b"<0;10;20M",
    b"<66;1;1M",
    b"27;2;13~",
    b"97;5u",
    b"97:65;2:3;65u",
    b"8;24;80t",
    b"?24;80R",
    b"48;24;80;480;640t",
    b"M !!",
    b"I",
    b"[A",
    b"62~",
];

// Adds a string, in some introducer, with one of its ends.
fn push_string(numbers: &mut Numbers, bytes: &mut Vec<u8>) -> Result<(), AllocError> {
    let index = usize::try_from(numbers.below(5)).unwrap_or(0);
    bytes.push(0x1b)?;
    bytes.push(b"P]_^X".get(index).copied().unwrap_or(b'P'))?;
    for _ in 0..numbers.below(40) {
        bytes.push(u8::try_from(numbers.below(90).saturating_add(32)).unwrap_or(0))?;
    }
    if numbers.below(2) == 0 {
        bytes.push(7)?;
    } else {
        bytes.extend_from_slice(b"\x1b\\")?;
    }
    Ok(())
}

// Adds a sequence, a string, a pasted text with its marks, or a character.
fn push_sent(numbers: &mut Numbers, bytes: &mut Vec<u8>) -> Result<(), AllocError> {
    match numbers.below(8) {
        0 => push_string(numbers, bytes),
        1 => {
            bytes.extend_from_slice(b"\x1b[200~")?;
            for _ in 0..numbers.below(100) {
                push_byte(numbers, bytes)?;
            }
            bytes.extend_from_slice(b"\x1b[201~")
        }
        2 => bytes.extend_from_slice("é→😀".as_bytes()),
        3 => bytes.extend_from_slice(b"\x1bO5C\x1bOq\x1b\t\r"),
        _ => {
            let index = usize::try_from(numbers.below(16)).unwrap_or(0);
            bytes.extend_from_slice(b"\x1b[")?;
            bytes.extend_from_slice(SEQUENCES.get(index).copied().unwrap_or(b"A"))
        }
    }
}

// The next block: half of what terminals send, half of random bytes. It has the end marks of pasted
// texts often, so that none is long.
fn next_block(numbers: &mut Numbers, bytes: &mut Vec<u8>) -> Result<(), AllocError> {
    bytes.clear();
    for _ in 0..BLOCK {
        if bytes.len() >= BLOCK {
            return Ok(());
        }
        if numbers.below(8) == 0 {
            push_sent(numbers, bytes)?;
        } else {
            push_byte(numbers, bytes)?;
        }
    }
    Ok(())
}

// Feeds bytes in slices of random lengths.
fn feed_in_segments(
    numbers: &mut Numbers,
    decoder: &mut Decoder,
    bytes: &[u8],
    events: &mut Vec<Event>,
) -> Result<(), AllocError> {
    let mut rest = bytes;
    for _ in 0..bytes.len() {
        let size = usize::try_from(numbers.below(300)).unwrap_or(0);
        let (segment, others) = rest.split_at(size.min(rest.len()));
        decoder.feed(segment, events)?;
        rest = others;
    }
    decoder.feed(rest, events)
}

/// Decodes blocks of bytes in one piece each, and in slices of random lengths, with a query now and
/// then. Returns the number of the first block whose events differ.
pub fn first_differing_block(
    alloc: Global,
    seed: u64,
    count: u32,
) -> Result<Option<u32>, AllocError> {
    let mut numbers = Numbers { state: seed };
    let mut bytes = Vec::new(alloc);
    let mut whole = Decoder::new(alloc);
    let mut in_segments = Decoder::new(alloc);
    let mut whole_events = Vec::new(alloc);
    let mut events = Vec::new(alloc);
    for number in 0..count {
        next_block(&mut numbers, &mut bytes)?;
        if numbers.below(4) == 0 {
            whole.asked();
            in_segments.asked();
        }
        whole_events.clear();
        events.clear();
        whole.feed(bytes.as_slice(), &mut whole_events)?;
        feed_in_segments(
            &mut numbers,
            &mut in_segments,
            bytes.as_slice(),
            &mut events,
        )?;
        if whole_events.as_slice() != events.as_slice() {
            return Ok(Some(number));
        }
    }
    Ok(None)
}
