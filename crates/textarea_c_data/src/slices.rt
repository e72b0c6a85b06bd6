//! What is read from the slices of callers, and written into them.
ghost use Rattle.std.specs.Prelude.{◌≡◌, ◌+◌, ◌<◌, ◌≤◌, [], ◌∷◌, IfOk, MatchOption, OnErr, length, option_map, chars, encode_utf8_all, string_bytes};
ghost use Rattle.textarea_c_data.specs.Copied.{IsCopiedOut, copied_over, written_at};
ghost use Rattle.textarea_c_data.specs.Lines.{AreCharactersOut};
ghost use Rattle.textarea_c_data.specs.Texts.{items_between, text_between, text_in};

use crate::status::{OK, OUT_OF_MEMORY};
use std::alloc::AllocError;

/// Returns the text, if the bytes are UTF-8.
pub fn text_of(bytes: &[u8]) -> Option<&str>
    ensures { option_map (λ text. text.now) result ≡ text_in bytes.now }
{
    match str::from_utf8(bytes) {
        Ok(text) => Some(text),
        Err(_) => None,
    }
}

/// Returns the text from the byte `start` up to the byte `end`, if these bytes are there and UTF-8.
pub fn text_between(bytes: &[u8], start: usize, end: usize) -> Option<&str>
    ensures { option_map (λ text. text.now) result ≡ text_between bytes.now start end }
{
    match items_between(bytes, start, end) {
        Some(part) => text_of(part),
        None => None,
    }
}

/// Returns the index `count` items after `start`, if a slice of `room` items has these.
pub fn end_of(start: usize, count: usize, room: usize) -> Option<usize>
    ensures { MatchOption result (room < start + count)
        (λ end. (end ≡ start + count) × (end ≤ room)) }
{
    if start <= room && count <= room - start {
        Some(start + count)
    } else {
        None
    }
}

/// Returns the items from the index `start` up to the index `end`, if these are there.
#[tactic(auto, unfolding(crate::specs::Texts::items_between))]
pub fn items_between<T>(items: &[T], start: usize, end: usize) -> Option<&[T]>
    ensures { option_map (λ part. part.now) result ≡ items_between items.now start end }
{
    if start <= end && end <= items.len() {
        Some(&items[start..end])
    } else {
        None
    }
}

/// Copies the first bytes, as many as there is room for, and returns the number of all.
#[tactic(auto, using(crate::proofs::Copied::copied_is))]
pub fn copied(bytes: &[u8], out: &mut [u8]) -> usize
    ensures needed { result ≡ length bytes.now }
    ensures out { out.new ≡ copied_over out.old bytes.now }
{
    let count = bytes.len().min(out.len());
    out[..count].copy_from_slice(&bytes[..count]);
    bytes.len()
}

/// Copies the first bytes of a text, as many as there is room for, and returns the number of all.
pub fn copied_text(text: &str, out: &mut [u8]) -> usize
    ensures needed { result ≡ length (encode_utf8_all (chars text.now)) }
    ensures out { out.new ≡ copied_over out.old (encode_utf8_all (chars text.now)) }
{
    copied(text.as_bytes(), out)
}

/// Copies the first bytes, as many as there is room for, and returns the status ok; `needed` gets the
/// number of all.
pub fn copy_out(bytes: &[u8], out: &mut [u8], needed: &mut usize) -> u32
    ensures ok { result ≡ 0 }
    ensures bytes { IsCopiedOut out.old out.new needed.new bytes.now }
{
    *needed = copied(bytes, out);
    OK
}

/// Copies the first bytes of a text, as many as there is room for, and returns the status: ok, and
/// `needed` gets the number of all, or out of memory if there was none for the text.
pub fn copy_made(made: Result<String, AllocError>, out: &mut [u8], needed: &mut usize) -> u32
    ensures text { IfOk made (λ text. (result ≡ 0)
        × AreCharactersOut (chars (string_bytes text)) out.old out.new needed.new) }
    ensures unmade { OnErr made
        ((result ≡ 2) × (out.new ≡ out.old) × (needed.new ≡ needed.old)) }
{
    match made {
        Ok(text) => {
            *needed = copied_text(text.as_str(), out);
            OK
        }
        Err(_) => OUT_OF_MEMORY,
    }
}

/// Copies the bytes of a text to an index of the slice and those after it, as many as there is room
/// for, and returns the number of all.
pub fn copied_text_at(text: &str, index: usize, out: &mut [u8]) -> usize
    ensures bytes { result ≡ length text.now }
    ensures needed { result ≡ length (encode_utf8_all (chars text.now)) }
    ensures out { out.new ≡ written_at index out.old (encode_utf8_all (chars text.now)) }
{
    copy_at(text.as_bytes(), index, out);
    text.len()
}

/// Copies bytes to an index of the slice and those after it, as many as there is room for.
#[tactic(auto, using(crate::proofs::Copied::written_past))]
pub fn copy_at(bytes: &[u8], index: usize, out: &mut [u8])
    ensures out { out.new ≡ written_at index out.old bytes.now }
    ensures room { length out.old ≤ 18446744073709551615 }
{
    let room = out.len();
    if index < room {
        let _ = copied(bytes, &mut out[index..]);
    }
}

/// Writes an item to an index of the slice, if there is room for it.
#[tactic(auto, using(crate::proofs::Copied::set_is_written, crate::proofs::Copied::written_past))]
pub fn put<T: Copy>(item: T, index: usize, out: &mut [T])
    ensures out { out.new ≡ written_at index out.old (item ∷ []) }
    ensures room { length out.old ≤ 18446744073709551615 }
{
    let room = out.len();
    if index < room {
        out[index] = item;
    }
}
