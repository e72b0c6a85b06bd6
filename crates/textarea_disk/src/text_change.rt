//! Changes of a text as the payloads of records, and what a journal makes of a file.

ghost use Rattle.std.specs.Prelude.{◌≡◌, ◌≤◌, ◌+◌, ◌-◌, ◌^◌, IfOk, drop, if◌then◌else◌, length, map, min, take};
ghost use Rattle.std.specs.Str.{bytes_eq};
ghost use Rattle.std.specs.Int.{from_le_bytes, w64};
ghost use Rattle.textarea_disk.specs.Journal.{journal_of};
ghost use Rattle.textarea_disk.specs.Recovery.{header_of, text_after};
ghost use Rattle.textarea_disk.specs.TextChange.{IsReadFor, change_bytes, is_of, put_between, text_with, with_change};

use crate::content_hash::{NEW_HASH, hash_with};
use crate::journal::{number_in, records_in};
use crate::recovery::header;
use std::alloc::{AllocError, Global};

// The bytes of a record beside its payload.
const FRAME: u64 = 17;

/// Returns the payload of a record that changes one text to another, by what is between the bytes
/// with which both begin and those with which both end.
pub fn change_between(alloc: Global, old: &[u8], new: &[u8]) -> Result<Vec<u8>, AllocError>
    ensures { IfOk result (λ made. with_change old.now made.items ≡ new.now) }
{
    let first = common_start(old, new);
    let last = common_end(old, new, first);
    let end = new.len() - last;
    payload_of(alloc, first, last, &new[first..end])
}

// The payload that puts bytes between the first and the last ones of a text.
fn payload_of(
    alloc: Global,
    first: usize,
    last: usize,
    middle: &[u8],
) -> Result<Vec<u8>, AllocError>
    ensures { IfOk result (λ made. made.items ≡ change_bytes first last middle.now) }
{
    let mut payload = (first as u64).to_le_bytes().to_vec(alloc)?;
    payload.extend_from_slice(&(last as u64).to_le_bytes())?;
    payload.extend_from_slice(middle)?;
    Ok(payload)
}

// The number of bytes with which both begin.
#[tactic(auto, using(crate::proofs::TextChanges::one_more_first))]
fn common_start(old: &[u8], new: &[u8]) -> usize
    ensures within_old { result ≤ length old.now }
    ensures within_new { result ≤ length new.now }
    ensures same { take result old.now ≡ take result new.now }
{
    let most = old.len().min(new.len());
    let mut count = 0;
    'same: while count < most && old[count] == new[count] {
        count += 1;
    }
    count
}

// The number of bytes with which both end, after the first ones.
#[tactic(auto, using(crate::proofs::TextChanges::no_last, crate::proofs::TextChanges::one_more_last))]
fn common_end(old: &[u8], new: &[u8], first: usize) -> usize
    ensures within_old { result ≤ length old.now - first }
    ensures within_new { result ≤ length new.now - first }
    ensures same { drop (length old.now - result) old.now
        ≡ drop (length new.now - result) new.now }
{
    let most = old.len().min(new.len()).saturating_sub(first);
    let mut count = 0;
    'same: while count < most && old[old.len() - count - 1] == new[new.len() - count - 1] {
        count += 1;
    }
    count
}

/// Returns a text after the change of a payload. One of less than 16 bytes changes nothing.
pub fn with_change(alloc: Global, text: &[u8], payload: &[u8]) -> Result<Vec<u8>, AllocError>
    ensures { IfOk result (λ made. made.items ≡ with_change text.now payload.now) }
{
    if payload.len() < 16 {
        return text.to_vec(alloc);
    }
    let first = count_in(payload, text.len());
    let last = count_in(&payload[8..], text.len());
    put_between(alloc, first, last, &payload[16..], text)
}

// The first and the last bytes of a text, and others between them.
fn put_between(
    alloc: Global,
    first: usize,
    last: usize,
    middle: &[u8],
    text: &[u8],
) -> Result<Vec<u8>, AllocError>
    requires first { first ≤ length text.now }
    requires last { last ≤ length text.now }
    ensures { IfOk result (λ made. made.items ≡ put_between first last middle.now text.now) }
{
    let mut made = text[..first].to_vec(alloc)?;
    made.extend_from_slice(middle)?;
    made.extend_from_slice(&text[text.len() - last..])?;
    Ok(made)
}

// The number in the first eight bytes, but at most this one.
fn count_in(bytes: &[u8], most: usize) -> usize
    requires { 8 ≤ length bytes.now }
    ensures { result ≡ min (from_le_bytes w64 (take 8 bytes.now)) most }
{
    number_in(bytes).min(most as u64) as usize
}

/// What a journal makes of a file.
#[derive(Drop)]
pub struct Recovery {
    /// The text of the file, with the journal's changes if it is that of the file.
    pub text: Vec<u8>,
    /// Whether the file is the one that the journal was begun for, by its size and hash.
    pub is_of_file: bool,
    /// The number of the journal's bytes that could be read. Records are to be added after these.
    pub size: u64,
}

/// Returns what a journal makes of a file's bytes: the bytes as they are if the journal is that of
/// another file, or no record can be read.
pub fn recovered(alloc: Global, bytes: &[u8], journal: &[u8]) -> Result<Recovery, AllocError>
    ensures { IfOk result (IsReadFor bytes.now journal.now) }
{
    let payloads = records_in(alloc, journal)?;
    recovery_of(alloc, bytes, payloads.as_slice())
}

// The number of bytes of the records with these payloads.
#[tactic(auto, using(crate::proofs::TextChanges::size_goes_on))]
fn size_of_records(payloads: &[&[u8]]) -> u64
    ensures { result ≡ min (length (journal_of (map (λ payload. payload.now) payloads.now))) (2 ^ 64 - 1) }
{
    let mut size: u64 = 0;
    for payload in payloads {
        size = size_with(size, payload);
    }
    size
}

// A size and that of the record with this payload.
fn size_with(size: u64, payload: &[u8]) -> u64
    ensures { result ≡ min (size + (17 + length payload.now)) (2 ^ 64 - 1) }
{
    size.saturating_add(payload.len() as u64)
        .saturating_add(FRAME)
}

fn recovery_of(alloc: Global, bytes: &[u8], payloads: &[&[u8]]) -> Result<Recovery, AllocError>
    ensures text { IfOk result (λ found. found.text.items
        ≡ text_with bytes.now (map (λ payload. payload.now) payloads.now)) }
    ensures file { IfOk result (λ found. found.is_of_file
        ≡ is_of bytes.now (map (λ payload. payload.now) payloads.now)) }
    ensures size { IfOk result (λ found. found.size
        ≡ min (length (journal_of (map (λ payload. payload.now) payloads.now))) (2 ^ 64 - 1)) }
{
    let size = size_of_records(payloads);
    match payloads.split_first() {
        Some((first, changes)) => {
            let is_of_file = is_header_of(alloc, first, bytes)?;
            Ok(Recovery {
                size,
                is_of_file,
                text: text_of(alloc, is_of_file, bytes, changes)?,
            })
        }
        None => Ok(Recovery {
            size,
            is_of_file: false,
            text: bytes.to_vec(alloc)?,
        }),
    }
}

// Whether a payload is the header of a journal of a file with these bytes.
fn is_header_of(alloc: Global, payload: &[u8], bytes: &[u8]) -> Result<bool, AllocError>
    ensures { IfOk result (λ is. is ≡ bytes_eq payload.now (header_of bytes.now)) }
{
    let wanted = header(alloc, bytes.len() as u64, hash_with(NEW_HASH, bytes))?;
    Ok(payload == wanted.as_slice())
}

// The text of a file, after the changes of payloads if they are of this file.
fn text_of(
    alloc: Global,
    is_of_file: bool,
    bytes: &[u8],
    changes: &[&[u8]],
) -> Result<Vec<u8>, AllocError>
    ensures { IfOk result (λ text. text.items ≡ (if is_of_file
        then text_after with_change bytes.now (map (λ payload. payload.now) changes.now)
        else bytes.now)) }
{
    if is_of_file {
        after_changes(alloc, bytes, changes)
    } else {
        bytes.to_vec(alloc)
    }
}

// The text after the changes of payloads.
fn after_changes(alloc: Global, bytes: &[u8], changes: &[&[u8]]) -> Result<Vec<u8>, AllocError>
    ensures { IfOk result (λ text. text.items
        ≡ text_after with_change bytes.now (map (λ payload. payload.now) changes.now)) }
{
    let mut text = bytes.to_vec(alloc)?;
    for payload in changes {
        text = with_change(alloc, text.as_slice(), payload)?;
    }
    Ok(text)
}
