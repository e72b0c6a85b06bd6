//! Records in the bytes of a journal. A program appends them to a file, which a crash may cut off.

ghost use Rattle.std.specs.Prelude.{◌≡◌, ◌≤◌, ◌++◌, List, ℕ, length, take, map, MatchOption, IfOk};
ghost use Rattle.std.specs.Int.{w64, to_le_bytes};
ghost use Rattle.std.specs.List.{AllByRecursion};
ghost use Rattle.textarea_disk.specs.Journal.{BeginsWithRecord, HasNoRecord, AreRead, IsSized, IsTorn, framed, journal_of};

use crate::content_hash::{NEW_HASH, hash_with};
use std::alloc::{AllocError, Global};

// The bytes of a record beside its payload.
const FRAME: usize = 17;

/// Returns the bytes of a record with this payload, to be appended to a journal. The payload may be
/// any bytes.
pub fn record_of(alloc: Global, payload: &[u8]) -> Result<Vec<u8>, AllocError>
    ensures { IfOk result (λ made. made.items ≡ framed payload.now) }
{
    let length = payload.len() as u64;
    let hash = hash_with(NEW_HASH, payload);
    let mut record = length.to_le_bytes().to_vec(alloc)?;
    record.extend_from_slice(&hash.to_le_bytes())?;
    record.extend_from_slice(payload)?;
    record.push(1)?;
    Ok(record)
}

/// Returns the payloads of the records with which a journal begins, in order, up to the first that
/// is cut off or damaged.
pub fn records_in(alloc: Global, journal: &[u8]) -> Result<Vec<&[u8]>, AllocError>
    ensures { IfOk result (λ payloads.
        AreRead (map (λ payload. payload.now) payloads.items) journal.now) }
{
    let mut payloads = Vec::new(alloc);
    let mut rest = journal;
    while let Some((payload, after)) = first_record(rest) {
        payloads.push(payload)?;
        rest = after;
    }
    Ok(payloads)
}

// The payload of the record with which bytes begin, and what comes after it.
fn first_record(bytes: &[u8]) -> Option<(&[u8], &[u8])>
    ensures { MatchOption result (HasNoRecord bytes.now)
        (λ first. BeginsWithRecord first.0.now first.1.now bytes.now) }
{
    if bytes.len() < FRAME {
        return None;
    }
    let length = number_in(bytes);
    let hash = number_in(&bytes[8..]);
    let body = &bytes[16..];
    if length >= body.len() as u64 {
        return None;
    }
    let end = length as usize;
    let payload = &body[..end];
    if body[end] != 1 || hash_with(NEW_HASH, payload) != hash {
        return None;
    }
    Some((payload, &body[end + 1..]))
}

// The number in the first eight bytes.
pub(crate) fn number_in(bytes: &[u8]) -> u64
    requires { 8 ≤ length bytes.now }
    ensures { to_le_bytes w64 result ≡ take 8 bytes.now }
{
    u64::from_le_bytes([
        bytes[0], bytes[1], bytes[2], bytes[3], bytes[4], bytes[5], bytes[6], bytes[7],
    ])
}

/// What is read back from a journal after a crash: the records that were on the disk, and of those
/// that were written after the last sync the first few; all of them where nothing was cut off.
/// Nothing is assumed of the hash, by which only other damage is found.
pub fn journals_are_read_back()
    ensures torn { (stored written payloads : List (List ℕ)) (left : List ℕ)
        → AllByRecursion IsSized stored → AllByRecursion IsSized written
        → IsTorn (journal_of written) left → AreRead payloads (journal_of stored ++ left)
        → (count : ℕ) × (payloads ≡ stored ++ take count written) }
    ensures whole { (stored payloads : List (List ℕ)) → AllByRecursion IsSized stored
        → AreRead payloads (journal_of stored) → payloads ≡ stored }
{}
