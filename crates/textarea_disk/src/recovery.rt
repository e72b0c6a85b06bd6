//! Which journal is that of a file, and what the two are together.

ghost use Rattle.std.specs.Prelude.{◌≡◌, ◌∷◌, List, ℕ, IfOk};
ghost use Rattle.std.specs.List.{AllByRecursion};
ghost use Rattle.textarea_disk.specs.Journal.{AreRead, IsSized, IsTorn, journal_of};
ghost use Rattle.textarea_disk.specs.Recovery.{IsAtPause, IsOldOrSaved, IsRecovered, header_bytes, header_of, text_after};

use std::alloc::{AllocError, Global};

/// Returns the payload of the first record of a journal, by which its file is known: the file's
/// size in bytes, and their hash.
pub fn header(alloc: Global, size: u64, hash: u64) -> Result<Vec<u8>, AllocError>
    ensures { IfOk result (λ header. header.items ≡ header_bytes size hash) }
{
    let mut header = size.to_le_bytes().to_vec(alloc)?;
    header.extend_from_slice(&hash.to_le_bytes())?;
    Ok(header)
}

/// What is read back of a journal that is whole, cut off at any byte, or has zeroes after that, is
/// with its file the text at a pause, and the one at the last pause if the journal is whole. It
/// doesn't matter whether a crash left the file as it was, or with all changes by a save.
pub fn recovered_text_is_at_a_pause()
    ensures at_a_pause { (change : List ℕ → List ℕ → List ℕ) (old : List ℕ)
        (written payloads : List (List ℕ)) (left bytes text : List ℕ)
        → AllByRecursion IsSized written → IsTorn (journal_of (header_of old ∷ written)) left
        → AreRead payloads left → IsOldOrSaved change old written bytes
        → IsRecovered change bytes payloads text → IsAtPause change old written text }
    ensures at_the_last { (change : List ℕ → List ℕ → List ℕ) (old : List ℕ)
        (written payloads : List (List ℕ)) (bytes text : List ℕ)
        → AllByRecursion IsSized written
        → AreRead payloads (journal_of (header_of old ∷ written))
        → IsOldOrSaved change old written bytes → IsRecovered change bytes payloads text
        → text ≡ text_after change old written }
{}
