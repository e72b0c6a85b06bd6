//! What a program writes to a journal from one pause to the next.

ghost use Rattle.std.specs.Prelude.{◌≡◌, ◌∷◌, ◌++◌, false, true, IfOk, IfSome, List, None, OnErr, OnOk, ℕ};
ghost use Rattle.textarea_disk.specs.Journal.{IsTorn, framed};
ghost use Rattle.textarea_disk.specs.JournalWrites.{AreRecordsOf, AreWrites, IsTextAtPause, IsWriteOf, last_text};
ghost use Rattle.textarea_disk.specs.Recovery.{IsOldOrSavedText, header_of};
ghost use Rattle.textarea_disk.specs.TextChange.{IsReadFor};
ghost use Rattle.textarea_disk.specs.declared.text_change.Recovery.{Recovery};

use crate::content_hash::{NEW_HASH, hash_with};
use crate::journal::record_of;
use crate::journal_step::JournalStep;
use crate::recovery::header;
use crate::text_change::change_between;
use std::alloc::{AllocError, Global};

/// A write of a journal.
#[derive(Drop)]
pub struct JournalWrite {
    /// The steps, in order, up to the first that fails.
    pub steps: &'static [JournalStep],
    /// The bytes that are appended.
    pub bytes: Vec<u8>,
}

/// A journal, by the text that it makes of its file.
#[derive(Drop)]
pub struct Journal {
    text: Vec<u8>,
    is_begun: bool,
}

impl Journal {
    /// Returns the journal of a file with these bytes, which isn't on the disk yet.
    pub fn of_file(bytes: Vec<u8>) -> Journal
        ensures text { result.text.items ≡ bytes.items }
        ensures begun { result.is_begun ≡ false }
    {
        Journal {
            text: bytes,
            is_begun: false,
        }
    }

    /// Returns a journal on the disk whose records make this text of its file.
    pub fn restored(text: Vec<u8>) -> Journal
        ensures text { result.text.items ≡ text.items }
        ensures begun { result.is_begun ≡ true }
    {
        Journal {
            text,
            is_begun: true,
        }
    }

    /// Returns whether the journal is on the disk, once its writes are made.
    pub fn is_begun(&self) -> bool
        ensures { result ≡ self.now.is_begun }
    {
        self.is_begun
    }

    /// Returns the write that brings the journal to this text, or `None` if it has that already. It
    /// relies on the steps of the writes before: after one that failed nothing more may be written.
    ///
    /// If memory runs out, the journal is as before.
    pub fn write(&mut self, text: Vec<u8>) -> Result<Option<JournalWrite>, AllocError>
        ensures some { IfOk result (λ write. IfSome write
            (IsWriteOf self.old.is_begun self.old.text.items text.items)) }
        ensures none { IfOk result (λ write. write ≡ None
            → (self.old.is_begun ≡ true) × (self.old.text.items ≡ text.items)) }
        ensures text { OnOk result (self.new.text.items ≡ text.items) }
        ensures begun { OnOk result (self.new.is_begun ≡ true) }
        ensures err { OnErr result (self.new ≡ self.old) }
    {
        if self.is_begun && text == self.text {
            return Ok(None);
        }
        let alloc = *text.allocator();
        let bytes = self.records(alloc, text.as_slice())?;
        let steps = JournalStep::writing(!self.is_begun);
        self.text = text;
        self.is_begun = true;
        Ok(Some(JournalWrite { steps, bytes }))
    }

    // The bytes of the records that bring the journal to this text.
    fn records(&self, alloc: Global, text: &[u8]) -> Result<Vec<u8>, AllocError>
        ensures { IfOk result (λ bytes.
            AreRecordsOf self.now.is_begun self.now.text.items text.now bytes.items) }
    {
        let old = self.text.as_slice();
        let payload = change_between(alloc, old, text)?;
        let last = record_of(alloc, payload.as_slice())?;
        if self.is_begun {
            return Ok(last);
        }
        let record = last.as_slice();
        with_header(alloc, old, record)
    }
}

// The bytes of the header of a journal of a file with these bytes, and more bytes after it.
fn with_header(alloc: Global, bytes: &[u8], more: &[u8]) -> Result<Vec<u8>, AllocError>
    ensures { IfOk result (λ made. made.items ≡ framed (header_of bytes.now) ++ more.now) }
{
    let header = header(alloc, bytes.len() as u64, hash_with(NEW_HASH, bytes))?;
    let mut made = record_of(alloc, header.as_slice())?;
    made.extend_from_slice(more)?;
    Ok(made)
}

/// What is read back of a journal whose bytes are those of writes, whole, cut off at any byte, or
/// with zeroes after that, makes of its file the text at a pause, and of a whole journal the text
/// at the last one. It doesn't matter whether a crash left the file as it was, or with the text at
/// the last pause by a save.
pub fn journals_give_the_text_at_a_pause()
    ensures at_a_pause { (old next : List ℕ) (texts : List (List ℕ))
        (written left bytes : List ℕ) (found : Recovery)
        → AreWrites false old (next ∷ texts) written → IsTorn written left
        → IsOldOrSavedText old (last_text next texts) bytes → IsReadFor bytes left found
        → IsTextAtPause old (next ∷ texts) found.text.items }
    ensures at_the_last { (old next : List ℕ) (texts : List (List ℕ))
        (written bytes : List ℕ) (found : Recovery)
        → AreWrites false old (next ∷ texts) written
        → IsOldOrSavedText old (last_text next texts) bytes → IsReadFor bytes written found
        → found.text.items ≡ last_text next texts }
{}
