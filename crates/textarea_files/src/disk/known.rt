// What is known of a file on disk, by which it is seen whether the file changed.
ghost use Rattle.std.specs.Prelude.{◌≡◌};
ghost use Rattle.textarea_disk.specs.Journal.{hash_of};
ghost use Rattle.textarea_files.specs.DiskFiles.{is_as_known, is_named, known_after_failure, known_as, question_of, with_hash};

use crate::save_end::SaveEnd;
use textarea_disk::{NEW_HASH, hash_with};

// A state of a file on disk: its node, size and time of the last change.
#[derive(Clone, Copy, Debug, PartialEq, Eq)]
pub(super) struct Stamp {
    pub(super) device: u64,
    pub(super) node: u64,
    pub(super) size: u64,
    pub(super) seconds: i64,
    pub(super) nanoseconds: i64,
}

// A file as it was read or saved last.
#[derive(Clone, Copy, Debug, PartialEq, Eq)]
pub(super) struct Known {
    // The hash of its name.
    pub(super) name: u64,
    pub(super) stamp: Stamp,
    // The hash of its bytes; none for a large file until its text is changed.
    pub(super) content: Option<u64>,
}

pub(super) fn hash_of(text: &str) -> u64
    ensures { result ≡ hash_of text.now }
{
    hash_with(NEW_HASH, text.as_bytes())
}

// Returns whether this is known of the file of this name.
pub(super) fn is_named(known: Option<Known>, name: &str) -> bool
    ensures { result ≡ is_named known name.now }
{
    match known {
        Some(known) => known.name == hash_of(name),
        None => false,
    }
}

// Returns what has to be asked before the file of this name, which exists, is overwritten, if its
// state is this now, and its bytes have this hash, or couldn't be read.
pub(super) fn question_of(
    known: Option<Known>,
    name: &str,
    now: Stamp,
    hash: Option<u64>,
) -> Option<SaveEnd>
    ensures { result ≡ question_of known name.now now hash }
{
    match known {
        Some(known) if known.name == hash_of(name) => {
            if known.is_on_disk(now, hash) {
                None
            } else {
                Some(SaveEnd::ChangedOnDisk)
            }
        }
        _ => Some(SaveEnd::Exists),
    }
}

impl Known {
    pub(super) fn new(name: &str, stamp: Stamp, content: Option<u64>) -> Known
        ensures { result ≡ known_as name.now stamp content }
    {
        Known {
            name: hash_of(name),
            stamp,
            content,
        }
    }

    // Whether the file is as it was, if its state is this now, and its bytes have this hash, or
    // couldn't be read. Where its hash isn't known, its state decides.
    fn is_on_disk(&self, now: Stamp, hash: Option<u64>) -> bool
        ensures { result ≡ is_as_known self.now now hash }
    {
        self.stamp == now && (self.content.is_none() || self.content == hash)
    }

    // Whether the hash of the file's bytes decides, if its state is this now.
    pub(super) fn needs_hash_at(&self, now: Stamp) -> bool {
        self.content.is_some() && self.stamp == now
    }

    // What is known of a file whose hash isn't, with this one of its bytes if its state is as it
    // was. A file with another state, or that can't be read, has the hash of no bytes, so that it
    // counts as changed.
    pub(super) fn with_hash(self, now: Option<Stamp>, hash: Option<u64>) -> Known
        ensures { result ≡ with_hash self now hash }
    {
        let content = match hash {
            Some(hash) if now == Some(self.stamp) => hash,
            _ => NEW_HASH,
        };
        Known {
            content: Some(content),
            ..self
        }
    }

    // What is known after a save failed, if the file's state and the hash of its bytes are these
    // now. The file may have the known bytes, at another time if it was grown and cut again, or
    // those of the text, which has the hash `text`.
    pub(super) fn after_failure(self, now: Option<Stamp>, hash: Option<u64>, text: u64) -> Known
        ensures { result ≡ known_after_failure self now hash text }
    {
        match (now, hash) {
            (Some(now), Some(hash)) if hash == text || self.content == Some(hash) => Known {
                name: self.name,
                stamp: now,
                content: Some(hash),
            },
            _ => self,
        }
    }
}
