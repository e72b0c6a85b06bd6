//! Files: read whole, and saved by a list of steps that never leaves a part of a text alone.
ghost use Rattle.std.specs.Prelude.{◌≡◌, IfOk};
ghost use Rattle.textarea_files.specs.DiskFiles.{HasHashOfRest, IsAfterFailure, IsHashAfterPiece, IsHashMade, IsQuestion, IsRead, IsSaveOf, content_at_opening, saved_end};
ghost use Rattle.std.specs.IoError.{error_kind};
ghost use Rattle.textarea_files.specs.SavingSteps.{trouble_of};

mod carrying_out;
pub mod journal_file;
mod known;
mod made_steps;
mod names;
mod new_file;

use crate::save_end::SaveEnd;
use crate::trouble::Trouble;
use crate::viewed::viewed;
use carrying_out::{Done, Failure, Way, carry_out};
use known::{Known, Stamp, hash_of, is_named, question_of};
use std::fs::{File, Metadata, OpenOptions};
use std::io::{ErrorKind, Read};
use std::os::unix::fs::MetadataExt;
use std::rt::{Env, Files};
use std::{fs, io};
use textarea_disk::{NEW_HASH, hash_with};

/// A file on disk, by what is known of it.
#[derive(Clone, Copy, Debug, Default, PartialEq, Eq)]
pub struct DiskFile {
    // None if the file didn't exist, or nothing was read or saved.
    known: Option<Known>,
}

// The size of a text from which on opening it makes no hash.
const LARGE: usize = 16 << 20;

fn trouble_of(error: &io::Error) -> Trouble
    ensures { result ≡ trouble_of (error_kind error.now) }
{
    trouble_of_kind(error.kind())
}

fn trouble_of_kind(kind: ErrorKind) -> Trouble
    ensures { result ≡ trouble_of kind }
{
    match kind {
        ErrorKind::NotFound | ErrorKind::NotADirectory => Trouble::NoFolder,
        ErrorKind::PermissionDenied => Trouble::Rights,
        ErrorKind::IsADirectory => Trouble::Folder,
        ErrorKind::StorageFull | ErrorKind::QuotaExceeded | ErrorKind::FileTooLarge => {
            Trouble::DiskFull
        }
        ErrorKind::ReadOnlyFilesystem => Trouble::ReadOnly,
        ErrorKind::OutOfMemory => Trouble::Memory,
        ErrorKind::InvalidData => Trouble::NotText,
        _ => Trouble::Other,
    }
}

fn stamp_of(metadata: &Metadata) -> Stamp {
    Stamp {
        device: metadata.dev(),
        node: metadata.ino(),
        size: metadata.len(),
        seconds: metadata.mtime(),
        nanoseconds: metadata.mtime_nsec(),
    }
}

// The state of the file on disk, or none if it doesn't exist. It has to be a regular file.
fn state_of<R: Files>(rt: &R, name: &str) -> Result<Option<Metadata>, Trouble> {
    match fs::metadata(rt, name) {
        Ok(metadata) if metadata.is_file() => Ok(Some(metadata)),
        Ok(metadata) if metadata.is_dir() => Err(Trouble::Folder),
        Ok(_) => Err(Trouble::NotFile),
        Err(error) if error.kind() == ErrorKind::NotFound => Ok(None),
        Err(error) => Err(trouble_of(&error)),
    }
}

// Reads a text file whose size is about this, into memory that is requested once.
fn read_text<R: Files + AllocGlobal>(rt: &R, name: &str, size: u64) -> io::Result<String> {
    // The read that finds the end of the file has room for a byte.
    let room = usize::try_from(size)
        .unwrap_or(usize::MAX)
        .saturating_add(1);
    let mut text = String::with_capacity(rt.alloc(), room)?;
    let mut file = File::open(rt, name)?;
    file.read_to_string(&mut text)?;
    Ok(text)
}

// The hash of a file's bytes.
fn hash_on_disk<R: Files>(rt: &R, name: &str) -> io::Result<u64> {
    let mut file = File::open(rt, name)?;
    hash_of_rest(&mut file)
}

// The hash of the bytes that are left, which are read in pieces.
fn hash_of_rest<F: Read>(file: &mut F) -> io::Result<u64>
    ensures { IfOk result (HasHashOfRest (F.remaining file.old) (F.remaining file.new)) }
{
    let mut hash = NEW_HASH;
    'reading: for _ in 0..u64::MAX {
        let next = hash_after_piece(file, hash)?;
        match next {
            Some(next) => hash = next,
            None => return Ok(hash),
        }
    }
    Err(io::Error::from(ErrorKind::FileTooLarge))
}

// Reads a piece of the bytes that are left, and returns the hash after it, or none at their end.
fn hash_after_piece<F: Read>(file: &mut F, hash: u64) -> io::Result<Option<u64>>
    ensures { IfOk result (IsHashAfterPiece (F.remaining file.old) (F.remaining file.new) hash) }
{
    let mut bytes = [0u8; 16384];
    let count = file.read(&mut bytes)?;
    if count == 0 {
        return Ok(None);
    }
    Ok(Some(hash_with(hash, &bytes[..count])))
}

// The state of the file of this name, if it can be had.
fn stamp_on_disk<R: Files>(rt: &R, name: &str) -> Option<Stamp> {
    fs::metadata(rt, name)
        .ok()
        .map(|metadata| stamp_of(&metadata))
}

// The hash of a text that was read, if one is made at its opening: of a text that isn't large, as
// its bytes are at hand.
fn content_at_opening(text: &str) -> Option<u64>
    ensures { result ≡ content_at_opening text.now }
{
    if text.len() < LARGE {
        Some(hash_of(text))
    } else {
        None
    }
}

// How a save ended whose steps were made.
fn saved_end(is_synced: bool, was_deleted: bool) -> SaveEnd
    ensures { result ≡ saved_end is_synced was_deleted }
{
    match (is_synced, was_deleted) {
        (false, _) => SaveEnd::Unsynced,
        (true, true) => SaveEnd::SavedAnew,
        (true, false) => SaveEnd::Saved,
    }
}

impl DiskFile {
    /// Reads the file of this name whole. A file that doesn't exist has no text. Where no text is
    /// returned, what is known stays as it is; of a new `DiskFile` that is nothing, so that `save`
    /// asks before it overwrites a file.
    pub fn read<R: Files + AllocGlobal>(
        &mut self,
        rt: &R,
        name: &str,
    ) -> Result<Option<String>, Trouble>
        ensures { IsRead self.old name.now result self.new }
    {
        let Some(metadata) = state_of(rt, name)? else {
            return Ok(None);
        };
        match read_text(rt, name, metadata.len()) {
            Ok(text) => {
                let content = content_at_opening(text.as_str());
                self.known = Some(Known::new(name, stamp_of(&metadata), content));
                Ok(Some(text))
            }
            Err(error) => Err(trouble_of(&error)),
        }
    }

    /// Makes the hash of the bytes of the file of this name, if that is known without one. It is for
    /// the first change of a large text, of which `read` makes none.
    pub fn make_hash<R: Files>(&mut self, rt: &R, name: &str)
        ensures { IsHashMade self.old name.now self.new }
    {
        if let Some(known) = self.known {
            if known.content.is_none() && known.name == hash_of(name) {
                let hash = hash_on_disk(rt, name).ok();
                self.known = Some(known.with_hash(stamp_on_disk(rt, name), hash));
            }
        }
    }

    /// Returns a text that shows the bytes of the file of this name, as [`viewed`] gives it.
    pub fn viewed<R: Files + AllocGlobal>(&self, rt: &R, name: &str) -> Result<String, Trouble> {
        match self.bytes(rt, name) {
            Ok(bytes) => viewed(rt.alloc(), bytes.as_slice()).map_err(|_| Trouble::Memory),
            Err(error) => Err(trouble_of(&error)),
        }
    }

    /// Returns the bytes of the file of this name as they are on the disk now; none if there is no
    /// file.
    pub fn bytes<R: Files + AllocGlobal>(&self, rt: &R, name: &str) -> io::Result<Vec<u8>> {
        let mut bytes = Vec::new(rt.alloc());
        match File::open(rt, name) {
            Ok(mut file) => {
                file.read_to_end(&mut bytes)?;
                Ok(bytes)
            }
            Err(error) if error.kind() == ErrorKind::NotFound => Ok(bytes),
            Err(error) => Err(error),
        }
    }

    /// Returns why the file of this name can't be written, if there is one and it can't be opened for
    /// that, as a save does first. It stays as it is.
    pub fn refusal<R: Files>(&self, rt: &R, name: &str) -> Option<Trouble> {
        match OpenOptions::new().write(true).open(rt, name) {
            Ok(_) => None,
            Err(error) if error.kind() == ErrorKind::NotFound => None,
            Err(error) => Some(trouble_of(&error)),
        }
    }

    /// Saves a text as the file of this name, over links to it. A file that exists has to be as it
    /// was read or saved last, unless it is overwritten.
    ///
    /// The steps are those of [`SavePlan`](textarea_disk::SavePlan): a new file beside the old one,
    /// with its mode bits, takes its name; or the text is written over the old file where renaming
    /// would lose its other names, its owner or its group, or can't be done. After an error the
    /// file is the whole old one, and there is no new one; but if it fails in the middle of
    /// writing over the file, the whole text is in the copy.
    pub fn save<R: Files + Env + AllocGlobal>(
        &mut self,
        rt: &R,
        name: &str,
        text: &str,
        overwrites: bool,
    ) -> SaveEnd
        ensures { IsSaveOf self.old name.now text.now overwrites result self.new }
    {
        let old = match state_of(rt, name) {
            Ok(old) => old,
            Err(trouble) => return SaveEnd::Failed(trouble),
        };
        if let (Some(now), false) = (&old, overwrites) {
            if let Some(question) = self.question(rt, name, stamp_of(now)) {
                return question;
            }
        }
        let was_deleted = old.is_none() && is_named(self.known, name);
        match save_steps(rt, name, text, &old) {
            Ok(done) => {
                let content = Some(hash_of(text));
                self.known = Some(Known::new(name, done.stamp, content));
                saved_end(done.is_synced, was_deleted)
            }
            Err(trouble) => {
                self.look_after_failure(rt, name, text);
                SaveEnd::Failed(trouble)
            }
        }
    }

    // What has to be asked before the file of this name, which exists in this state, is overwritten.
    fn question<R: Files>(&self, rt: &R, name: &str, now: Stamp) -> Option<SaveEnd>
        ensures { IsQuestion self.now name.now now result }
    {
        let hash = match self.known {
            Some(known) if known.needs_hash_at(now) => hash_on_disk(rt, name).ok(),
            _ => None,
        };
        question_of(self.known, name, now, hash)
    }

    // Finds out what is known of the file of this name after a save of this text failed.
    fn look_after_failure<R: Files>(&mut self, rt: &R, name: &str, text: &str)
        ensures { IsAfterFailure self.old name.now text.now self.new }
    {
        if let Some(known) = self.known {
            if known.name == hash_of(name) {
                let hash = hash_on_disk(rt, name).ok();
                let now = stamp_on_disk(rt, name);
                self.known = Some(known.after_failure(now, hash, hash_of(text)));
            }
        }
    }
}

// Saves a text by the steps of a plan, and returns what they did. Where a way to
// save it can't be gone, the next one is tried.
fn save_steps<R: Files + Env + AllocGlobal>(
    rt: &R,
    name: &str,
    text: &str,
    old: &Option<Metadata>,
) -> Result<Done, Trouble> {
    let target = match names::target_of(rt, name) {
        Ok(target) => target,
        Err(error) => return Err(trouble_of(&error)),
    };
    let mut way = Way::AsKept;
    for _ in 0..3 {
        match carry_out(rt, target.as_str(), text, old, way) {
            Ok(done) => return Ok(done),
            Err(
                Failure {
                    next: Some(next),
                    ..
                },
            ) => way = next,
            Err(failure) => return Err(failure.trouble),
        }
    }
    Err(Trouble::Other)
}
