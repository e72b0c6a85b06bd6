//! The journal of a file on disk: beside the file, or in the user's folder for state where that
//! can't be.

ghost use Rattle.std.specs.Prelude.{◌≡◌, Bool, IfOk, OnErr, OnOk, is_ok, string_bytes};
ghost use Rattle.textarea_disk.specs.declared.journal_write.JournalWrite.{JournalWrite};
ghost use Rattle.textarea_files.specs.DiskNames.{journal_name};
ghost use Rattle.textarea_files.specs.JournalFiles.{HasOpen, IsJournalFound, none_open};
ghost use Rattle.textarea_files.specs.MadeSteps.{AreMadeUpTo, IsRemoved};

use super::carrying_out::sync_folder;
use super::made_steps::{MakesSteps, make_all};
use super::names::{folder_of, in_folder_of, last_part, state_folder, target_of};
use std::alloc::{AllocError, Global};
use std::fs::{File, OpenOptions, TryLockError};
use std::io::{ErrorKind, Read, Write};
use std::os::unix::fs::OpenOptionsExt;
use std::{fs, io};
use textarea_disk::{JournalStep, JournalWrite, NEW_HASH, hash_with};

// A journal that is open. It is locked, so that another editor of the file sees that.
#[derive(Drop)]
struct OpenJournal {
    name: String,
    file: File,
}

/// The journal of a file, if there is one on the disk.
#[derive(Default, Drop)]
pub struct JournalFile {
    open: Option<OpenJournal>,
}

/// What there is of a file's journal.
#[derive(Drop)]
pub enum FoundJournal {
    /// There is none, or it can't be read.
    Nothing,
    /// Another editor has it.
    Busy,
    /// It has these bytes.
    Bytes(Vec<u8>),
}

impl JournalFile {
    /// Opens the journal of the file of this name, if there is one, and returns its bytes.
    pub fn find(&mut self, rt: &HostRuntime, name: &str) -> FoundJournal
        ensures { IsJournalFound self.old result self.new }
    {
        match self.read_beside(rt, name) {
            Ok(bytes) => FoundJournal::Bytes(bytes),
            Err(error) if error.kind() == ErrorKind::ResourceBusy => FoundJournal::Busy,
            Err(_) => match self.read_elsewhere(rt, name) {
                Ok(bytes) => FoundJournal::Bytes(bytes),
                Err(error) if error.kind() == ErrorKind::ResourceBusy => FoundJournal::Busy,
                Err(_) => FoundJournal::Nothing,
            },
        }
    }

    fn read_beside(&mut self, rt: &HostRuntime, name: &str) -> io::Result<Vec<u8>>
        ensures ok { OnOk result (HasOpen self.new) }
        ensures err { OnErr result (self.new ≡ self.old) }
    {
        let name = beside(rt, name)?;
        self.read(rt, name)
    }

    fn read_elsewhere(&mut self, rt: &HostRuntime, name: &str) -> io::Result<Vec<u8>>
        ensures ok { OnOk result (HasOpen self.new) }
        ensures err { OnErr result (self.new ≡ self.old) }
    {
        let name = elsewhere(rt, name)?;
        self.read(rt, name)
    }

    // Opens a journal that exists, and returns its bytes.
    fn read(&mut self, rt: &HostRuntime, name: String) -> io::Result<Vec<u8>>
        ensures ok { OnOk result (HasOpen self.new) }
        ensures err { OnErr result (self.new ≡ self.old) }
    {
        if !fs::symlink_metadata(rt, name.as_str())?.is_file() {
            return Err(io::Error::from(ErrorKind::NotFound));
        }
        let mut file = OpenOptions::new()
            .read(true)
            .append(true)
            .open(rt, name.as_str())?;
        lock(&file)?;
        let mut bytes = Vec::new(rt.alloc());
        file.read_to_end(&mut bytes)?;
        self.open = Some(OpenJournal { name, file });
        Ok(bytes)
    }

    /// Cuts the open journal to this size, so that records can be added after those that were read.
    pub fn cut(&self, size: u64) -> io::Result<()> {
        match &self.open {
            Some(open) => open.file.set_len(size),
            None => Err(io::Error::from(ErrorKind::NotFound)),
        }
    }

    /// Removes the open journal from the disk, if there is one.
    pub fn remove(&mut self, rt: &HostRuntime)
        ensures { self.new ≡ none_open }
    {
        let mut maker = JournalMaker {
            rt,
            name: "",
            bytes: b"",
            open: self.open.take(),
        };
        make_removal(&mut maker);
    }
}

/// What carries out the writes of a journal.
pub trait CarriesOut {
    // What a write that is carried out, or that fails, may do: the value before it and after it.
    ghost writes: { Self → JournalWrite → Bool → Self → Type 0 };

    /// Makes the steps of a write to the journal of the file of this name, up to the first that fails.
    fn carry_out(&mut self, rt: &HostRuntime, name: &str, write: &JournalWrite) -> io::Result<()>
        ensures { writes self.old write.now (is_ok result) self.new };
}

impl CarriesOut for JournalFile {
    ghost use Rattle.textarea_files.specs.JournalFiles.{IsJournalWrite};

    ghost writes = { IsJournalWrite };

    fn carry_out(&mut self, rt: &HostRuntime, name: &str, write: &JournalWrite) -> io::Result<()> {
        let bytes = write.bytes.as_slice();
        let mut maker = JournalMaker {
            rt,
            name,
            bytes,
            open: self.open.take(),
        };
        let outcome = make_write(&mut maker, write.steps);
        let JournalMaker { open, .. } = maker;
        self.open = open;
        outcome
    }
}

// What makes the steps of the journal of the file of this name. A write adds these bytes.
#[derive(Drop)]
struct JournalMaker<'a> {
    rt: &'a HostRuntime,
    name: &'a str,
    bytes: &'a [u8],
    open: Option<OpenJournal>,
}

impl<'a> MakesSteps for JournalMaker<'a> {
    ghost use Rattle.textarea_files.specs.JournalMakers.{IsStepOfJournal};

    type Step = JournalStep;

    ghost leads = { IsStepOfJournal };

    fn make(&mut self, step: JournalStep) -> io::Result<()> {
        if step == JournalStep::Create {
            self.open = Some(create(self.rt, self.name)?);
            return Ok(());
        }
        match &mut self.open {
            Some(open) => change(self.rt, open, step, self.bytes),
            None => Err(io::Error::from(ErrorKind::NotFound)),
        }
    }
}

// Makes the steps of a write in order, up to the first that fails.
fn make_write<M: MakesSteps<Step = JournalStep>>(
    maker: &mut M,
    steps: &[JournalStep],
) -> io::Result<()>
    ensures { AreMadeUpTo M.leads maker.old steps.now result maker.new }
{
    match make_all(maker, steps) {
        Ok(()) => Ok(()),
        Err(failed) => Err(failed.error),
    }
}

// Makes the steps of a removal in order, up to the first that fails.
fn make_removal<M: MakesSteps<Step = JournalStep>>(maker: &mut M)
    ensures { IsRemoved M.leads maker.old maker.new }
{
    let _ = make_all(maker, JournalStep::removing());
}

// Makes a step on an open journal.
fn change(
    rt: &HostRuntime,
    open: &mut OpenJournal,
    step: JournalStep,
    bytes: &[u8],
) -> io::Result<()> {
    match step {
        JournalStep::Create => Ok(()),
        JournalStep::Append => open.file.write_all(bytes),
        JournalStep::Sync => open.file.sync_all(),
        JournalStep::SyncFolder => sync_folder(rt, folder_of(open.name.as_str())),
        JournalStep::Remove => fs::remove_file(rt, open.name.as_str()),
    }
}

// Makes the journal of a file, for its user alone.
fn create(rt: &HostRuntime, name: &str) -> io::Result<OpenJournal> {
    match create_new(rt, beside(rt, name)?) {
        Err(error)
            if matches!(
                error.kind(),
                ErrorKind::PermissionDenied
                    | ErrorKind::ReadOnlyFilesystem
                    | ErrorKind::InvalidFilename
            ) => {
            let folder = state_folder(rt)?;
            fs::create_dir_all(rt, folder.as_str())?;
            create_new(rt, elsewhere(rt, name)?)
        }
        outcome => outcome,
    }
}

fn create_new(rt: &HostRuntime, name: String) -> io::Result<OpenJournal> {
    let file = OpenOptions::new()
        .append(true)
        .create_new(true)
        .mode(0o600)
        .open(rt, name.as_str())?;
    lock(&file)?;
    Ok(OpenJournal { name, file })
}

/// Opens the file of this name and locks it, so that another editor of it sees that. Returns no file
/// where there is none, and an error of the kind `ResourceBusy` where another program has it locked.
pub fn open_locked(rt: &HostRuntime, name: &str) -> io::Result<Option<File>> {
    let Ok(file) = File::open(rt, name) else {
        return Ok(None);
    };
    lock(&file)?;
    Ok(Some(file))
}

// Locks a file. Where a file system has no locks, none is needed.
fn lock(file: &File) -> io::Result<()> {
    match file.try_lock() {
        Err(TryLockError::WouldBlock) => Err(io::Error::from(ErrorKind::ResourceBusy)),
        _ => Ok(()),
    }
}

// The name of the journal of a file with this name in its folder.
fn journal_name(alloc: Global, last: &str) -> Result<String, AllocError>
    ensures { IfOk result (λ name. string_bytes name ≡ journal_name last.now) }
{
    format!(in alloc; ".{last}.taedit-journal")
}

// The name of the journal of a file, in the file's folder.
fn beside(rt: &HostRuntime, name: &str) -> io::Result<String> {
    let alloc = rt.alloc();
    let target = target_of(rt, name)?;
    let journal = journal_name(alloc, last_part(target.as_str()))?;
    in_folder_of(alloc, target.as_str(), journal.as_str())
}

// The name of the journal of a file in the user's folder for state, by the hash of its path.
fn elsewhere(rt: &HostRuntime, name: &str) -> io::Result<String> {
    let target = target_of(rt, name)?;
    let folder = fs::canonicalize(rt, folder_of(target.as_str()))?;
    let hash = hash_with(NEW_HASH, folder.as_path().as_str().as_bytes());
    let hash = hash_with(hash, last_part(target.as_str()).as_bytes());
    let state = state_folder(rt)?;
    Ok(format!(in rt.alloc(); "{state}/{hash}.taedit-journal")?)
}
