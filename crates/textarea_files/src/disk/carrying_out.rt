// The steps of a save, carried out.
ghost use Rattle.std.specs.Prelude.{◌≡◌};
ghost use Rattle.textarea_files.specs.SavingSteps.{IsGivenUp, IsPlanMade, failure_at, no_other_way, plan_by, way_after_rename, way_without_copy};

use super::known::Stamp;
use super::made_steps::{MakesSteps, make_all};
use super::names::folder_of;
use super::new_file::{NewFile, create_beside, create_elsewhere};
use super::{stamp_of, trouble_of, trouble_of_kind};
use crate::trouble::Trouble;
use std::fs::{File, Metadata, OpenFile, OpenOptions};
use std::io::{ErrorKind, Seek, SeekFrom, Write};
use std::os::unix::fs::MetadataExt;
use std::rt::{Env, Files};
use std::{fs, io};
use textarea_disk::{DiskStep, Ownership, SaveFile, SavePlan};

// A way to save a file, each tried where the one before can't be gone.
#[derive(Clone, Copy, Debug, PartialEq, Eq)]
pub(super) enum Way {
    // By a copy beside it, which takes the file's name if that keeps links and owner.
    AsKept,
    // By a copy beside it, and over its bytes.
    InPlace,
    // By a copy in another folder, and over its bytes.
    Elsewhere,
}

// Why a save failed, and the way that is left.
#[derive(Clone, Copy, Debug, PartialEq, Eq)]
pub(super) struct Failure {
    pub(super) trouble: Trouble,
    pub(super) next: Option<Way>,
}

// The file after a save, and whether the disk made sure of its name.
#[derive(Clone, Copy, Debug, PartialEq, Eq)]
pub(super) struct Done {
    pub(super) stamp: Stamp,
    pub(super) is_synced: bool,
}

// The files of a save, and what is saved. The file itself is open if it exists.
#[derive(Drop)]
struct Saving<'a, R, F: Drop> {
    rt: &'a R,
    target: &'a str,
    file: Option<F>,
    copy: NewFile<F>,
    text: &'a str,
    old: &'a Option<Metadata>,
}

// Saves a text as a file in this way, and returns what that did.
pub(super) fn carry_out<R: Files + Env + AllocGlobal>(
    rt: &R,
    target: &str,
    text: &str,
    old: &Option<Metadata>,
    way: Way,
) -> Result<Done, Failure> {
    let file = open_old(rt, target, old)?;
    let copy = create_copy(rt, target, old, way)?;
    let plan = plan_of(old, &copy.file, way);
    let mut saving = Saving {
        rt,
        target,
        file,
        copy,
        text,
        old,
    };
    let is_synced = make_plan(&mut saving, plan)?;
    let metadata = match &saving.file {
        Some(file) if plan == SavePlan::InPlace => file.metadata(),
        _ => saving.copy.file.metadata(),
    };
    match metadata {
        Ok(metadata) => Ok(Done {
            stamp: stamp_of(&metadata),
            is_synced,
        }),
        Err(error) => Err(failed(error.kind())),
    }
}

fn failed(kind: ErrorKind) -> Failure
    ensures { result ≡ no_other_way kind }
{
    Failure {
        trouble: trouble_of_kind(kind),
        next: None,
    }
}

// Opens the file, if it exists. One that may not be written is not replaced.
fn open_old<R: Files>(
    rt: &R,
    target: &str,
    old: &Option<Metadata>,
) -> Result<Option<R::File>, Failure> {
    if old.is_none() {
        return Ok(None);
    }
    match OpenOptions::new().write(true).open(rt, target) {
        Ok(file) => Ok(Some(file)),
        Err(error) => Err(failed(error.kind())),
    }
}

// Makes the copy. That of a file that exists is its user's alone, until it has the file's mode bits.
fn create_copy<R: Files + Env + AllocGlobal>(
    rt: &R,
    target: &str,
    old: &Option<Metadata>,
    way: Way,
) -> Result<NewFile<R::File>, Failure> {
    let made = match (way, old) {
        (Way::Elsewhere, _) => create_elsewhere(rt, target),
        (_, Some(_)) => create_beside(rt, target, 0o600),
        (_, None) => create_beside(rt, target, 0o666),
    };
    match made {
        Ok(copy) => Ok(copy),
        Err(error) => Err(Failure {
            trouble: trouble_of(&error),
            next: way_without_copy(error.kind(), way, old.is_some()),
        }),
    }
}

// The way that is left where the copy can't be made. A new file needs none.
fn way_without_copy(kind: ErrorKind, way: Way, is_old: bool) -> Option<Way>
    ensures { result ≡ way_without_copy kind way is_old }
{
    match kind {
        ErrorKind::PermissionDenied | ErrorKind::ReadOnlyFilesystem | ErrorKind::InvalidFilename
            if is_old && way != Way::Elsewhere => Some(Way::Elsewhere),
        _ => None,
    }
}

fn ownership_of(metadata: &Metadata) -> Ownership {
    Ownership {
        links: metadata.nlink(),
        owner: metadata.uid(),
        group: metadata.gid(),
        device: metadata.dev(),
    }
}

// The plan of a save in this way. A file that doesn't exist has nothing to keep.
fn plan_of<F: OpenFile>(old: &Option<Metadata>, copy: &F, way: Way) -> SavePlan {
    let old = old.as_ref().map(ownership_of);
    let copy = copy.metadata().ok().map(|copy| ownership_of(&copy));
    plan_by(old, copy, way)
}

// The same, by the file's ownership, and that of the copy if it could be read.
fn plan_by(old: Option<Ownership>, copy: Option<Ownership>, way: Way) -> SavePlan
    ensures { result ≡ plan_by old copy way }
{
    let Some(old) = old else {
        return SavePlan::Beside;
    };
    match (way, copy) {
        (Way::AsKept, Some(copy)) => SavePlan::keeping(&old, &copy),
        _ => SavePlan::InPlace,
    }
}

// Makes the steps of a plan up to the first that fails, and returns true if none does, or false if
// the file is saved then: its folder is synced after its bytes, and it has its name.
fn make_plan<M: MakesSteps<Step = DiskStep>>(maker: &mut M, plan: SavePlan) -> Result<bool, Failure>
    ensures { IsPlanMade M.leads maker.old plan result maker.new }
{
    match make_all(maker, plan.steps()) {
        Ok(()) => Ok(true),
        Err(failed) => give_up(maker, failed.step, failed.error.kind()),
    }
}

// Ends a save in which this step failed.
fn give_up<M: MakesSteps<Step = DiskStep>>(
    maker: &mut M,
    step: DiskStep,
    kind: ErrorKind,
) -> Result<bool, Failure>
    ensures { IsGivenUp M.leads maker.old step kind result maker.new }
{
    if step == DiskStep::SyncFolder(SaveFile::File) {
        return Ok(false);
    }
    if step.copy_is_removed() {
        let _ = maker.make(DiskStep::Remove);
    }
    Err(failure_at(step, kind))
}

fn failure_at(step: DiskStep, kind: ErrorKind) -> Failure
    ensures { result ≡ failure_at step kind }
{
    match step {
        DiskStep::Rename => Failure {
            trouble: trouble_of_kind(kind),
            next: way_after_rename(kind),
        },
        DiskStep::Write(SaveFile::File)
        | DiskStep::SetMode(SaveFile::File)
        | DiskStep::Sync(SaveFile::File) => Failure {
            trouble: Trouble::InPart,
            next: None,
        },
        _ => failed(kind),
    }
}

// The way that is left where the copy can't take the file's name.
fn way_after_rename(kind: ErrorKind) -> Option<Way>
    ensures { result ≡ way_after_rename kind }
{
    match kind {
        ErrorKind::ResourceBusy | ErrorKind::CrossesDevices | ErrorKind::PermissionDenied => {
            Some(Way::InPlace)
        }
        _ => None,
    }
}

impl<'a, R: Files> MakesSteps for Saving<'a, R, R::File> {
    ghost use Rattle.textarea_files.specs.Savings.{IsStepOfSaving};

    type Step = DiskStep;

    ghost leads = { IsStepOfSaving R.File.contents };

    // The copy was made before, since the plan depends on it.
    fn make(&mut self, step: DiskStep) -> io::Result<()> {
        match step {
            DiskStep::Create => Ok(()),
            DiskStep::SyncFolder(SaveFile::File) => sync_folder(self.rt, folder_of(self.target)),
            DiskStep::SyncFolder(SaveFile::Copy) => sync_folder(
                self.rt,
                folder_of(self.copy.name.as_str()),
            ),
            DiskStep::Rename => fs::rename(self.rt, self.copy.name.as_str(), self.target),
            DiskStep::Remove => {
                // The file is saved, so a copy that stays is no failure.
                let _ = fs::remove_file(self.rt, self.copy.name.as_str());
                Ok(())
            }
            DiskStep::Grow
            | DiskStep::Write(SaveFile::File)
            | DiskStep::SetMode(SaveFile::File)
            | DiskStep::Sync(SaveFile::File) => {
                match &mut self.file {
                    Some(file) => change_file(file, self.text.as_bytes(), self.old, step),
                    None => Ok(()),
                }
            }
            DiskStep::Write(SaveFile::Copy) => self.copy.file.write_all(self.text.as_bytes()),
            DiskStep::SetMode(SaveFile::Copy) => set_mode(&self.copy.file, self.old),
            DiskStep::Sync(SaveFile::Copy) => self.copy.file.sync_all(),
        }
    }
}

// Gives the copy the mode bits of the file, if there is one.
fn set_mode<F: OpenFile>(copy: &F, old: &Option<Metadata>) -> io::Result<()> {
    match old {
        Some(old) => copy.set_permissions(old.permissions()),
        None => Ok(()),
    }
}

// Makes a step that changes the file.
fn change_file<F: OpenFile + Seek + Write>(
    file: &mut F,
    text: &[u8],
    old: &Option<Metadata>,
    step: DiskStep,
) -> io::Result<()> {
    match (step, old) {
        (DiskStep::Grow, _) => grow(file, text),
        (DiskStep::Write(_), _) => write_over(file, text),
        (DiskStep::SetMode(_), Some(old)) => restore_mode(file, old),
        (DiskStep::Sync(_), _) => file.sync_all(),
        _ => Ok(()),
    }
}

// Writes what the text has more than the file, or leaves the file's bytes as they are.
fn grow<F: OpenFile + Seek + Write>(file: &mut F, text: &[u8]) -> io::Result<()> {
    let size = file.metadata()?.len();
    let Ok(old_size) = usize::try_from(size) else {
        return Ok(());
    };
    let Some(more) = text.get(old_size..) else {
        return Ok(());
    };
    file.seek(SeekFrom::Start(size))?;
    let written = file.write_all(more);
    if written.is_err() {
        let _ = file.set_len(size);
    }
    written
}

fn write_over<F: OpenFile + Seek + Write>(file: &mut F, text: &[u8]) -> io::Result<()> {
    file.seek(SeekFrom::Start(0))?;
    file.write_all(text)?;
    file.set_len(text.len() as u64)
}

// Gives a file its mode bits again if the writes cleared some. Only its owner may do that.
fn restore_mode<F: OpenFile>(file: &F, old: &Metadata) -> io::Result<()> {
    if file.metadata()?.permissions() == old.permissions() {
        return Ok(());
    }
    match file.set_permissions(old.permissions()) {
        Err(error) if error.kind() == ErrorKind::PermissionDenied => Ok(()),
        outcome => outcome,
    }
}

// Brings to the disk what is under the names of a folder. One that may not be read can't be synced.
pub(super) fn sync_folder<R: Files>(rt: &R, folder: &str) -> io::Result<()> {
    let Ok(folder) = File::open(rt, folder) else {
        return Ok(());
    };
    match folder.sync_all() {
        Err(error)
            if error.kind() == ErrorKind::InvalidInput || error.kind() == ErrorKind::Unsupported =>
            { Ok(()) }
        outcome => outcome,
    }
}
