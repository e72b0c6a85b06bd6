// The copy: a new file, under a name that no file has.
ghost use Rattle.std.specs.Prelude.{◌≡◌, IfOk, string_bytes};
ghost use Rattle.textarea_files.specs.DiskNames.{hidden_name};

use super::names::{in_folder_of, last_part, state_folder, temporary_folder};
use std::alloc::{AllocError, Global};
use std::fs::OpenOptions;
use std::io::ErrorKind;
use std::os::unix::fs::OpenOptionsExt;
use std::rt::{Env, Files};
use std::{fs, io};

// The greatest number that is tried at the end of a copy's name.
const TRIES: u32 = 100;

// The copy's name, and the open file.
#[derive(Drop)]
pub(super) struct NewFile<F: Drop> {
    pub(super) name: String,
    pub(super) file: F,
}

// Makes a copy beside a file: `.NAME.taedit-1`, or `.taedit-1` where that is too long, or a later
// number. It has these mode bits, but for those that the process masks.
pub(super) fn create_beside<R: Files + AllocGlobal>(
    rt: &R,
    target: &str,
    mode: u32,
) -> io::Result<NewFile<R::File>> {
    let alloc = rt.alloc();
    let prefix = hidden_name(alloc, last_part(target))?;
    let long = in_folder_of(alloc, target, prefix.as_str())?;
    match create_free(rt, long.as_str(), mode) {
        Err(error) if error.kind() == ErrorKind::InvalidFilename => {
            let short = in_folder_of(alloc, target, "")?;
            create_free(rt, short.as_str(), mode)
        }
        outcome => outcome,
    }
}

// Makes a copy of a file in the user's state folder, or in the temporary folder, for the user
// alone.
pub(super) fn create_elsewhere<R: Files + Env + AllocGlobal>(
    rt: &R,
    target: &str,
) -> io::Result<NewFile<R::File>> {
    match create_in_state(rt, target) {
        Ok(made) => Ok(made),
        Err(_) => {
            let folder = temporary_folder(rt)?;
            create_in(rt, folder.as_str(), target)
        }
    }
}

fn create_in_state<R: Files + Env + AllocGlobal>(
    rt: &R,
    target: &str,
) -> io::Result<NewFile<R::File>> {
    let folder = state_folder(rt)?;
    fs::create_dir_all(rt, folder.as_str())?;
    create_in(rt, folder.as_str(), target)
}

// Makes a copy of a file in a folder.
fn create_in<R: Files + AllocGlobal>(
    rt: &R,
    folder: &str,
    target: &str,
) -> io::Result<NewFile<R::File>> {
    let alloc = rt.alloc();
    let last = last_part(target);
    let name = format!(in alloc; "{folder}/{last}")?;
    create_beside(rt, name.as_str(), 0o600)
}

// The name of a file with a dot in front.
fn hidden_name(alloc: Global, last: &str) -> Result<String, AllocError>
    ensures { IfOk result (λ name. string_bytes name ≡ hidden_name last.now) }
{
    format!(in alloc; ".{last}")
}

// Makes a file whose name begins so and that isn't there yet.
fn create_free<R: Files + AllocGlobal>(
    rt: &R,
    prefix: &str,
    mode: u32,
) -> io::Result<NewFile<R::File>> {
    let alloc = rt.alloc();
    for number in 1..TRIES {
        let name = format!(in alloc; "{prefix}.taedit-{number}")?;
        match create_new(rt, name.as_str(), mode) {
            Ok(file) => return Ok(NewFile { name, file }),
            Err(error) if error.kind() == ErrorKind::AlreadyExists => {}
            Err(error) => return Err(error),
        }
    }
    Err(io::Error::from(ErrorKind::AlreadyExists))
}

fn create_new<R: Files>(rt: &R, name: &str, mode: u32) -> io::Result<R::File> {
    OpenOptions::new()
        .write(true)
        .create_new(true)
        .mode(mode)
        .open(rt, name)
}
