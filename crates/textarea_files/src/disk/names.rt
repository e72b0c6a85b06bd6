// Names of files.
use std::alloc::Global;
use std::io::ErrorKind;
use std::rt::{Env, Files};
use std::{env, fs, io};

// The greatest number of links that lead to a file.
const LINKS: usize = 40;

// The file that a name leads to over links. It need not exist.
pub(super) fn target_of<R: Files + AllocGlobal>(rt: &R, name: &str) -> io::Result<String> {
    let mut target = String::from_str(rt.alloc(), name)?;
    for _ in 0..LINKS {
        let Ok(link) = fs::read_link(rt, target.as_str()) else {
            return Ok(target);
        };
        let link = link.as_path().as_str();
        target = if link.starts_with('/') {
            String::from_str(rt.alloc(), link)?
        } else {
            in_folder_of(rt.alloc(), target.as_str(), link)?
        };
    }
    Err(io::Error::from(ErrorKind::FilesystemLoop))
}

// The name of another file in the folder of a file.
pub(super) fn in_folder_of(alloc: Global, file: &str, other: &str) -> io::Result<String> {
    match file.rsplit_once('/') {
        Some((folder, _)) => Ok(format!(in alloc; "{folder}/{other}")?),
        None => Ok(String::from_str(alloc, other)?),
    }
}

// The last part of a file's name.
pub(super) fn last_part(file: &str) -> &str {
    match file.rsplit_once('/') {
        Some((_, last)) => last,
        None => file,
    }
}

// The folder of a file.
pub(super) fn folder_of(file: &str) -> &str {
    match file.rsplit_once('/') {
        Some(("", _)) => "/",
        Some((folder, _)) => folder,
        None => ".",
    }
}

// The folder of the user's state, for copies of files in whose folders none can be made.
pub(super) fn state_folder<R: Env + AllocGlobal>(rt: &R) -> io::Result<String> {
    let alloc = rt.alloc();
    if let Ok(state) = env::var(rt, "XDG_STATE_HOME") {
        if state.as_str().starts_with('/') {
            return Ok(format!(in alloc; "{state}/taedit")?);
        }
    }
    match env::var(rt, "HOME") {
        Ok(home) => Ok(format!(in alloc; "{home}/.local/state/taedit")?),
        Err(_) => Err(io::Error::from(ErrorKind::NotFound)),
    }
}

// The folder for temporary files.
pub(super) fn temporary_folder<R: Env + AllocGlobal>(rt: &R) -> io::Result<String> {
    match env::var(rt, "TMPDIR") {
        Ok(folder) if folder.as_str().starts_with('/') => Ok(folder),
        _ => Ok(String::from_str(rt.alloc(), "/tmp")?),
    }
}
