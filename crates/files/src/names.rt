// The system's calls on files by their names, which are bytes here. std takes a name only as text, so one that is not UTF-8 is
// refused, by an error that says so.
use crate::identity;
use std::fs;
use std::fs::{File, OpenOptions};
use std::io::{Error, ErrorKind, Result};

// What the system answers for a name that it can't be handed: it is too long, or has a 0 in it.
const ENAMETOOLONG: i32 = 36;

const EINVAL: i32 = 22;

// The name as std takes it.
pub fn text(path: &[u8]) -> Result<&str> {
    if path.len() >= identity::PATH_MAX {
        return Err(Error::from_raw_os_error(ENAMETOOLONG));
    }
    if !identity::is_path(path) {
        return Err(Error::from_raw_os_error(EINVAL));
    }
    match str::from_utf8(path) {
        Ok(name) => Ok(name),
        Err(_) => Err(Error::new(ErrorKind::InvalidInput, "the name is not UTF-8")),
    }
}

pub fn open_read(rt: &HostRuntime, path: &[u8]) -> Result<File> {
    let name = text(path)?;
    OpenOptions::new().read(true).open(rt, name)
}

// Opened to be read and written; its bytes are left as they are.
pub fn open_update(rt: &HostRuntime, path: &[u8]) -> Result<File> {
    let name = text(path)?;
    OpenOptions::new().read(true).write(true).open(rt, name)
}

// A new file, opened to be written. A name that is taken, and be it by a link that leads nowhere, is an error.
pub fn create(rt: &HostRuntime, path: &[u8]) -> Result<File> {
    let name = text(path)?;
    OpenOptions::new()
        .write(true)
        .create_new(true)
        .open(rt, name)
}

pub fn rename(rt: &HostRuntime, from: &[u8], to: &[u8]) -> Result<()> {
    let old = text(from)?;
    let new = text(to)?;
    fs::rename(rt, old, new)
}

pub fn unlink(rt: &HostRuntime, path: &[u8]) -> Result<()> {
    let name = text(path)?;
    fs::remove_file(rt, name)
}

// The error is that nothing has the name.
pub fn is_absence(error: &Error) -> bool {
    error.kind() == ErrorKind::NotFound
}
