// What the system tells of a file.
use crate::names;
use std::fs;
use std::fs::{File, Metadata};
use std::io::Result;

pub fn of_open(file: &File) -> Result<Metadata> {
    file.metadata()
}

pub fn of_name(rt: &HostRuntime, path: &[u8]) -> Result<Metadata> {
    let name = names::text(path)?;
    fs::metadata(rt, name)
}

pub fn of_entry(rt: &HostRuntime, path: &[u8]) -> Result<Metadata> {
    let name = names::text(path)?;
    fs::symlink_metadata(rt, name)
}
