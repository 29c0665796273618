// The journal's file. No file stands for a journal in memory, which needs none of this.
ghost use Rattle.std.specs.Prelude.{◌+◌, ◌≤◌, length};

use crate::{identity, names, paths, text, torn, trouble};
use std::fs::File;
use std::io;
use std::io::{Error, ErrorKind, Seek, SeekFrom, Write};
use std::os::unix::fs::FileExt;

// A place as the system counts it. No place in a journal lies beyond these, and there is none of the last number.
fn offset(at: usize) -> u64 {
    if at <= 65536 {
        at as u64
    } else {
        18446744073709551615
    }
}

// Waits until the file's name is in its folder for good. If it can't, there was a word on standard error.
pub fn is_named(rt: &HostRuntime, path: &[u8]) -> bool {
    match names::open_read(rt, paths::folder(path)) {
        Ok(folder) => is_flushed(rt, path, &folder),
        Err(error) => {
            trouble::fail(rt, path, &error);
            false
        }
    }
}

// All that is written to the file, or its folder, is there for good.
pub fn is_flushed(rt: &HostRuntime, path: &[u8], file: &File) -> bool {
    match file.sync_all() {
        Ok(()) => true,
        Err(error) => {
            trouble::fail(rt, path, &error);
            false
        }
    }
}

// The file's bytes are there for good.
fn is_synced(rt: &HostRuntime, path: &[u8], file: &File) -> bool {
    match file.sync_data() {
        Ok(()) => true,
        Err(error) => {
            trouble::fail(rt, path, &error);
            false
        }
    }
}

// The file of this name, opened to be read and written.
fn updated(rt: &HostRuntime, path: &[u8]) -> Option<File> {
    match names::open_update(rt, path) {
        Ok(file) => Some(file),
        Err(error) => {
            trouble::fail(rt, path, &error);
            None
        }
    }
}

// A new file, opened.
fn made(rt: &HostRuntime, path: &[u8]) -> Option<File> {
    if let Err(error) = names::create(rt, path) {
        trouble::fail(rt, path, &error);
        return None;
    }
    if !is_named(rt, path) {
        return None;
    }
    updated(rt, path)
}

// The file, or none after a word on standard error.
pub fn opened(rt: &HostRuntime, path: &[u8]) -> Option<File> {
    match names::open_update(rt, path) {
        Ok(file) => Some(file),
        Err(error) => {
            if names::is_absence(&error) {
                return made(rt, path);
            }
            trouble::fail(rt, path, &error);
            None
        }
    }
}

fn read_behind(file: &File, journal: &mut [u8], at: usize) -> io::Result<usize>
    requires { at ≤ length journal.old }
{
    file.read_at(&mut journal[at..], offset(at))
}

// How many bytes were read, as far as the journal's room goes. Where reading failed there was a word on standard error.
pub fn read(
    rt: &HostRuntime,
    path: &[u8],
    file: Option<&File>,
    journal: &mut [u8],
) -> Option<usize> {
    let Some(file) = file else {
        return Some(0);
    };
    let mut n: usize = 0;
    while n < journal.len() {
        match read_behind(file, journal, n) {
            Err(error) => {
                trouble::fail(rt, path, &error);
                return None;
            }
            Ok(got) => {
                let more = paths::within(got, &journal[n..]);
                if more == 0 {
                    return Some(n);
                }
                n += more;
            }
        }
    }
    Some(n)
}

// Cuts the file to its first bytes, for good.
fn is_cut(rt: &HostRuntime, path: &[u8], file: &File, to: usize) -> bool {
    match file.set_len(offset(to)) {
        Ok(()) => is_synced(rt, path, file),
        Err(error) => {
            trouble::fail(rt, path, &error);
            false
        }
    }
}

// The file holds the bytes that were read up to a place, for good. Those behind it are kept elsewhere before they are cut.
pub fn is_settled(rt: &HostRuntime, path: &[u8], file: &File, read: &[u8], to: usize) -> bool {
    if to < read.len() {
        return torn::is_kept(rt, path, &read[to..]) && is_cut(rt, path, file, to);
    }
    is_synced(rt, path, file)
}

// What std says of a writer that takes no byte.
fn nothing_written() -> Error {
    Error::new(ErrorKind::WriteZero, "failed to write whole buffer")
}

// How many bytes were written: none where it failed, after a word on standard error.
fn write_from(rt: &HostRuntime, path: &[u8], file: &File, bytes: &[u8], at: usize) -> usize
    requires { at ≤ length bytes.now }
    ensures { at + result ≤ length bytes.now }
{
    let rest = &bytes[at..];
    match file.write_at(rest, offset(at)) {
        Ok(put) => {
            if put == 0 {
                trouble::fail(rt, path, &nothing_written());
            }
            paths::within(put, rest)
        }
        Err(error) => {
            trouble::fail(rt, path, &error);
            0
        }
    }
}

// Writes the bytes from a place on to the same place in the file.
fn is_written(rt: &HostRuntime, path: &[u8], file: &File, bytes: &[u8], from: usize) -> bool {
    let mut at = from;
    while at < bytes.len() {
        let put = write_from(rt, path, file, bytes, at);
        if put == 0 {
            return false;
        }
        at += put;
    }
    true
}

pub fn say_changed(rt: &HostRuntime, path: &[u8]) {
    trouble::say(rt, path, b"another program has changed it");
}

// Where the file ends.
fn end_of(file: &File) -> io::Result<u64> {
    let mut handle = file;
    handle.seek(SeekFrom::End(0))
}

// The file ends where the journal did, so that nobody else has written it.
fn is_ours(rt: &HostRuntime, path: &[u8], file: &File, end: usize) -> bool {
    match end_of(file) {
        Err(error) => {
            trouble::fail(rt, path, &error);
            false
        }
        Ok(found) => {
            let same = found == offset(end);
            if !same {
                say_changed(rt, path);
            }
            same
        }
    }
}

pub fn say_moved(rt: &HostRuntime, path: &[u8]) {
    trouble::say(
        rt,
        path,
        b"the open file is no longer at this name; nothing more is written",
    );
}

// The name still leads to the open file. Records in a file without a name would be lost.
fn is_there(rt: &HostRuntime, path: &[u8], file: &File) -> bool {
    match (identity::of_open(file), identity::of_name(rt, path)) {
        (Ok(held), Ok(named)) if held.inode == named.inode => true,
        _ => {
            say_moved(rt, path);
            false
        }
    }
}

// The journal's bytes from old to new are in the file for good. Where they aren't, the file is cut back to what it was.
pub fn is_saved(
    rt: &HostRuntime,
    path: &[u8],
    file: Option<&File>,
    journal: &[u8],
    old: usize,
    new: usize,
) -> bool {
    let Some(file) = file else {
        return true;
    };
    if !is_there(rt, path, file) {
        return false;
    }
    if !is_ours(rt, path, file, old) {
        return false;
    }
    let n = paths::within(new, journal);
    if is_written(rt, path, file, &journal[..n], old) && is_synced(rt, path, file) {
        return true;
    }
    let _ = file.set_len(offset(old));
    false
}

// The bytes go into a file that was just made, for good, and it is closed.
pub fn is_filled(rt: &HostRuntime, name: &[u8], mut file: File, bytes: &[u8]) -> bool {
    match file.write_all(bytes) {
        Ok(()) => is_flushed(rt, name, &file),
        Err(error) => {
            trouble::fail(rt, name, &error);
            false
        }
    }
}

// Why there is no new file: JOURNAL.old is in the way, the name is a link, or something failed, after a word on standard error.
#[derive(Clone, Copy, PartialEq, Eq, Debug)]
pub enum NotRenewed {
    Barred,
    Linked,
    Failed,
}

// A new file in the place of the old one, which is kept as JOURNAL.old. In memory there is none.
pub fn renew(
    rt: &HostRuntime,
    path: &[u8],
    file: Option<&File>,
) -> Result<Option<File>, NotRenewed> {
    let Some(file) = file else {
        return Ok(None);
    };
    if identity::is_link(rt, path) {
        return Err(NotRenewed::Linked);
    }
    if !is_there(rt, path, file) {
        return Err(NotRenewed::Failed);
    }
    let name = text::joined(path, b".old");
    if !identity::is_free(rt, name.bytes()) {
        return Err(NotRenewed::Barred);
    }
    if let Err(error) = names::rename(rt, path, name.bytes()) {
        trouble::fail(rt, path, &error);
        return Err(NotRenewed::Failed);
    }
    match made(rt, path) {
        Some(next) => Ok(Some(next)),
        None => Err(NotRenewed::Failed),
    }
}
