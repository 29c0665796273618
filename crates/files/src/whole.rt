// A file that is always replaced whole: its new bytes are written under another name, PATH.new, and are there for good before that
// is renamed to PATH. So PATH has all of the old bytes or all of the new ones, at every moment.
use crate::identity::{Identity, Seen};
use crate::{file, identity, names, paths, text, trouble};
use std::fs::{File, Permissions};
use std::os::unix::fs::{PermissionsExt, fchown};

// The bits of a mode that say who may do what.
const RIGHTS: u32 = 0o777;

// A rename puts a file in the place of the name, and a link would be gone: the file that it led to would keep the old bytes.
fn is_no_link(rt: &HostRuntime, path: &[u8], there: Identity) -> bool {
    if !there.is_link() {
        return true;
    }
    trouble::say(
        rt,
        path,
        b"it is a link; the program works under the file's own name",
    );
    false
}

// Whether the file can be replaced: a file of this one name, or none yet. If not, there was a word on standard error.
pub fn is_single(rt: &HostRuntime, path: &[u8]) -> bool {
    let Ok(there) = identity::of_entry(rt, path) else {
        return true;
    };
    if !is_no_link(rt, path, there) {
        return false;
    }
    if !there.is_plain() {
        trouble::say(rt, path, b"it is no plain file");
        return false;
    }
    if 1 < there.names {
        trouble::say(
            rt,
            path,
            b"the file has a second name, which would keep the old bytes",
        );
        return false;
    }
    true
}

// What is there is there for good: a kill may have come between a rename and the sync of its folder.
fn is_lasting(rt: &HostRuntime, path: &[u8], file: &File) -> bool {
    file::is_flushed(rt, path, file) && file::is_named(rt, path)
}

// The file's bytes, as far as the room goes. An absent file is made, with none.
pub fn read(rt: &HostRuntime, path: &[u8], out: &mut [u8]) -> Option<usize> {
    let file = file::opened(rt, path)?;
    let lasting = is_lasting(rt, path, &file);
    let count = file::read(rt, path, Some(&file), out)?;
    if lasting { Some(count) } else { None }
}

// The file at this name, opened to be read. If it can't be, there was a word on standard error.
fn found(rt: &HostRuntime, path: &[u8]) -> Option<File> {
    match names::open_read(rt, path) {
        Ok(file) => Some(file),
        Err(error) => {
            if names::is_absence(&error) {
                file::say_moved(rt, path);
            } else {
                trouble::fail(rt, path, &error);
            }
            None
        }
    }
}

// The file at this name has these bytes, so that nobody else has written it.
fn is_ours(rt: &HostRuntime, path: &[u8], bytes: &[u8]) -> bool {
    let Some(file) = found(rt, path) else {
        return false;
    };
    let mut found = io::buffer();
    let Some(count) = file::read(rt, path, Some(&file), &mut found) else {
        return false;
    };
    let n = paths::within(count, &found);
    let same = &found[..n] == bytes;
    if !same {
        file::say_changed(rt, path);
    }
    same
}

// Whether nothing has the name any more.
fn is_cleared(rt: &HostRuntime, name: &[u8]) -> bool {
    match names::unlink(rt, name) {
        Ok(()) => true,
        Err(error) => {
            if names::is_absence(&error) {
                return true;
            }
            trouble::fail(rt, name, &error);
            false
        }
    }
}

// The owner and the rights of another file, as far as we may give it away. One that can't be seen any more gives none.
fn give(new: &File, like: Seen) {
    let (owner, group, mode) = match like {
        Ok(there) => (there.owner, there.group, there.mode),
        Err(_) => (0, 0, 0),
    };
    let _ = fchown(new, Some(owner), Some(group));
    let _ = new.set_permissions(Permissions::from_mode(mode & RIGHTS));
}

// A new file of the same owner, as far as we may give it away, and of the same rights. One that a kill left under its name is taken
// away first and not written into: that name may be a link, or a second name of another file.
fn made(rt: &HostRuntime, name: &[u8], like: Seen) -> Option<File> {
    if !is_cleared(rt, name) {
        return None;
    }
    match names::create(rt, name) {
        Err(error) => {
            trouble::fail(rt, name, &error);
            None
        }
        Ok(new) => {
            give(&new, like);
            Some(new)
        }
    }
}

fn is_renamed(rt: &HostRuntime, name: &[u8], path: &[u8]) -> bool {
    match names::rename(rt, name, path) {
        Ok(()) => file::is_named(rt, path),
        Err(error) => {
            trouble::fail(rt, path, &error);
            false
        }
    }
}

// The file has the new bytes for good; before, it had the old ones, fewer than 4096. If not, there was a word on standard error.
pub fn is_replaced(rt: &HostRuntime, path: &[u8], old: &[u8], new: &[u8]) -> bool {
    let there = identity::of_entry(rt, path);
    if let Ok(entry) = there {
        if !is_no_link(rt, path, entry) {
            return false;
        }
    }
    if !is_ours(rt, path, old) {
        return false;
    }
    let joined = text::joined(path, b".new");
    let name = joined.bytes();
    let Some(file) = made(rt, name, there) else {
        return false;
    };
    if file::is_filled(rt, name, file, new) && is_renamed(rt, name, path) {
        return true;
    }
    let _ = names::unlink(rt, name);
    false
}
