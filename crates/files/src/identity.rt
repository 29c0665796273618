// Which file is open, or which one a name leads to, as the system tells it.
use crate::{names, told};
use std::fs::{File, Metadata};
use std::io;
use std::os::unix::fs::MetadataExt;

// A path that the system can be handed has fewer bytes, none of them 0.
pub const PATH_MAX: usize = 4096;

// The bits of a mode that say what kind of thing it is, and three of the kinds.
const KIND: u32 = 0o170000;

const FOLDER: u32 = 0o040000;

const LINK: u32 = 0o120000;

const PLAIN: u32 = 0o100000;

// Which file it is, and no other: its device and its number there.
#[derive(Clone, Copy, PartialEq, Eq, Debug)]
pub struct Inode {
    pub device: u64,
    pub number: u64,
}

// How many names it has; whose it is; and its mode, whose bits KIND say what kind of thing it is.
#[derive(Clone, Copy, PartialEq, Eq, Debug)]
pub struct Identity {
    pub inode: Inode,
    pub names: u64,
    pub owner: u32,
    pub group: u32,
    pub mode: u32,
}

// Why nothing is told of a file: nothing has the name, or the system doesn't say.
#[derive(Clone, Copy, PartialEq, Eq, Debug)]
pub enum Unseen {
    Absent,
    Unknown,
}

pub type Seen = Result<Identity, Unseen>;

impl Identity {
    pub fn is_folder(self) -> bool {
        self.mode & KIND == FOLDER
    }

    pub fn is_link(self) -> bool {
        self.mode & KIND == LINK
    }

    pub fn is_plain(self) -> bool {
        self.mode & KIND == PLAIN
    }
}

impl From<Metadata> for Identity {
    fn from(room: Metadata) -> Identity {
        Identity {
            inode: Inode {
                device: room.dev(),
                number: room.ino(),
            },
            names: room.nlink(),
            owner: room.uid(),
            group: room.gid(),
            mode: room.mode(),
        }
    }
}

fn seen(told: io::Result<Metadata>) -> Seen {
    match told {
        Ok(room) => Ok(Identity::from(room)),
        Err(error) if names::is_absence(&error) => Err(Unseen::Absent),
        Err(_) => Err(Unseen::Unknown),
    }
}

pub fn of_open(file: &File) -> Seen {
    seen(told::of_open(file))
}

// Whether the system can be handed all of it. Where it can't, the system isn't called.
pub fn is_path(path: &[u8]) -> bool {
    path.len() < PATH_MAX && !path.contains(&0)
}

// Of the file that the name leads to, through links.
pub fn of_name(rt: &HostRuntime, path: &[u8]) -> Seen {
    if !is_path(path) {
        return Err(Unseen::Unknown);
    }
    seen(told::of_name(rt, path))
}

// Of the name's own entry: a link is a link.
pub fn of_entry(rt: &HostRuntime, path: &[u8]) -> Seen {
    if !is_path(path) {
        return Err(Unseen::Unknown);
    }
    seen(told::of_entry(rt, path))
}

// Nothing has this name, not even a link that leads nowhere.
pub fn is_free(rt: &HostRuntime, name: &[u8]) -> bool {
    of_entry(rt, name) == Err(Unseen::Absent)
}

pub fn is_folder(rt: &HostRuntime, name: &[u8]) -> bool {
    matches!(of_name(rt, name), Ok(there) if there.is_folder())
}

pub fn is_link(rt: &HostRuntime, name: &[u8]) -> bool {
    matches!(of_entry(rt, name), Ok(there) if there.is_link())
}
