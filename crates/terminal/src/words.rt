// The words that a command is started with, and the status that it ends with.
use files::text::Name;
use files::{paths, trouble};
use std::env::FillError;
use std::io::Error;
use std::rt::Env;

// What the system says of a word that isn't there, and of one that is too long.
const EINVAL: i32 = 22;

const ENAMETOOLONG: i32 = 36;

// How a command ends: all was served; a file, a lock or a write failed; or it was called by the wrong words.
#[derive(Clone, Copy, PartialEq, Eq, Debug)]
pub enum Status {
    Served,
    Failed,
    Misused,
}

impl Status {
    pub fn of(served: bool) -> Status {
        if served {
            Status::Served
        } else {
            Status::Failed
        }
    }

    // The digit that the script is told.
    pub fn digit(self) -> u8 {
        match self {
            Status::Served => b'0',
            Status::Failed => b'1',
            Status::Misused => b'2',
        }
    }
}

// A word of those that the program is started with, or why it can't be had.
pub fn word(rt: &HostRuntime, at: usize) -> Result<Name, Error> {
    let mut room = io::buffer();
    match rt.arg(at, &mut room) {
        Ok(n) => {
            let mut word = Name::new();
            word.add(&room[..paths::within(n, &room)]);
            Ok(word)
        }
        Err(FillError::NotPresent) => Err(Error::from_raw_os_error(EINVAL)),
        Err(FillError::TooLong) => Err(Error::from_raw_os_error(ENAMETOOLONG)),
    }
}

fn is_word(rt: &HostRuntime, at: usize) -> bool {
    let mut room = [0u8; 1];
    !matches!(rt.arg(at, &mut room), Err(FillError::NotPresent))
}

// How many words there are from this one on, up to three.
pub fn count_from(rt: &HostRuntime, first: usize) -> usize {
    if !is_word(rt, first) {
        return 0;
    }
    if !is_word(rt, first.saturating_add(1)) {
        return 1;
    }
    if !is_word(rt, first.saturating_add(2)) {
        return 2;
    }
    3
}

// How the script is called: a person starts both programs by it.
pub fn misused(rt: &HostRuntime) -> Status {
    trouble::more(
        rt,
        b"usage: jibcradle [JOURNAL | --coordinator [FILE] | --demo | --records JOURNAL | --help | --version]\n",
    );
    Status::Misused
}

// A word that begins like an option is never a file: no mistyped option becomes one.
fn is_plain(word: &[u8]) -> bool {
    !word.is_empty() && !word.starts_with(b"-")
}

// Whether the word can be a file's name. If not, there was a word on standard error.
pub fn is_name(rt: &HostRuntime, word: &[u8]) -> bool {
    if !is_plain(word) {
        misused(rt);
        return false;
    }
    if paths::LONGEST < word.len() {
        trouble::say(rt, word, b"the name is longer than 4000 bytes");
        return false;
    }
    true
}
