// How a command is started: by itself, by `--demo`, by a file's name, or by a word for what is to be done with a file and its name;
// and, where the script starts it, by `--under PARENT` before these.
use crate::input::Source;
use crate::words::Status;
use crate::{say, under, words};
use files::{fit, lock, trouble};
use std::io::Error;

const UNDER: &[u8] = b"--under";

const DEMO: &[u8] = b"--demo";

// The word for the lock of a file, to be taken away after a signal ended the program. The script asks for it.
pub const UNLOCK: &[u8] = b"--unlock";

// What a command does. Each is false where something failed, after a word on standard error.
pub trait Command {
    // How an error calls the file's name, as `the name of the journal`.
    fn name_of_file() -> &'static [u8];

    // How it calls a file, as `a journal`, and the file that it has, as `the journal`.
    fn any_file() -> &'static [u8];

    fn this_file() -> &'static [u8];

    // The lines of the demonstration.
    fn lines() -> &'static [u8];

    // Whether a file of this name can be kept as the command keeps it.
    fn can_keep(rt: &HostRuntime, path: &[u8]) -> bool;

    // From its start to the end of the input, with the file of this name, or in memory, where the name is empty.
    fn is_served(rt: &HostRuntime, path: &[u8], source: Source, laid: &[u8]) -> bool;

    // Whether this word says what is to be done with a file.
    fn knows(word: &[u8]) -> bool;

    // What such a word asks for.
    fn is_done_by(rt: &HostRuntime, word: &[u8], path: &[u8]) -> bool;
}

fn is_done_in_memory<C: Command>(rt: &HostRuntime) -> bool {
    C::is_served(rt, b"", Source::Typed, b"")
}

fn is_shown<C: Command>(rt: &HostRuntime) -> bool {
    C::is_served(rt, b"", Source::Laid, C::lines())
}

// Nothing is made before the name is known to be fit, and nothing read before the lock is ours.
fn is_done_in_file<C: Command>(rt: &HostRuntime, path: &[u8]) -> bool {
    let is_ours = say::are_open(rt)
        && fit::is_fit(rt, path, C::any_file())
        && C::can_keep(rt, path)
        && lock::is_taken(rt, path, C::this_file());
    if !is_ours {
        return false;
    }
    let served = C::is_served(rt, path, Source::Typed, b"");
    lock::release(rt, path);
    served
}

pub fn start<C: Command>(rt: &HostRuntime) {
    match words::word(rt, 1) {
        Ok(word) if word.bytes() == UNDER => {
            if !under::is_orphan(rt) {
                under::tell(rt, asked_from::<C>(rt, 3));
            }
        }
        _ => {
            asked_from::<C>(rt, 1);
        }
    }
}

// A word that can't be had is no name.
fn unnamed<C: Command>(rt: &HostRuntime, error: &Error) -> Status {
    trouble::fail(rt, C::name_of_file(), error);
    Status::Misused
}

// Two words: what is to be done, and the file's name.
fn asked_by_two<C: Command>(rt: &HostRuntime, word: &[u8], at: usize) -> Status {
    if !C::knows(word) {
        return words::misused(rt);
    }
    match words::word(rt, at) {
        Ok(path) if words::is_name(rt, path.bytes()) => {
            Status::of(C::is_done_by(rt, word, path.bytes()))
        }
        Ok(_) => Status::Misused,
        Err(error) => unnamed::<C>(rt, &error),
    }
}

// One word: `--demo`, or the file's name.
fn asked_by_one<C: Command>(rt: &HostRuntime, word: &[u8]) -> Status {
    if word == DEMO {
        return Status::of(is_shown::<C>(rt));
    }
    if !words::is_name(rt, word) {
        return Status::Misused;
    }
    Status::of(is_done_in_file::<C>(rt, word))
}

// What the words from this one on ask for.
fn asked_from<C: Command>(rt: &HostRuntime, first: usize) -> Status {
    let more = words::count_from(rt, first);
    if more == 0 {
        return Status::of(is_done_in_memory::<C>(rt));
    }
    match words::word(rt, first) {
        Ok(word) if more == 1 => asked_by_one::<C>(rt, word.bytes()),
        Ok(word) if more == 2 => asked_by_two::<C>(rt, word.bytes(), first.saturating_add(1)),
        Ok(_) => words::misused(rt),
        Err(error) => unnamed::<C>(rt, &error),
    }
}
