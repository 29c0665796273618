// The lock: JOURNAL.lock holds the line of the process that has the journal. So it is with every file that is kept.
use crate::holder::Holder;
use crate::text::Text;
use crate::wait::Wait;
use crate::{holder, identity, names, paths, text, trouble, wait};
use std::fs::File;
use std::io::{ErrorKind, Write};

// Seconds for a lock without a line, whose process may be about to write it; and for a process to go, which may be about to.
const UNWRITTEN: u64 = 5;

const GOING: u64 = 1;

// A line has its end.
fn is_whole(line: &[u8]) -> bool {
    line.last() == Some(&b'\n') && paths::number(line) != 0
}

// The line in a lock, or none where it isn't whole.
fn line_in(rt: &HostRuntime, lock: &[u8]) -> Option<Holder> {
    let line: Holder = holder::text_of(rt, lock);
    if is_whole(line.bytes()) {
        return Some(line);
    }
    None
}

// The same, after some waiting for a line while the lock is there.
fn awaited(rt: &HostRuntime, lock: &[u8]) -> Holder {
    let mut waiting = Wait::begun(rt, UNWRITTEN);
    for _ in 0..wait::TRIES {
        if let Some(line) = line_in(rt, lock) {
            return line;
        }
        if identity::is_free(rt, lock) || !waiting.goes_on(rt) {
            return Text::new();
        }
    }
    Text::new()
}

// The process of a line is gone, after some waiting: one that was killed may still be going.
fn is_gone(rt: &HostRuntime, line: &[u8]) -> bool {
    let mut waiting = Wait::begun(rt, GOING);
    for _ in 0..wait::TRIES {
        if !holder::lives(rt, line) {
            return true;
        }
        if !waiting.goes_on(rt) {
            return false;
        }
    }
    false
}

fn has_our_line(rt: &HostRuntime, lock: &[u8]) -> bool {
    let ours = holder::own_line(rt);
    let found = line_in(rt, lock).unwrap_or(Text::new());
    ours.bytes() == found.bytes()
}

fn write_own(rt: &HostRuntime, lock: &[u8], mut file: File) -> bool {
    match file.write_all(holder::own_line(rt).bytes()) {
        Ok(()) => true,
        Err(error) => {
            trouble::fail(rt, lock, &error);
            false
        }
    }
}

// The line goes into a lock that was just made. It's ours if it's then still there.
fn is_ours(rt: &HostRuntime, lock: &[u8], file: File) -> bool {
    if !write_own(rt, lock, file) {
        let _ = names::unlink(rt, lock);
        return false;
    }
    if !has_our_line(rt, lock) {
        trouble::say(rt, lock, b"another program has taken it");
        return false;
    }
    true
}

fn is_made(rt: &HostRuntime, lock: &[u8]) -> bool {
    match names::create(rt, lock) {
        Ok(file) => is_ours(rt, lock, file),
        Err(error) => {
            trouble::fail(rt, lock, &error);
            false
        }
    }
}

// The guard of a taking over: only one program can have it. One whose process is gone was left by a kill in the middle.
fn is_guarded(rt: &HostRuntime, guard: &[u8]) -> bool {
    if let Ok(file) = names::create(rt, guard) {
        return is_ours(rt, guard, file);
    }
    if identity::is_folder(rt, guard) {
        trouble::say(
            rt,
            guard,
            b"it is a folder, where the lock's guard should be",
        );
        return false;
    }
    let line = awaited(rt, guard);
    let held = line.bytes();
    if !is_gone(rt, held) {
        trouble::say_of(rt, guard, paths::number(held), b" is taking the lock over");
        return false;
    }
    let _ = names::unlink(rt, guard);
    is_made(rt, guard)
}

// Takes away the lock of a process that is gone. It is read again behind the guard JOURNAL.lock.take, since another program may have
// taken it over, or away, meanwhile.
fn is_removed(rt: &HostRuntime, lock: &[u8], held: &[u8]) -> bool {
    let guard = text::joined(lock, b".take");
    if !is_guarded(rt, guard.bytes()) {
        return false;
    }
    if held == awaited(rt, lock).bytes() {
        let _ = names::unlink(rt, lock);
    }
    let free = identity::is_free(rt, lock);
    let _ = names::unlink(rt, guard.bytes());
    if !free {
        trouble::say(rt, lock, b"another program has taken it");
    }
    free
}

fn say_taken_over(rt: &HostRuntime, lock: &[u8], process: u64) {
    if process == 0 {
        trouble::say(rt, lock, b"there was no process in it; it is taken over");
    } else {
        trouble::say_of(rt, lock, process, b" is gone; its lock is taken over");
    }
}

fn say_held(rt: &HostRuntime, path: &[u8], what: &[u8], process: u64, lock: &[u8]) {
    trouble::begin(rt, path, b"process ");
    trouble::number(rt, process);
    trouble::more(rt, b" has ");
    trouble::more(rt, what);
    trouble::more(rt, b"; its lock is ");
    trouble::end(rt, lock);
}

fn is_taken_over(rt: &HostRuntime, path: &[u8], what: &[u8], lock: &[u8]) -> bool {
    let line = awaited(rt, lock);
    let held = line.bytes();
    let process = paths::number(held);
    if !is_gone(rt, held) {
        say_held(rt, path, what, process, lock);
        return false;
    }
    if identity::is_free(rt, lock) {
        return is_made(rt, lock);
    }
    if !is_removed(rt, lock, held) {
        return false;
    }
    say_taken_over(rt, lock, process);
    is_made(rt, lock)
}

// The lock is ours. If not, there was a word on standard error; `what` is how it calls the file, as `the journal`.
pub fn is_taken(rt: &HostRuntime, path: &[u8], what: &[u8]) -> bool {
    let name = text::joined(path, b".lock");
    let lock = name.bytes();
    match names::create(rt, lock) {
        Ok(file) => is_ours(rt, lock, file),
        Err(error) => {
            if error.kind() != ErrorKind::AlreadyExists {
                trouble::begin(rt, path, b"no lock can be made: ");
                trouble::fail(rt, lock, &error);
                return false;
            }
            is_shared(rt, path, what, lock)
        }
    }
}

// The same, where there is a lock already.
fn is_shared(rt: &HostRuntime, path: &[u8], what: &[u8], lock: &[u8]) -> bool {
    if identity::is_folder(rt, lock) {
        trouble::say(rt, lock, b"it is a folder, where the lock should be");
        return false;
    }
    is_taken_over(rt, path, what, lock)
}

pub fn release(rt: &HostRuntime, path: &[u8]) {
    let name = text::joined(path, b".lock");
    if has_our_line(rt, name.bytes()) {
        let _ = names::unlink(rt, name.bytes());
    }
}

// Takes the lock away, without a word, if its process is gone: after a signal, which no program of the kit can catch.
pub fn clear(rt: &HostRuntime, path: &[u8]) {
    let name = text::joined(path, b".lock");
    let lock = name.bytes();
    if let Some(held) = line_in(rt, lock) {
        if is_gone(rt, held.bytes()) {
            is_removed(rt, lock, held.bytes());
        }
    }
}
