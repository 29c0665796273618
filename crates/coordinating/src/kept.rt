// A coordinator from its start to the end of the input.
use crate::desk::Coordinator;
use coordinator::State;
use files::{paths, whole};
use terminal::input::Source;
use terminal::{say, serve};

// The bytes of the file; none in memory. Where they can't be read there was a word on standard error.
fn read(rt: &HostRuntime, path: &[u8], out: &mut [u8]) -> Option<usize> {
    if path.is_empty() {
        return Some(0);
    }
    whole::read(rt, path, out)
}

// The coordinator of a file, or one in memory. A file that is refused stays as it is. A state has fewer bytes than there is room for
// here, so a file that is longer shows.
fn begun<'a>(rt: &HostRuntime, path: &'a [u8]) -> Option<Coordinator<'a>> {
    let mut state = State {
        count: 0,
        sent: 0,
        stamps: [0; 64],
    };
    let mut bytes = io::buffer();
    let length = read(rt, path, &mut bytes)?;
    let n = paths::within(length, &bytes);
    let answer = state.restart(&bytes[..n]);
    let coordinator = Coordinator {
        state,
        path,
        length,
    };
    if path.is_empty() {
        return Some(coordinator);
    }
    if !answer.is_done() {
        say::opening(rt, b"refused ", path, answer);
        return None;
    }
    if !say::opening(rt, b"opened ", path, answer) {
        return None;
    }
    Some(coordinator)
}

// The input is standard input, or the demonstration's lines. False where something failed, after a word on standard error.
pub fn is_served(rt: &HostRuntime, path: &[u8], source: Source, laid: &[u8]) -> bool {
    match begun(rt, path) {
        Some(mut coordinator) => serve::is_served(rt, &mut coordinator, source, laid),
        None => false,
    }
}
