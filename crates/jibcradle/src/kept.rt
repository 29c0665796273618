// A store from its start to the end of the input.
use crate::desk::Keeper;
use files::{file, paths, room};
use model::Answer;
use std::fs::File;
use tables::Store;
use terminal::input::Source;
use terminal::{say, serve};

// The store of a journal that was read: what lies behind its last whole record is kept elsewhere and cut off the file, since a
// shorter record written over it would leave a rest; and the file is synced, since a record from before a kill may be in it and not
// yet there for good. A journal that is refused stays as it is.
fn is_opened(
    rt: &HostRuntime,
    path: &[u8],
    file: &File,
    read: &[u8],
    answer: Answer,
    end: usize,
) -> bool {
    if !answer.is_done() {
        say::opening(rt, b"refused ", path, answer);
        return false;
    }
    if !file::is_settled(rt, path, file, read, end) || !say::opening(rt, b"opened ", path, answer) {
        return false;
    }
    room::tell(rt, path, 0, end);
    true
}

// The store of a journal's file, or one in memory, from its start to its end.
fn is_kept(rt: &HostRuntime, path: &[u8], file: Option<File>, source: Source, laid: &[u8]) -> bool {
    let mut journal = io::large_buffer();
    let Some(count) = file::read(rt, path, file.as_ref(), &mut journal) else {
        return false;
    };
    let n = paths::within(count, &journal);
    let mut store = Store::empty();
    let started = restart::restart(&mut store, &journal[..n]);
    let place = started.place;
    if let Some(file) = &file {
        if !is_opened(rt, path, file, &journal[..n], started.answer, place.at) {
            return false;
        }
    }
    let mut keeper = Keeper {
        store,
        journal,
        place,
        path,
        file,
    };
    serve::is_served(rt, &mut keeper, source, laid)
}

// The input is standard input, or the night's lines. False where something failed, after a word on standard error.
pub fn is_served(rt: &HostRuntime, path: &[u8], source: Source, laid: &[u8]) -> bool {
    if path.is_empty() {
        return is_kept(rt, path, None, source, laid);
    }
    match file::opened(rt, path) {
        Some(file) => is_kept(rt, path, Some(file), source, laid),
        None => false,
    }
}
