// A journal listed, a line for each record, and how its walk ends. The file is only read.
use crate::say;
use answers::line::Line;
use files::{file, fit, names, paths, trouble};
use model::Answer;
use std::fs::File;
use tables::Store;
use terminal::say::line;

// No journal has so many records.
const MOST: u64 = 65536;

// The records from the first one on up to a place. False where standard output takes no more.
fn are_said(rt: &HostRuntime, journal: &[u8], end: usize) -> bool {
    let mut at: usize = 1;
    let mut said = Line::new();
    for _ in 0..MOST {
        if end <= at {
            return true;
        }
        let Some(behind) = listing::record_at(journal, at, &mut said) else {
            return true;
        };
        if !line(rt, &said) {
            return false;
        }
        at = behind;
    }
    true
}

// Where and why the walk ends: at the end, at a record that isn't all there, or at one that is refused.
fn is_ended(rt: &HostRuntime, answer: Answer, place: usize, length: usize) -> bool {
    if !answer.is_done() {
        return say::refusal(rt, answer);
    }
    if place < length {
        return say::torn(rt, place as u64, (length - place) as u64);
    }
    say::end(rt, place as u64)
}

// A walk that is refused for a record ends before it, any other refusal before the first.
fn end_of(answer: Answer, place: usize) -> usize {
    match answer {
        Answer::Malformed(at) => at as usize,
        Answer::Contradiction(at) => at as usize,
        _ => place,
    }
}

// What a restart from the bytes answers decides how far the records go.
fn are_listed(rt: &HostRuntime, journal: &[u8]) -> bool {
    let mut store = Store::empty();
    let started = restart::restart(&mut store, journal);
    let answer = started.answer;
    let place = started.place.at;
    are_said(rt, journal, end_of(answer, place)) && is_ended(rt, answer, place, journal.len())
}

fn is_read(rt: &HostRuntime, path: &[u8], opened: &File) -> bool {
    let mut journal = io::large_buffer();
    match file::read(rt, path, Some(opened), &mut journal) {
        Some(count) => {
            let n = paths::within(count, &journal);
            are_listed(rt, &journal[..n])
        }
        None => false,
    }
}

// False where the file can't be read or standard output takes no more, after a word on standard error.
pub fn list(rt: &HostRuntime, path: &[u8]) -> bool {
    if !fit::is_fit(rt, path, b"a journal") {
        return false;
    }
    match names::open_read(rt, path) {
        Ok(opened) => is_read(rt, path, &opened),
        Err(error) => {
            trouble::fail(rt, path, &error);
            false
        }
    }
}
