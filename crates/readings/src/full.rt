// The calls over full tables; the counts say how many of the rows are contents.
use crate::calls::Call;
use crate::{calls, filled, lay};
use tables::{Heads, Store};

// The object, object, snapshot and page of the last rows.
#[derive(Clone, Copy)]
pub struct Last {
    pub entry: u64,
    pub was: u64,
    pub snap: u64,
    pub page: u64,
}

pub fn proper() -> Last {
    Last {
        entry: 127,
        was: 255,
        snap: 640,
        page: 31,
    }
}

pub fn heads(pending: usize, past: usize, snapshots: usize, copies: usize) -> Heads {
    Heads {
        pending,
        past,
        snapshots,
        copies,
        horizon: 700,
        last: 800,
    }
}

pub fn run(rt: &HostRuntime, label: u64, l: Last, h: Heads, call: Call, page: u64) {
    let mut store = Store::empty();
    lay::disk(&mut store.written.disk);
    lay::dated(&mut store.written.dated);
    filled::pending(&mut store.written.pending, l.entry);
    filled::past(&mut store.written.past, l.was);
    filled::snapshots(&mut store.snapshots, l.snap);
    filled::copies(&mut store.copies, l.page);
    lay::copied(&mut store.copied);
    store.heads = h;
    let mut buffer = [99; 16];
    calls::line(rt, label, &store, call, page, &mut buffer);
}

fn read(rt: &HostRuntime, label: u64, h: Heads, call: Call, page: u64) {
    run(rt, label, proper(), h, call, page);
}

// Each of the four calls.
pub fn every(rt: &HostRuntime, label: u64, h: Heads) {
    read(rt, label, h, Call::Snapshot(125), 7);
    read(rt, label, h, Call::Clock(1), 7);
    read(rt, label, h, Call::Current, 7);
    read(rt, label, h, Call::Standing, 7);
}

fn rows(rt: &HostRuntime) {
    let entries = heads(128, 0, 64, 0);
    let past = heads(0, 256, 64, 0);
    read(rt, 301, entries, Call::Snapshot(125), 7);
    read(rt, 301, entries, Call::Current, 7);
    read(rt, 302, past, Call::Snapshot(255), 15);
    read(rt, 302, past, Call::Snapshot(260), 15);
    read(rt, 302, past, Call::Current, 15);
}

fn known(rt: &HostRuntime) {
    let h = heads(0, 0, 64, 0);
    read(rt, 303, h, Call::Snapshot(9), 0);
    read(rt, 303, h, Call::Snapshot(10), 0);
    read(rt, 303, h, Call::Clock(2), 0);
    read(rt, 303, h, Call::Snapshot(639), 0);
    read(rt, 303, h, Call::Snapshot(700), 0);
    read(rt, 303, h, Call::Snapshot(701), 0);
}

fn archived(rt: &HostRuntime) {
    let h = heads(0, 0, 64, 128);
    read(rt, 304, h, Call::Snapshot(35), 31);
    read(rt, 304, h, Call::Snapshot(105), 31);
    read(rt, 304, h, Call::Snapshot(135), 31);
    read(rt, 304, h, Call::Current, 31);
}

pub fn lines(rt: &HostRuntime) {
    let h = heads(128, 256, 64, 128);
    rows(rt);
    known(rt);
    archived(rt);
    every(rt, 305, h);
    read(rt, 305, h, Call::Snapshot(105), 7);
}
