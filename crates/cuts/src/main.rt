// Restart from every leading part of a small journal, and from that journal with each of its bytes changed in turn.
#![tactic(auto)]

mod write;

use tables::{Heads, Store};

// Every word is 1: what is empty after a restart was emptied by it.
fn mark_used(store: &mut Store) {
    store.written.disk.fill(1);
    store.written.dated.fill(1);
    store.written.pending.fill([1; 4]);
    store.written.past.fill([1; 4]);
    store.snapshots.fill(1);
    store.copies.fill([1; 2]);
    store.copied.fill(1);
    store.heads = Heads {
        pending: 1,
        past: 1,
        snapshots: 1,
        copies: 1,
        horizon: 1,
        last: 1,
    };
}

// Restart from these bytes, as a line: the answer, the place, standing.
fn restarted(rt: &HostRuntime, store: &mut Store, before: &[u8], n: usize, journal: &[u8]) {
    mark_used(store);
    let started = restart::restart(store, journal);
    prints::number(rt, before, n as u64);
    prints::answered(rt, started.answer);
    prints::number(rt, b", place ", started.place.at as u64);
    if let Some(figures) = reads::standing(store) {
        prints::figures(rt, figures);
    }
    prints::end(rt);
}

fn cut(rt: &HostRuntime, store: &mut Store, before: &[u8], journal: &[u8], n: usize) {
    if n <= journal.len() {
        restarted(rt, store, before, n, &journal[..n]);
    }
}

fn cuts(rt: &HostRuntime, store: &mut Store, journal: &[u8]) {
    for n in 0..=journal.len() {
        cut(rt, store, b"first ", journal, n);
    }
}

// Each byte in turn is one more, and set back after.
fn changed(rt: &HostRuntime, store: &mut Store, journal: &mut [u8]) {
    for i in 0..journal.len() {
        let b = journal[i];
        journal[i] = b.wrapping_add(1);
        restarted(rt, store, b"byte ", i, journal);
        journal[i] = b;
    }
}

fn both(rt: &HostRuntime, store: &mut Store, journal: &mut [u8], used: usize) {
    if used <= journal.len() {
        cuts(rt, store, &journal[..used]);
        changed(rt, store, &mut journal[..used]);
    }
}

fn small(rt: &HostRuntime, store: &mut Store) {
    let mut journal = [0u8; 200];
    let used = write::four(rt, &mut journal);
    both(rt, store, &mut journal, used);
}

// The night's item 13.
fn night(rt: &HostRuntime, store: &mut Store) {
    let mut journal = [0u8; 200];
    write::one(rt, &mut journal);
    cut(rt, store, b"item 13, first ", &journal, 22);
    cut(rt, store, b"item 13, first ", &journal, 0);
}

// Document 02, request [1]: a request is no record of a journal.
fn request(rt: &HostRuntime, store: &mut Store) {
    let journal = [
        1u8, 0, 17, 4, 0, 0, 0, 0, 0, 0, 0, 0, 0, 0, 0, 0, 0, 0, 2, 88,
    ];
    cut(rt, store, b"request, first ", &journal, 19);
    cut(rt, store, b"request, first ", &journal, 20);
}

fn main(rt: HostRuntime) {
    let mut store = Store::empty();
    small(&rt, &mut store);
    night(&rt, &mut store);
    request(&rt, &mut store);
}
