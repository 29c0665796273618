// Journals made by the public calls on a fresh store; each answers its used length.
use changes::settling::Changed;
use changes::{committing, flushing, gossiping};
use journal::place::Place;
use tables::Store;

fn told(rt: &HostRuntime, before: &[u8], n: u64, done: Changed) -> Place {
    prints::number(rt, before, n);
    prints::answered(rt, done.answer);
    prints::end(rt);
    done.place
}

// All three kinds of record, four of them: commit 100 of 0 = 7 and 17 = 3, gossip 0, 110, {105}, flush 0, commit 120 of 0 = 9.
pub fn four(rt: &HostRuntime, journal: &mut [u8]) -> usize {
    let mut store = Store::empty();
    let begun = Place { at: 0 };
    let done = committing::commit(&mut store, journal, begun, 100, &[0, 17], &[7, 3]);
    let used = told(rt, b"commit ", 100, done);
    let done = gossiping::gossip(&mut store, journal, used, 0, 110, &[105]);
    let used = told(rt, b"gossip to ", 110, done);
    let done = flushing::flush(&mut store, journal, used, 0);
    let used = told(rt, b"flush ", 0, done);
    let done = committing::commit(&mut store, journal, used, 120, &[0], &[9]);
    told(rt, b"commit ", 120, done).at
}

// The night's item 1: commit 100 of 0 = 7.
pub fn one(rt: &HostRuntime, journal: &mut [u8]) {
    let mut store = Store::empty();
    let begun = Place { at: 0 };
    let done = committing::commit(&mut store, journal, begun, 100, &[0], &[7]);
    told(rt, b"item 1, commit ", 100, done);
}
