// The calls over a small store. A buffer starts with 99 in each word.
use crate::calls::Call;
use crate::store::Small;
use crate::{calls, lay};
use tables::Store;

pub fn into(rt: &HostRuntime, label: u64, s: Small, call: Call, page: u64, buffer: &mut [u64]) {
    let mut store = Store::empty();
    lay::disk(&mut store.written.disk);
    lay::dated(&mut store.written.dated);
    lay::pending(&mut store.written.pending, s.pending);
    lay::past(&mut store.written.past, s.past);
    lay::snapshots(&mut store.snapshots, s.known);
    lay::copies(&mut store.copies, s.copies);
    lay::copied(&mut store.copied);
    store.heads = s.heads;
    calls::line(rt, label, &store, call, page, buffer);
}

pub fn read(rt: &HostRuntime, label: u64, s: Small, call: Call, page: u64) {
    let mut buffer = [99; 16];
    into(rt, label, s, call, page, &mut buffer);
}

pub fn snapshot(rt: &HostRuntime, label: u64, s: Small, time: u64) {
    read(rt, label, s, Call::Snapshot(time), 0);
}

pub fn stood(rt: &HostRuntime, label: u64, s: Small) {
    read(rt, label, s, Call::Standing, 0);
}

// Each of the four calls.
pub fn every(rt: &HostRuntime, label: u64, s: Small) {
    read(rt, label, s, Call::Snapshot(260), 0);
    read(rt, label, s, Call::Clock(1), 0);
    read(rt, label, s, Call::Current, 0);
    read(rt, label, s, Call::Standing, 0);
}
