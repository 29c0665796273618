// Stamps at the ends of their range: 0, 1 and 2^64 - 1.
use crate::calls::Call;
use crate::small::{read, snapshot};
use crate::store::{Small, empty};

const END: u64 = 18446744073709551615;

// The snapshots 1 and 2^64 - 1.
fn ends() -> Small {
    empty(END, 0).snap(1).snap(END)
}

fn horizons(rt: &HostRuntime) {
    let one = empty(1, 0).snap(1);
    let s = ends();
    snapshot(rt, 201, s, 0);
    snapshot(rt, 201, s, 1);
    snapshot(rt, 201, s, END - 1);
    snapshot(rt, 201, s, END);
    snapshot(rt, 202, one, 1);
    snapshot(rt, 202, one, 2);
    snapshot(rt, 202, one, END);
    snapshot(rt, 203, empty(END, 0), END);
}

fn latest(rt: &HostRuntime) {
    let s = ends();
    snapshot(rt, 204, s.entry(3, 0, 0, 7), 1);
    snapshot(rt, 205, s.entry(3, 1, 1, 7), 1);
    snapshot(rt, 206, s.entry(3, 1, END, 7), 1);
    snapshot(rt, 206, s.entry(3, 1, END, 7), END);
    snapshot(rt, 207, s.entry(3, 1, 1, END), 1);
}

fn spans(rt: &HostRuntime) {
    let s = ends();
    snapshot(rt, 208, s.was(3, 0, 0, 7), 1);
    snapshot(rt, 209, s.was(3, 0, 1, 7), 1);
    snapshot(rt, 210, s.was(3, 0, 2, 7), 1);
    snapshot(rt, 211, s.was(3, 1, 0, 7), 1);
    snapshot(rt, 212, s.was(3, 1, 2, 7), 1);
}

fn long_spans(rt: &HostRuntime) {
    let s = ends();
    snapshot(rt, 213, s.was(3, 0, END, 7), 1);
    snapshot(rt, 213, s.was(3, 0, END, 7), END);
    snapshot(rt, 214, s.was(3, 1, END, 7), 1);
    snapshot(rt, 215, s.was(3, END, END, 7), END);
    snapshot(rt, 216, s.was(3, END, 0, 7), END);
}

fn copies(rt: &HostRuntime) {
    let s = ends();
    snapshot(rt, 217, s.copy(0, 0), 1);
    snapshot(rt, 218, s.copy(0, 1), 1);
    snapshot(rt, 218, s.copy(0, 1), END);
    snapshot(rt, 219, s.copy(0, END), 1);
    snapshot(rt, 219, s.copy(0, END), END);
    read(rt, 219, s.copy(0, END), Call::Current, 0);
}

pub fn lines(rt: &HostRuntime) {
    horizons(rt);
    latest(rt);
    spans(rt);
    long_spans(rt);
    copies(rt);
}
