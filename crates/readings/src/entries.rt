// Pending values.
use crate::calls::Call;
use crate::small::{read, snapshot};
use crate::store::{Small, empty};

fn ten() -> Small {
    empty(100, 50).snap(10)
}

fn stamps(rt: &HostRuntime) {
    let s = ten();
    snapshot(rt, 801, s.entry(3, 5, 10, 7), 10);
    snapshot(rt, 802, s.entry(3, 5, 10, 7).was(3, 5, 25, 71), 10);
    snapshot(rt, 803, s.entry(3, 5, 11, 7), 10);
    snapshot(rt, 804, s.entry(3, 5, 11, 7).was(3, 5, 11, 71), 10);
    snapshot(rt, 805, s.entry(3, 11, 10, 7), 10);
}

fn pages(rt: &HostRuntime) {
    read(rt, 806, ten().entry(3, 5, 101, 7), Call::Current, 0);
    let s = ten().entry(19, 5, 10, 7);
    read(rt, 807, s, Call::Snapshot(10), 0);
    read(rt, 807, s, Call::Snapshot(10), 1);
    read(rt, 807, s, Call::Current, 0);
    read(rt, 807, s, Call::Current, 1);
}

pub fn lines(rt: &HostRuntime) {
    stamps(rt);
    pages(rt);
}
