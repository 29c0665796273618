// Times about the snapshots and the horizon.
use crate::small::snapshot;
use crate::store::empty;

fn known(rt: &HostRuntime) {
    let s = empty(100, 50).snap(10).snap(20);
    snapshot(rt, 901, s, 0);
    snapshot(rt, 901, s, 9);
    snapshot(rt, 901, s, 10);
    snapshot(rt, 901, s, 19);
    snapshot(rt, 901, s, 20);
    snapshot(rt, 901, s, 100);
    snapshot(rt, 901, s, 101);
}

fn none(rt: &HostRuntime) {
    let s = empty(100, 50);
    snapshot(rt, 902, s, 100);
    snapshot(rt, 902, s, 101);
}

pub fn lines(rt: &HostRuntime) {
    known(rt);
    none(rt);
}
