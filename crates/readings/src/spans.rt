// Values out of the past.
use crate::calls::Call;
use crate::small::{read, snapshot};
use crate::store::{Small, empty};

fn three() -> Small {
    empty(100, 50).snap(10).snap(20).snap(30)
}

fn pairs(rt: &HostRuntime) {
    let s = three();
    let touching = s.was(3, 5, 20, 71).was(3, 20, 25, 72);
    snapshot(rt, 701, touching, 10);
    snapshot(rt, 701, touching, 20);
    snapshot(rt, 701, touching, 30);
    snapshot(rt, 702, s.was(3, 5, 25, 71).was(3, 5, 25, 72), 20);
    let overlapping = s.was(3, 15, 25, 71).was(3, 5, 28, 72);
    snapshot(rt, 703, overlapping, 10);
    snapshot(rt, 703, overlapping, 20);
}

fn objects(rt: &HostRuntime) {
    let same = three().was(4, 5, 25, 71);
    read(rt, 704, same, Call::Snapshot(10), 0);
    read(rt, 704, same, Call::Current, 0);
    let other = three().was(19, 5, 25, 71);
    read(rt, 705, other, Call::Snapshot(10), 0);
    read(rt, 705, other, Call::Snapshot(10), 1);
}

fn edges(rt: &HostRuntime) {
    let s = three();
    snapshot(rt, 706, s.was(3, 10, 10, 71), 10);
    snapshot(rt, 707, s.was(3, 20, 5, 71), 10);
    snapshot(rt, 708, s.was(3, 10, 11, 71), 10);
    snapshot(rt, 709, s.was(3, 5, 10, 71), 10);
    snapshot(rt, 710, s.was(3, 11, 20, 71), 10);
}

pub fn lines(rt: &HostRuntime) {
    pairs(rt);
    objects(rt);
    edges(rt);
}
