// Pages served by an archived copy.
use crate::calls::Call;
use crate::small::{read, snapshot};
use crate::store::{Small, empty};

fn five() -> Small {
    empty(100, 50).snap(10).snap(20).snap(30).snap(40).snap(50)
}

fn equal(rt: &HostRuntime) {
    let s = five().copy(0, 20).copy(0, 20);
    snapshot(rt, 601, s, 10);
    snapshot(rt, 601, s, 20);
    snapshot(rt, 601, s, 30);
    snapshot(rt, 602, five().copy(0, 40).copy(0, 20).copy(0, 20), 10);
}

fn several(rt: &HostRuntime) {
    let s = five().copy(0, 30).copy(0, 20).copy(0, 40);
    snapshot(rt, 603, s, 10);
    snapshot(rt, 603, s, 20);
    snapshot(rt, 603, s, 30);
    snapshot(rt, 603, s, 40);
    snapshot(rt, 603, s, 50);
}

fn others(rt: &HostRuntime) {
    let s = five().copy(1, 20);
    read(rt, 604, s, Call::Snapshot(20), 0);
    read(rt, 604, s, Call::Snapshot(20), 1);
    read(rt, 604, s, Call::Snapshot(30), 1);
    snapshot(rt, 605, s.copy(0, 30), 10);
}

fn over(rt: &HostRuntime) {
    let s = five().entry(3, 5, 5, 7).was(4, 5, 25, 8).copy(0, 20);
    read(rt, 606, s, Call::Snapshot(20), 0);
    read(rt, 606, s, Call::Snapshot(30), 0);
    read(rt, 606, s, Call::Clock(0), 0);
    read(rt, 606, s, Call::Current, 0);
}

pub fn lines(rt: &HostRuntime) {
    equal(rt);
    several(rt);
    others(rt);
    over(rt);
}
