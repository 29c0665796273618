// Ticks at the ends of their range, and about a snapshot and the horizon.
use crate::calls::Call;
use crate::small::read;
use crate::store::{Small, empty};

fn tick(rt: &HostRuntime, label: u64, s: Small, t: u64) {
    read(rt, label, s, Call::Clock(t), 0);
}

// The last tick is the stamp 2^64 - 256, and the horizon is beyond it.
fn last(rt: &HostRuntime) {
    let s = empty(18446744073709551615, 0)
        .snap(1)
        .snap(18446744073709551360)
        .snap(18446744073709551361);
    tick(rt, 1101, s, 0);
    tick(rt, 1101, s, 1);
    tick(rt, 1101, s, 72057594037927935);
    tick(rt, 1101, s, 72057594037927936);
    tick(rt, 1101, s, 18446744073709551615);
}

// The horizon is one stamp before the last tick.
fn short(rt: &HostRuntime) {
    let s = empty(18446744073709551359, 0);
    tick(rt, 1102, s, 72057594037927935);
    tick(rt, 1102, s, 72057594037927936);
}

fn early(rt: &HostRuntime) {
    let s = empty(512, 0).snap(256).snap(257);
    tick(rt, 1103, s, 0);
    tick(rt, 1103, s, 1);
    tick(rt, 1103, s, 2);
    tick(rt, 1103, s, 3);
}

pub fn lines(rt: &HostRuntime) {
    last(rt);
    short(rt);
    early(rt);
}
