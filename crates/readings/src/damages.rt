// Each kind of damage alone.
use crate::full;
use crate::full::heads;
use crate::small::{every, snapshot};
use crate::store::{Small, empty};

const END: usize = 18446744073709551615;

const LAST: u64 = 18446744073709551615;

// A row in each table, but no snapshot.
fn unread() -> Small {
    empty(600, 500)
        .entry(3, 290, 300, 7)
        .was(4, 200, 300, 8)
        .copy(1, 512)
}

// The same with two snapshots: a store with no damage.
pub fn sound() -> Small {
    unread().snap(256).snap(512)
}

fn counts(rt: &HostRuntime) {
    full::every(rt, 401, heads(129, 256, 64, 128));
    full::every(rt, 402, heads(128, 257, 64, 128));
    full::every(rt, 403, heads(128, 256, 65, 128));
    full::every(rt, 404, heads(128, 256, 64, 129));
}

fn ends(rt: &HostRuntime) {
    full::every(rt, 405, heads(END, 256, 64, 128));
    full::every(rt, 406, heads(128, END, 64, 128));
    full::every(rt, 407, heads(128, 256, END, 128));
    full::every(rt, 408, heads(128, 256, 64, END));
}

fn rows(rt: &HostRuntime) {
    let s = sound();
    every(rt, 409, s);
    every(rt, 410, s.entry(512, 1, 1, 1));
    every(rt, 411, s.was(512, 1, 2, 1));
    every(rt, 412, s.copy(32, 1));
    every(rt, 413, s.entry(3, 400, 400, 9));
}

fn stamps(rt: &HostRuntime) {
    let s = sound();
    every(rt, 414, unread().snap(0).snap(256).snap(512));
    every(rt, 415, s.snap(601));
    every(rt, 416, s.snap(512));
    every(rt, 417, s.snap(511));
}

fn large(rt: &HostRuntime) {
    let s = sound();
    snapshot(rt, 418, s.entry(LAST, 1, 1, 1), 260);
    snapshot(rt, 419, s.was(LAST, 1, 2, 1), 260);
    snapshot(rt, 420, s.copy(LAST, 1), 260);
    snapshot(rt, 421, s.snap(LAST), 260);
}

pub fn lines(rt: &HostRuntime) {
    counts(rt);
    ends(rt);
    rows(rt);
    stamps(rt);
    large(rt);
}
