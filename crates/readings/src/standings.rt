// Standing's counts and its lag.
use crate::small::stood;
use crate::store::empty;

const END: u64 = 18446744073709551615;

fn counts(rt: &HostRuntime) {
    let s = empty(100, 50)
        .entry(3, 5, 10, 7)
        .was(3, 5, 10, 8)
        .was(4, 5, 10, 8)
        .copy(0, 10)
        .copy(1, 10)
        .copy(2, 10);
    stood(rt, 1201, s.snap(10).snap(20).snap(30).snap(40).snap(50));
}

// A store with no rows is its horizon and its last commit.
fn near(rt: &HostRuntime) {
    stood(rt, 1202, empty(256, 512));
    stood(rt, 1203, empty(256, 256));
    stood(rt, 1204, empty(512, 256));
}

fn within(rt: &HostRuntime) {
    stood(rt, 1205, empty(256, 511));
    stood(rt, 1206, empty(511, 256));
    stood(rt, 1207, empty(511, 512));
    stood(rt, 1208, empty(512, 511));
}

fn far(rt: &HostRuntime) {
    stood(rt, 1209, empty(0, END));
    stood(rt, 1210, empty(END, 0));
    stood(rt, 1211, empty(END, END));
}

pub fn lines(rt: &HostRuntime) {
    counts(rt);
    near(rt);
    within(rt);
    far(rt);
}
