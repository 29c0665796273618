// Pages and buffers out of shape, and the order of the refusals.
use crate::calls::Call;
use crate::small::{into, read};
use crate::store::{Small, empty};

fn two() -> Small {
    empty(100, 50).snap(10).snap(20)
}

fn pages(rt: &HostRuntime) {
    let s = two();
    read(rt, 1001, s, Call::Snapshot(20), 31);
    read(rt, 1001, s, Call::Snapshot(20), 32);
    read(rt, 1001, s, Call::Snapshot(20), 18446744073709551615);
    read(rt, 1001, s, Call::Clock(0), 32);
    read(rt, 1001, s, Call::Current, 31);
    read(rt, 1001, s, Call::Current, 32);
}

fn short(rt: &HostRuntime, call: Call) {
    let mut buffer = [99; 15];
    into(rt, 1002, two(), call, 0, &mut buffer);
}

fn long(rt: &HostRuntime, call: Call) {
    let mut buffer = [99; 17];
    into(rt, 1003, two(), call, 0, &mut buffer);
}

fn buffers(rt: &HostRuntime) {
    short(rt, Call::Snapshot(20));
    short(rt, Call::Clock(0));
    short(rt, Call::Current);
    long(rt, Call::Snapshot(20));
    long(rt, Call::Clock(0));
    long(rt, Call::Current);
}

fn orders(rt: &HostRuntime) {
    read(rt, 1004, two(), Call::Snapshot(101), 32);
    read(rt, 1005, two(), Call::Snapshot(9), 32);
    let damaged = two().snap(20);
    read(rt, 1006, damaged, Call::Snapshot(20), 32);
    read(rt, 1006, damaged, Call::Current, 32);
    read(rt, 1006, damaged, Call::Clock(72057594037927936), 0);
    read(rt, 1007, damaged, Call::Snapshot(101), 0);
}

pub fn lines(rt: &HostRuntime) {
    pages(rt);
    buffers(rt);
    orders(rt);
}
