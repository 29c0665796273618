// A fresh store: every word is 0.
use crate::calls;
use crate::calls::Call;
use tables::Store;

fn read(rt: &HostRuntime, call: Call) {
    let store = Store::empty();
    let mut buffer = [99; 16];
    calls::line(rt, 101, &store, call, 0, &mut buffer);
}

pub fn lines(rt: &HostRuntime) {
    read(rt, Call::Snapshot(0));
    read(rt, Call::Snapshot(1));
    read(rt, Call::Snapshot(18446744073709551615));
    read(rt, Call::Clock(0));
    read(rt, Call::Clock(1));
    read(rt, Call::Current);
    read(rt, Call::Standing);
}
