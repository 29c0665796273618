// A word on standard error where a journal has become more than nine tenths full.
use crate::trouble;

// The bytes that a journal may have, and nine tenths of them.
pub const MOST: usize = 65535;

const MUCH: usize = 58981;

pub fn tell(rt: &HostRuntime, path: &[u8], before: usize, now: usize) {
    if MUCH < before {
        return;
    }
    if now <= MUCH {
        return;
    }
    if MOST < now {
        return;
    }
    trouble::begin(rt, path, b"over nine tenths full: ");
    trouble::number(rt, now as u64);
    trouble::more(rt, b" bytes used, ");
    trouble::number(rt, (MOST - now) as u64);
    trouble::end(rt, b" left");
}
