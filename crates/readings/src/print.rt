// The lines that the program writes.
use model::{Answer, Figures};

// The label of a store.
pub fn label(rt: &HostRuntime, label: u64) {
    prints::item(rt, label);
}

pub fn text(rt: &HostRuntime, name: &[u8]) {
    prints::text(rt, name);
}

pub fn number(rt: &HostRuntime, n: u64) {
    prints::number(rt, b" ", n);
}

// What a read answers, all words of its buffer, and the line's end.
pub fn shown(rt: &HostRuntime, a: Answer, buffer: &[u64]) {
    prints::answered(rt, a);
    prints::page(rt, buffer);
    prints::end(rt);
}

// What standing answers, and the line's end.
pub fn stood(rt: &HostRuntime, a: Answer, f: Figures) {
    prints::answered(rt, a);
    prints::figures(rt, f);
    prints::end(rt);
}
