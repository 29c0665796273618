// Damage in the last row of a full table, and the same row just past the count, where it is none.
use crate::calls::Call;
use crate::full::{Last, heads, proper, run};
use tables::Heads;

fn odd(rt: &HostRuntime, label: u64, l: Last, h: Heads) {
    run(rt, label, l, h, Call::Snapshot(125), 7);
}

fn entries(rt: &HostRuntime) {
    let h = heads(128, 256, 64, 128);
    let mut l = proper();
    l.entry = 512;
    odd(rt, 422, l, h);
    odd(rt, 423, l, heads(127, 256, 64, 128));
    l.entry = 0;
    odd(rt, 424, l, h);
    odd(rt, 425, l, heads(127, 256, 64, 128));
}

fn pasts(rt: &HostRuntime) {
    let mut l = proper();
    l.was = 512;
    odd(rt, 426, l, heads(128, 256, 64, 128));
    odd(rt, 427, l, heads(128, 255, 64, 128));
}

fn snaps(rt: &HostRuntime) {
    let h = heads(128, 256, 64, 128);
    let mut l = proper();
    l.snap = 630;
    odd(rt, 428, l, h);
    l.snap = 701;
    odd(rt, 429, l, h);
    odd(rt, 430, l, heads(128, 256, 63, 128));
}

fn copies(rt: &HostRuntime) {
    let mut l = proper();
    l.page = 32;
    odd(rt, 431, l, heads(128, 256, 64, 128));
    odd(rt, 432, l, heads(128, 256, 64, 127));
}

pub fn lines(rt: &HostRuntime) {
    entries(rt);
    pasts(rt);
    snaps(rt);
    copies(rt);
}
