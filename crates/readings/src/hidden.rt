// What is no damage: the same oddities in rows past their count, a dead past row, and rows at the ends of their range.
use crate::damages::sound;
use crate::small::every;
use crate::store::Small;

// Back to the counts of the sound store.
fn hide(rt: &HostRuntime, label: u64, s: Small) {
    every(rt, label, s.counts(1, 1, 2, 1));
}

fn rows(rt: &HostRuntime) {
    let s = sound();
    hide(rt, 501, s.entry(512, 1, 1, 1));
    hide(rt, 502, s.was(512, 1, 2, 1));
    hide(rt, 503, s.copy(32, 1));
    hide(rt, 504, s.entry(3, 400, 400, 9));
}

fn stamps(rt: &HostRuntime) {
    let s = sound();
    hide(rt, 505, s.snap(0));
    hide(rt, 506, s.snap(601));
    hide(rt, 507, s.snap(512));
    hide(rt, 508, s.snap(511));
}

// Rows of page 0 that would be seen.
fn contents(rt: &HostRuntime) {
    let s = sound();
    hide(rt, 509, s.entry(5, 1, 1, 9));
    hide(rt, 510, s.was(5, 1, 600, 9));
    hide(rt, 511, s.copy(0, 256));
    hide(rt, 512, s.snap(600));
}

fn taken(rt: &HostRuntime) {
    let s = sound();
    every(rt, 513, s.was(5, 10, 20, 9));
    every(
        rt,
        514,
        s.entry(511, 1, 1, 1)
            .was(511, 1, 2, 1)
            .copy(31, 1)
            .snap(600),
    );
}

pub fn lines(rt: &HostRuntime) {
    rows(rt);
    stamps(rt);
    contents(rt);
    taken(rt);
}
