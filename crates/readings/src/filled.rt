// Tables with all their rows. The last row's object, snapshot or page is the caller's.
use tables::{CopyTable, PastTable, PendingTable, Snapshots};

// Row i is object i, latest i + 5, value 1000 + i.
pub fn pending(t: &mut PendingTable, last: u64) {
    for (i, row) in t.iter_mut().enumerate() {
        let o = i as u64;
        *row = [o, 1, o + 5, 1000 + o];
    }
    t[127] = [last, 1, 132, 1127];
}

// Row i is object i, from i until i + 10, value 2000 + i.
pub fn past(t: &mut PastTable, last: u64) {
    for (i, row) in t.iter_mut().enumerate() {
        let o = i as u64;
        *row = [o, o, o + 10, 2000 + o];
    }
    t[255] = [last, 255, 265, 2255];
}

// 10, 20, .. 640.
pub fn snapshots(t: &mut Snapshots, last: u64) {
    for (i, stamp) in t.iter_mut().enumerate() {
        *stamp = 10 * (i as u64 + 1);
    }
    t[63] = last;
}

// Row i is page i modulo 32, stamp i + 1.
pub fn copies(t: &mut CopyTable, last: u64) {
    for (i, row) in t.iter_mut().enumerate() {
        let o = i as u64;
        *row = [o % 32, o + 1];
    }
    t[127] = [last, 128];
}
