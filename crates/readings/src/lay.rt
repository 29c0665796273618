// The rows of a small store laid in tables. The disk and the words of the copies are the same for all.
use model::{Past, Pending};
use tables::{Copied, CopyHead, CopyTable, Disk, PastTable, PendingTable, Snapshots};

// Each object's value is its number.
pub fn disk(t: &mut Disk) {
    for (i, value) in t.iter_mut().enumerate() {
        *value = i as u64;
    }
}

// The disk's stamps, which play no part in a read.
pub fn dated(t: &mut Disk) {
    t.fill(18446744073709551615);
}

// Copy 0 has the words 100 to 115, copy 1 the words 200 to 215, and so on.
pub fn copied(t: &mut Copied) {
    for (i, word) in t.iter_mut().enumerate() {
        let i = i as u64;
        *word = 100 * (i / 16 + 1) + i % 16;
    }
}

pub fn pending(t: &mut PendingTable, rows: [Pending; 3]) {
    for (i, row) in rows.iter().enumerate() {
        tables::put_pending(t, i, *row);
    }
}

pub fn past(t: &mut PastTable, rows: [Past; 3]) {
    for (i, row) in rows.iter().enumerate() {
        tables::put_past(t, i, *row);
    }
}

pub fn snapshots(t: &mut Snapshots, rows: [u64; 5]) {
    t[..5].copy_from_slice(&rows);
}

pub fn copies(t: &mut CopyTable, rows: [CopyHead; 3]) {
    for (i, row) in rows.iter().enumerate() {
        tables::put_copy(t, i, *row);
    }
}
