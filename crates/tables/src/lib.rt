// The store's tables, lent by the caller: rows of words, read and written as the model's rows.
#![tactic(auto)]

pub mod dropping;
pub mod lookups;

ghost use Rattle.std.specs.Prelude.{◌≡◌, ◌<◌, set};
ghost use Rattle.tables.specs.Rows.{pendings, pasts, copy_heads, pending_at, past_at, copy_head_at, touched};
ghost use Rattle.model.specs.Store.{fresh};
ghost use Rattle.tables.specs.Contents.{Laid, stored};

use model::{Past, Pending};

// A word for each object: the disk's values, and the stamps of the commits that wrote them.
pub type Disk = [u64; 512];

// object, first, latest, value
pub type PendingTable = [[u64; 4]; 128];

// object, from, until, value
pub type PastTable = [[u64; 4]; 256];

// Known snapshots.
pub type Snapshots = [u64; 64];

// page, stamp
pub type CopyTable = [[u64; 2]; 128];

// Sixteen words for each copy.
pub type Copied = [u64; 2048];

// For each object the row of its pending entry, 128 where it has none.
pub type Index = [u8; 512];

// The counts of the tables, the horizon and the last commit.
#[repr(C)]
#[derive(Clone, Copy)]
pub struct Heads {
    pub pending: usize,
    pub past: usize,
    pub snapshots: usize,
    pub copies: usize,
    pub horizon: u64,
    pub last: u64,
}

// What the commits wrote: each object's value on disk and the stamp of that, the pending entries, the past values.
#[repr(C)]
#[derive(Drop)]
pub struct Written {
    pub disk: Disk,
    pub dated: Disk,
    pub pending: PendingTable,
    pub past: PastTable,
}

// The whole store: its tables, and their heads, which say how many rows of each count.
#[repr(C)]
#[derive(Drop)]
pub struct Store {
    pub written: Written,
    pub snapshots: Snapshots,
    pub copies: CopyTable,
    pub copied: Copied,
    pub heads: Heads,
}

impl Store {
    // A store without a row.
    pub fn empty() -> Store
        ensures { stored result ≡ fresh }
    {
        Store {
            written: Written {
                disk: [0; 512],
                dated: [0; 512],
                pending: [[0; 4]; 128],
                past: [[0; 4]; 256],
            },
            snapshots: [0; 64],
            copies: [[0; 2]; 128],
            copied: [0; 2048],
            heads: Heads {
                pending: 0,
                past: 0,
                snapshots: 0,
                copies: 0,
                horizon: 0,
                last: 0,
            },
        }
    }
}

#[derive(Clone, Copy)]
pub struct CopyHead {
    pub page: u64,
    pub stamp: u64,
}

// Kept: a reader and a writer for each kind of row. A trait for rows would hold the same six bodies, and its laws between them and their contracts.
pub fn pending_at(t: &PendingTable, i: usize) -> Pending
    requires { i < 128 }
    ensures { result ≡ pending_at (pendings t.now) i }
{
    let row = t[i];
    Pending {
        object: row[0],
        first: row[1],
        latest: row[2],
        value: row[3],
    }
}

pub fn put_pending(t: &mut PendingTable, i: usize, e: Pending)
    requires { i < 128 }
    ensures { pendings t.new ≡ set (pendings t.old) i e }
{
    let row = [e.object, e.first, e.latest, e.value];
    t[i] = row;
}

// Another latest stamp and value for an entry, which keeps its object and its first stamp.
pub fn rewrite_pending(t: &mut PendingTable, i: usize, latest: u64, value: u64)
    requires { i < 128 }
    ensures { pendings t.new ≡ set (pendings t.old) i (touched (pending_at (pendings t.old) i) latest value) }
{
    let row = t[i];
    let new = [row[0], row[1], latest, value];
    t[i] = new;
}

// A row to another place of its table.
pub fn move_pending(t: &mut PendingTable, from: usize, to: usize)
    requires { («from» < 128) × (to < 128) }
    ensures { pendings t.new ≡ set (pendings t.old) to (pending_at (pendings t.old) «from») }
{
    let row = t[from];
    t[to] = row;
}

pub fn past_at(t: &PastTable, i: usize) -> Past
    requires { i < 256 }
    ensures { result ≡ past_at (pasts t.now) i }
{
    let row = t[i];
    Past {
        object: row[0],
        from: row[1],
        until: row[2],
        value: row[3],
    }
}

pub fn put_past(t: &mut PastTable, i: usize, q: Past)
    requires { i < 256 }
    ensures { pasts t.new ≡ set (pasts t.old) i q }
{
    let row = [q.object, q.from, q.until, q.value];
    t[i] = row;
}

pub fn copy_at(t: &CopyTable, i: usize) -> CopyHead
    requires { i < 128 }
    ensures { result ≡ copy_head_at (copy_heads t.now) i }
{
    let row = t[i];
    CopyHead {
        page: row[0],
        stamp: row[1],
    }
}

pub fn put_copy(t: &mut CopyTable, i: usize, c: CopyHead)
    requires { i < 128 }
    ensures { copy_heads t.new ≡ set (copy_heads t.old) i c }
{
    let row = [c.page, c.stamp];
    t[i] = row;
}

// A contract knows the length of an array by value, and not of a lent one. Compiled, the copies are gone.
pub fn laid(
    values: Disk,
    stamps: Disk,
    pending: PendingTable,
    past: PastTable,
    snapshots: Snapshots,
    copies: CopyTable,
    copied: Copied,
)
    ensures { Laid values stamps pending past snapshots copies copied }
{}
