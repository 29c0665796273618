// Damaged, exactly document 01's list: tested for every content of the tables and every value of the heads.
#![tactic(auto)]

ghost use Rattle.std.specs.Prelude.{◌≡◌, ◌<◌, ◌^◌, Bool, false, List, map, ℕ, ◌≤◌, length, take, get_or, ltb, leb};
ghost use Rattle.model.specs.Lists.{either, any_b, twice_b};
ghost use Rattle.model.specs.Damage as model;
ghost use Rattle.tables.specs.Rows.{pendings, pasts, copy_heads, copies_of};
ghost use Rattle.tables.specs.Lookups.{Indexed};
ghost use Rattle.tables.specs.Contents.{stored, Counted};
ghost use Rattle.damage.specs.Sifted.{Sifted};

use tables::{CopyTable, Heads, Index, PastTable, PendingTable, Store};

// A count is over its limit.
fn overfull(h: Heads) -> bool
    ensures { result ≡ either (ltb 128 h.pending) (either (ltb 256 h.past) (either (ltb 64 h.snapshots) (ltb 128 h.copies))) }
{
    128 < h.pending || 256 < h.past || 64 < h.snapshots || 128 < h.copies
}

// The numbers at the rows' fronts, joined bit by bit. A limit that is a power of two is kept by all of them just when it is kept by their join.
fn joined<const W: usize>(rows: &[[u64; W]]) -> u64
    requires { 0 < W }
    ensures { (k : ℕ) → leb (2 ^ k) result ≡ any_b (λ row. leb (2 ^ k) (get_or row 0 0)) rows.now }
{
    let mut all: u64 = 0;
    for row in rows {
        all |= row[0];
    }
    all
}

// An object number is out of range.
fn pending_out(t: &PendingTable, n: usize) -> bool
    requires { n ≤ 128 }
    ensures { result ≡ any_b (λ e. leb 512 e.object) (take n (pendings t.now)) }
{
    512 <= joined(&t[..n])
}

fn past_out(t: &PastTable, n: usize) -> bool
    requires { n ≤ 256 }
    ensures { result ≡ any_b (λ q. leb 512 q.object) (take n (pasts t.now)) }
{
    512 <= joined(&t[..n])
}

// A page number is out of range.
fn copies_out(t: &CopyTable, n: usize) -> bool
    requires { n ≤ 128 }
    ensures { (words : List ℕ) → result ≡ any_b (λ c. leb 32 c.page) (take n (copies_of (copy_heads t.now) words)) }
{
    32 <= joined(&t[..n])
}

// Two of the entries are of one object; where none are, the index tells the row of each object's entry.
// No entry ends the loop early: fresh stays 128 until an object comes that has a row already.
pub fn met_again(t: &PendingTable, n: usize, index: &mut Index) -> bool
    requires { (n ≤ 128) × (any_b (λ e. leb 512 e.object) (take n (pendings t.now)) ≡ false) × ((o : ℕ) → get_or index.old o 128 ≡ 128) }
    ensures { (result ≡ twice_b (map (λ e. e.object) (take n (pendings t.now)))) × (result ≡ false → Indexed index.new (take n (pendings t.now))) }
{
    let mut fresh: u8 = 128;
    for i in 0..n {
        let object = tables::pending_at(t, i).object as usize;
        fresh &= index[object];
        index[object] = i as u8;
    }
    fresh < 128
}

// A count or a number is out of its range, or the snapshots don't ascend to the horizon: all of Damaged but two entries of one object.
pub fn out_of_range(store: &Store) -> bool
    ensures { Sifted result store.now }
{
    rows(&store.written.pending, &store.written.past);
    let h = store.heads;
    overfull(h)
        || pending_out(&store.written.pending, h.pending)
        || past_out(&store.written.past, h.past)
        || copies_out(&store.copies, h.copies)
        || !rules::ascending_within(0, h.horizon, &store.snapshots[..h.snapshots])
}

// A contract knows the length of a lent array, and not of an array in a struct further in. Compiled, nothing is left of this.
fn rows(pending: &PendingTable, past: &PastTable)
    ensures { (length (pendings pending.now) ≡ 128) × (length (pasts past.now) ≡ 256) }
{}

// Damaged; where it is not, the index tells the row of each object's entry. It comes with 128 for every object.
pub fn damaged_or_indexed(store: &Store, index: &mut Index) -> bool
    requires { (o : ℕ) → get_or index.old o 128 ≡ 128 }
    ensures { (result ≡ model.damaged (stored store.now)) × (result ≡ false → Indexed index.new (take store.now.heads.pending (pendings store.now.written.pending))) × (result ≡ false → Counted store.now.heads × (twice_b (map (λ e. e.object) (take store.now.heads.pending (pendings store.now.written.pending))) ≡ false)) }
{
    out_of_range(store) || met_again(&store.written.pending, store.heads.pending, index)
}

pub fn damaged(store: &Store) -> bool
    ensures { result ≡ model.damaged (stored store.now) }
{
    if out_of_range(store) {
        return true;
    }
    // One entry alone is no second one.
    if store.heads.pending < 2 {
        return false;
    }
    let mut index = [128u8; 512];
    met_again(&store.written.pending, store.heads.pending, &mut index)
}
