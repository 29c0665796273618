// What the store says of a commit, and what the commit would displace.
ghost use Rattle.std.specs.Prelude.{◌≡◌, true, false, List, map, ℕ, ◌+◌, ◌≤◌, ◌<◌, max, length, leb, MatchOption};
ghost use Rattle.model.specs.declared.Pending.{Pending};
ghost use Rattle.model.specs.Lists.{both};
ghost use Rattle.model.specs.Changes.{Write, paired, closed, commit_store};
ghost use Rattle.model.specs.Judgement.{judge_commit};
ghost use Rattle.tables.specs.Rows.{pendings, pasts};
ghost use Rattle.tables.specs.Lookups.{find_pending, Indexed};
ghost use Rattle.tables.specs.Contents.{stored, Counted};
ghost use Rattle.commits.specs.Rows.{trues, new_in, live_in, displaces_in};
ghost use Rattle.commits.specs.Promises.{Ready, Room, Sound, value_at};

use model::{Answer, Past, Pending, Verdict};
use tables::{Heads, Index, Store, Written};

// The newest stamp that the store has heard of: a commit comes after it.
fn newest(h: Heads) -> u64
    ensures { result ≡ max h.last h.horizon }
{
    h.last.max(h.horizon)
}

// The tables that a commit writes have the rows of their types.
// Kept: a contract knows the rows of a table that is lent or stands in a lent struct, and not of one in a struct in that.
pub(crate) fn rows(written: &Written)
    ensures { (length (pendings written.now.pending) ≡ 128) × (length (pasts written.now.past) ≡ 256) }
{
    let _ = &written.pending;
}

// The past value that an entry leaves where a write at t displaces it.
fn close(e: Pending, object: u64, t: u64) -> Past
    ensures { result ≡ closed e object t }
{
    Past {
        object,
        from: e.latest,
        until: t,
        value: e.value,
    }
}

// A past value is live, by the snapshots and the copies that the heads count.
#[tactic(auto, using(tables::proofs::Rows::copies_length))]
fn lives(store: &Store, q: Past) -> bool
    requires { Sound store.now }
    ensures { result ≡ live_in (stored store.now) q }
{
    tables::lookups::live(
        q,
        store.heads.horizon,
        &store.snapshots,
        store.heads.snapshots,
        &store.copies,
        store.heads.copies,
    )
}

// The row of an object's pending entry, by the index.
pub(crate) fn row_of(index: &Index, object: u64) -> Option<usize>
    requires { object < 512 }
    ensures { (es : List Pending) → length es ≤ 128 → Indexed index.now es → result ≡ find_pending object es }
{
    let row = index[object as usize] as usize;
    if row < 128 { Some(row) } else { None }
}

// The value that a write at t displaces in a row, if it is live.
pub(crate) fn displaced(store: &Store, row: usize, object: u64, t: u64) -> Option<Past>
    requires { Sound store.now × (row < 128) }
    ensures { MatchOption result (live_in (stored store.now) (value_at store.now row object t) ≡ false) (λ q. (q ≡ value_at store.now row object t) × (live_in (stored store.now) q ≡ true)) }
{
    let q = close(tables::pending_at(&store.written.pending, row), object, t);
    if lives(store, q) {
        return Some(q);
    }
    None
}

// How many entries and how many past values a commit's writes add.
#[derive(Clone, Copy)]
pub struct Weight {
    pub entries: usize,
    pub rows: usize,
}

// No object is named twice, so each write is weighed over the tables as they are before the first.
fn weigh(store: &Store, t: u64, objects: &[u64], index: &Index) -> Weight
    requires { Ready store.now objects.now index.now }
    ensures entries_value { result.entries ≡ trues (map (new_in (stored store.now).pending) objects.now) }
    ensures by_index { result.rows ≡ trues (map (displaces_in (live_in (stored store.now)) t (stored store.now).pending) objects.now) }
{
    rows(&store.written);
    let mut entries: usize = 0;
    let mut rows: usize = 0;
    for object in objects {
        match row_of(index, *object) {
            Some(row) => {
                if displaced(store, row, *object, t).is_some() {
                    rows += 1;
                }
            }
            None => entries += 1,
        }
    }
    Weight { entries, rows }
}

// What the store says of the commit: Late, Pending full, Past full, or accepted.
pub fn judge_commit(store: &Store, t: u64, objects: &[u64], index: &Index) -> Verdict
    requires { Ready store.now objects.now index.now }
    ensures { (vs : List ℕ) → length vs ≡ length objects.now → result ≡ judge_commit (stored store.now) t (paired objects.now vs) }
{
    let latest = newest(store.heads);
    if t <= latest {
        return Verdict::Refused(Answer::Late(latest));
    }
    let w = weigh(store, t, objects, index);
    if 128 - store.heads.pending < w.entries {
        return Verdict::Refused(Answer::PendingFull);
    }
    if 256 - store.heads.past < w.rows {
        return Verdict::Refused(Answer::PastFull);
    }
    Verdict::Accepted
}

// What the store says of a commit that fits: Late, or accepted.
pub fn judge_with_room(store: &Store, t: u64) -> Verdict
    ensures { (ws : List Write) → Room (commit_store (stored store.now) t ws) → result ≡ judge_commit (stored store.now) t ws }
{
    let newest = newest(store.heads);
    if t <= newest {
        return Verdict::Refused(Answer::Late(newest));
    }
    Verdict::Accepted
}

// A commit of so many writes fits, whatever they add.
pub fn roomy(h: Heads, count: usize) -> bool
    requires { Counted h × (count ≤ 16) }
    ensures { result ≡ both (leb (h.pending + count) 128) (leb (h.past + count) 256) }
{
    if h.pending + count <= 128 {
        h.past + count <= 256
    } else {
        false
    }
}
