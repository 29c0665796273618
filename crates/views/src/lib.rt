// A page looked at through the tables: sixteen words over which first the past values and then the pending entries are laid.
#![tactic(auto)]

pub mod rows;

ghost use Rattle.std.specs.Prelude.{◌≡◌, false, List, map, ℕ, ◌≤◌, ◌<◌, ◌+◌, length, take, drop, get_or};
ghost use Rattle.model.specs.Lists.{twice_b};
ghost use Rattle.model.specs.Store.{page16, object_at, slot_of, pending_seen, past_seen};
ghost use Rattle.tables.specs.Rows.{pendings, pasts};
ghost use Rattle.tables.specs.Lookups.{Indexed};
ghost use Rattle.tables.specs.Contents.{contents};
ghost use Rattle.views.specs.Views.{lay, part_of, viewed, covers_b, shows_b, Lookable};

use model::Seen;
use tables::{Heads, Index, PastTable, PendingTable, Written};

// A value, or its age, which is the stamp that wrote it.
#[derive(Clone, Copy)]
pub enum Word {
    Value,
    Age,
}

impl Word {
    // The word of a value and its stamp.
    pub fn of(self, seen: Seen) -> u64
        ensures { result ≡ part_of self seen }
    {
        match self {
            Word::Value => seen.value,
            Word::Age => seen.stamp,
        }
    }
}

// What is asked of a page: the values or their ages, as of a stamp, or current where there is none.
#[derive(Clone, Copy)]
pub struct View {
    pub page: u64,
    pub as_of: Option<u64>,
    pub word: Word,
}

fn copy_sixteen(words: &[u64], at: usize, out: &mut [u64])
    requires { (at + 16 ≤ length words.now) × (length out.old ≡ 16) }
    ensures { out.new ≡ take 16 (drop at words.now) }
{
    // Kept: `copy_from_slice` tests first whether the two overlap, four instructions more for each page's words.
    for k in 0..16 {
        out[k] = words[at + k];
    }
}

// Sixteen words from a place on. All are read before the first is written, so that the compiler may move several at a time.
pub fn sixteen(words: &[u64], at: usize, out: &mut [u64])
    requires { (at + 16 ≤ length words.now) × (length out.old ≡ 16) }
    ensures { out.new ≡ take 16 (drop at words.now) }
{
    let mut held = [0u64; 16];
    copy_sixteen(words, at, &mut held);
    copy_sixteen(&held, 0, out);
}

// The page's sixteen words on disk. A look at a page of an empty store is little more than this.
#[inline(always)]
pub fn lay_disk(w: &Written, page: u64, word: Word, out: &mut [u64])
    requires { (page < 32) × (length out.old ≡ 16) }
    ensures { out.new ≡ page16 (λ k. part_of word (record { value = get_or w.now.disk (object_at page k) 0; stamp = get_or w.now.dated (object_at page k) 0 })) }
{
    let at = 16 * (page as usize);
    match word {
        Word::Value => sixteen(&w.disk, at, out),
        Word::Age => sixteen(&w.dated, at, out),
    }
}

// From the last of the page's rows to the first, so that the first that covers stays.
fn lay_pasts(t: &PastTable, n: usize, v: View, out: &mut [u64])
    requires { (n ≤ 256) × (length out.old ≡ 16) }
    ensures { out.new ≡ lay (covers_b v) (λ q. slot_of q.object) (λ q. part_of v.word (past_seen q)) (take n (pasts t.now)) out.old }
{
    let mut i = tables::lookups::trimmed_past(t, n, v.page);
    // Kept: from row to row of the page; a `for` over all rows took two instructions more for each, a fifth of the whole look.
    while 0 < i {
        i -= 1;
        let q = tables::past_at(t, i);
        rows::lay_row(q, (q.object % 16) as usize, v, out);
        i = tables::lookups::trimmed_past(t, i, v.page);
    }
}

// Slot by slot, each object's entry found by the index. No two entries are of one object, so their order doesn't matter.
fn lay_pendings(t: &PendingTable, n: usize, index: &Index, v: View, out: &mut [u64])
    requires indexed { Indexed index.now (take n (pendings t.now)) × (twice_b (map (λ e. e.object) (take n (pendings t.now))) ≡ false) }
    requires bounds { (n ≤ 128) × (v.page < 32) × (length out.old ≡ 16) }
    ensures { out.new ≡ lay (shows_b v) (λ e. slot_of e.object) (λ e. part_of v.word (pending_seen e)) (take n (pendings t.now)) out.old }
{
    let at = 16 * (v.page as usize);
    for k in 0..16 {
        let row = usize::from(index[at + k]);
        if row < n {
            rows::lay_row(tables::pending_at(t, row), k, v, out);
        }
    }
}

// The page as the view asks, where no copy serves.
pub fn look_at(w: &Written, h: Heads, index: &Index, view: View, out: &mut [u64])
    requires lookable { Lookable w.now h view.page }
    requires indexed { Indexed index.now (take h.pending (pendings w.now.pending)) }
    requires out_len { length out.old ≡ 16 }
    ensures { (snapshots : List ℕ) (copies : List (List ℕ)) (copied : List ℕ) → out.new ≡ page16 (λ k. viewed (contents w.now.disk w.now.dated w.now.pending w.now.past snapshots copies copied h) view (object_at view.page k)) }
{
    lay_disk(w, view.page, view.word, out);
    if view.as_of.is_some() {
        lay_pasts(&w.past, h.past, view, out);
    }
    if 0 < h.pending {
        lay_pendings(&w.pending, h.pending, index, view, out);
    }
}
