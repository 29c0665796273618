// The searches: each goes once over the rows of one table. Those that follow a definition by recursion on the rows go from
// the last row to the first. The snapshots ascend, and the search in them leaps.
ghost use Rattle.std.specs.Prelude.{◌≡◌, true, false, List, [], ℕ, ◌-◌, ◌≤◌, ◌<◌, length, take, get_or, eqb, ltb, leb};
ghost use Rattle.model.specs.Lists.{all_b, rising_from};
ghost use Rattle.model.specs.Store.{mark, page_of, beyond_b, live_b};
ghost use Rattle.model.specs.Reads.{largest};
ghost use Rattle.tables.specs.Rows.{past_of, pasts, copy_head_of, copy_heads, copies_of};
ghost use Rattle.tables.specs.Lookups.{trimmed, Serving, last_before, wants_b, wanted_b};

use crate::{CopyTable, PastTable, Snapshots};
use model::Past;

// The largest of the first n snapshots at or before a time, or 0. They ascend, so it is the last of those at or before it.
pub fn largest_known(snapshots: &Snapshots, n: usize, time: u64) -> u64
    requires { (n ≤ 64) × (rising_from 0 (take n snapshots.now) ≡ true) }
    ensures { result ≡ largest time (take n snapshots.now) }
{
    let k = up_to(snapshots, n, leap(snapshots, n, time), time);
    if k == 0 {
        return 0;
    }
    snapshots[k - 1]
}

// Eight snapshots at a step: how many are passed while the last of a step is at or before the time.
fn leap(snapshots: &Snapshots, n: usize, time: u64) -> usize
    requires { n ≤ 64 }
    ensures { (result ≤ n) × (0 < result → get_or snapshots.now (result - 1) 0 ≤ time) }
{
    // Kept: `partition_point` took a tenth more instructions in 64 snapshots and a seventh more in 32; a range by steps would name its end twice.
    let mut k: usize = 0;
    while k + 8 <= n {
        if time < snapshots[k + 7] {
            return k;
        }
        k += 8;
    }
    k
}

// How many of the first n snapshots are at or before a time, where those before a start are.
fn up_to(snapshots: &Snapshots, n: usize, from: usize, time: u64) -> usize
    requires { (n ≤ 64) × («from» ≤ n) × (0 < «from» → get_or snapshots.now («from» - 1) 0 ≤ time) }
    ensures { (result ≤ n) × (0 < result → get_or snapshots.now (result - 1) 0 ≤ time) × (result < n → time < get_or snapshots.now result 0) }
{
    for k in from..n {
        if time < snapshots[k] {
            return k;
        }
    }
    n
}

// The mark of a page by the first n copies. The other pages' are passed over in a search of their own, which waits for nothing.
pub fn mark_of(t: &CopyTable, n: usize, page: u64) -> u64
    requires { n ≤ 128 }
    ensures { (words : List ℕ) → result ≡ mark (take n (copies_of (copy_heads t.now) words)) page }
{
    let mut best: u64 = 0;
    // Kept: no range, since each turn leaps to the page's next row.
    let mut i = trimmed_copies(t, n, page);
    while 0 < i {
        best = best.max(crate::copy_at(t, i - 1).stamp);
        i = trimmed_copies(t, i - 1, page);
    }
    best
}

// The marks of all pages, by page number.
pub fn marks_of(t: &CopyTable, n: usize, marks: &mut [u64; 32])
    requires { (n ≤ 128) × (all_b (λ c. ltb c.page 32) (take n (copy_heads t.now)) ≡ true) }
    ensures { ((words : List ℕ) (p : ℕ) → get_or marks.new p 0 ≡ mark (take n (copies_of (copy_heads t.now) words)) p) × (length marks.new ≡ 32) }
{
    marks.fill(0);
    for i in (0..n).rev() {
        let c = crate::copy_at(t, i);
        let page = c.page as usize;
        let stamp = c.stamp;
        if marks[page] < stamp {
            marks[page] = stamp;
        }
    }
}

// Of the first n rows, those up to the last that passes.
fn up_to_last<F: Fn(usize) -> bool>(n: usize, passes: F) -> usize
    requires { (i : ℕ) → i < n → F.pre passes i }
    ensures inside { result ≤ n }
    ensures last { 0 < result → F.post passes (result - 1) true }
    ensures others { (i : ℕ) → result ≤ i → i < n → F.post passes i false }
{
    for i in (0..n).rev() {
        if passes(i) {
            return i + 1;
        }
    }
    0
}

// Of the first n copies, those up to the page's last.
fn trimmed_copies(t: &CopyTable, n: usize, page: u64) -> usize
    requires { n ≤ 128 }
    ensures { (result ≡ trimmed (λ c. eqb c.page page) (copy_head_of []) (copy_heads t.now) n) × (result ≤ n) }
{
    up_to_last(n, |i| crate::copy_at(t, i).page == page)
}

// Of the first n past rows, those up to the page's last.
pub fn trimmed_past(t: &PastTable, n: usize, page: u64) -> usize
    requires { n ≤ 256 }
    ensures { (result ≡ trimmed (λ q. eqb (page_of q.object) page) (past_of []) (pasts t.now) n) × (result ≤ n) }
{
    up_to_last(n, |i| crate::past_at(t, i).object / 16 == page)
}

// The page's oldest copy with stamp >= s, the first row among equals: from the last row to the first, so that a row as old as
// the best one takes its place.
pub fn serving(t: &CopyTable, n: usize, page: u64, s: u64) -> Option<usize>
    requires { n ≤ 128 }
    ensures { Serving page s n (copy_heads t.now) result }
{
    let mut best = u64::MAX;
    // Kept: a row number with n for none, and no Option in the loop: that took four instructions more for each copy.
    let mut at = n;
    for i in (0..n).rev() {
        let c = crate::copy_at(t, i);
        if c.page == page {
            if s <= c.stamp {
                if c.stamp <= best {
                    best = c.stamp;
                    at = i;
                }
            }
        }
    }
    if at < n { Some(at) } else { None }
}

// Some stamp of the row's span is beyond the horizon.
pub fn beyond(q: Past, horizon: u64) -> bool
    ensures { result ≡ beyond_b horizon q }
{
    q.from < q.until && horizon < q.until - 1
}

// The last of the first n snapshots before a stamp, or 0.
pub fn last_before(snapshots: &Snapshots, n: usize, until: u64) -> u64
    requires { (n ≤ 64) × (rising_from 0 (take n snapshots.now) ≡ true) }
    ensures { result ≡ last_before (take n snapshots.now) until }
{
    if until == 0 {
        return 0;
    }
    largest_known(snapshots, n, until - 1)
}

// A stamp is not before the row's span, and is beyond a mark.
pub fn wants(q: Past, s: u64, marked: u64) -> bool
    ensures { result ≡ wants_b s marked q }
{
    q.from <= s && marked < s
}

// Some known snapshot lies in the row's span, beyond a mark: if any does, the last one before the span's end.
pub fn wanted(q: Past, snapshots: &Snapshots, n: usize, marked: u64) -> bool
    requires { (n ≤ 64) × (rising_from 0 (take n snapshots.now) ≡ true) }
    ensures { result ≡ wanted_b (take n snapshots.now) marked q }
{
    wants(q, last_before(snapshots, n, q.until), marked)
}

// A page's mark is at a stamp or behind it: some copy of the page is.
fn archived(t: &CopyTable, n: usize, page: u64, stamp: u64) -> bool
    requires { (n ≤ 128) × (0 < stamp) }
    ensures { (words : List ℕ) → result ≡ leb stamp (mark (take n (copies_of (copy_heads t.now) words)) page) }
{
    for i in (0..n).rev() {
        let c = crate::copy_at(t, i);
        if c.page == page {
            if stamp <= c.stamp {
                return true;
            }
        }
    }
    false
}

// A past value is live.
pub fn live(
    q: Past,
    horizon: u64,
    snapshots: &Snapshots,
    known: usize,
    copies: &CopyTable,
    n: usize,
) -> bool
    requires { (known ≤ 64) × (n ≤ 128) × (rising_from 0 (take known snapshots.now) ≡ true) }
    ensures { (words : List ℕ) → result ≡ live_b horizon (take known snapshots.now) (take n (copies_of (copy_heads copies.now) words)) q }
{
    if beyond(q, horizon) {
        return true;
    }
    let s = last_before(snapshots, known, q.until);
    if !wants(q, s, 0) {
        return false;
    }
    !archived(copies, n, q.object / 16, s)
}
