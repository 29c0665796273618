// Dead past values out of their table: the others keep their order, and the room is used again.
ghost use Rattle.std.specs.Prelude.{Option, IsTrue, ◌↔◌, EachIndex, slice_index_or, false, ◌≡◌, true, List, map, ◌++◌, ℕ, ◌≤◌, ◌<◌, ◌+◌, length, take, drop};
ghost use Rattle.model.specs.Lists.{kept, rising_from, all_b};
ghost use Rattle.tables.specs.Rows.{pasts};
ghost use Rattle.tables.specs.Lookups.{last_before, in_scope, stays_by};
ghost use Rattle.tables.specs.Compaction.{chosen, Compacted};

use crate::{PastTable, Snapshots};
use model::Past;

// A row is judged where the scope is its page, or every page.
fn in_scope(q: Past, scope: Option<u64>) -> bool
    ensures { result ≡ in_scope scope q }
{
    match scope {
        Some(page) => q.object / 16 == page,
        None => true,
    }
}

// A row that is judged stays where it is live; s is the last known snapshot before the row's end.
fn stays(q: Past, horizon: u64, s: u64, marks: &[u64; 32]) -> bool
    ensures { (scope : Option ℕ) (known : List ℕ) → in_scope scope q ≡ true → s ≡ last_before known q.until → result ≡ stays_by scope horizon known marks.now q }
{
    if crate::lookups::beyond(q, horizon) {
        return true;
    }
    let page = (q.object / 16) as usize;
    let marked = if page < 32 { marks[page] } else { 0 };
    crate::lookups::wants(q, s, marked)
}

// Of the rows that are judged, those that stay go to the front in their order; the result is their count.
pub fn compact(rows: &mut [Past], stay: &[bool]) -> usize
    requires { length stay.now ≤ length rows.old }
    ensures { Compacted stay.now (length stay.now) rows.old rows.new result }
{
    let mut k: usize = 0;
    for (i, stays) in stay.iter().enumerate() {
        rows[k] = rows[i];
        k += usize::from(*stays);
    }
    k
}

// The n rows from `from` on, as structs.
fn unpacked(t: &PastTable, from: usize, n: usize) -> [Past; 16]
    requires { (n ≤ 16) × («from» + n ≤ 256) }
    ensures { take n result ≡ take n (drop «from» (pasts t.now)) }
{
    let mut rows = [Past {
        object: 0,
        from: 0,
        until: 0,
        value: 0,
    }; 16];
    for i in 0..n {
        rows[i] = crate::past_at(t, from + i);
    }
    rows
}

// Which of the n rows from `from` on stay. Rows that one commit displaced end together, and their search is made once.
fn judged(
    t: &PastTable,
    from: usize,
    n: usize,
    scope: Option<u64>,
    horizon: u64,
    snapshots: &Snapshots,
    known: usize,
    marks: &[u64; 32],
) -> [bool; 16]
    requires { (n ≤ 16) × («from» + n ≤ 256) × (known ≤ 64) × (rising_from 0 (take known snapshots.now) ≡ true) }
    ensures { take n result ≡ take n (map (stays_by scope horizon (take known snapshots.now) marks.now) (drop «from» (pasts t.now))) }
{
    let mut stay = [false; 16];
    let mut until: u64 = 0;
    let mut s: u64 = 0;
    for i in 0..n {
        let q = crate::past_at(t, from + i);
        if in_scope(q, scope) {
            if q.until != until {
                until = q.until;
                s = crate::lookups::last_before(snapshots, known, until);
            }
            stay[i] = stays(q, horizon, s, marks);
        } else {
            stay[i] = true;
        }
    }
    stay
}

fn all_stay(stay: &[bool]) -> bool
    ensures { IsTrue result ↔ EachIndex stay.now (λ k. slice_index_or stay.now k false ≡ true) }
{
    stay.iter().all(|stays| *stays)
}

// Rows back as words, from `at` on.
fn pack(t: &mut PastTable, rows: &[Past], at: usize)
    requires { at + length rows.now ≤ 256 }
    ensures { (take (at + length rows.now) (pasts t.new) ≡ take at (pasts t.old) ++ rows.now) × (drop (at + length rows.now) (pasts t.new) ≡ drop (at + length rows.now) (pasts t.old)) }
{
    for (i, row) in rows.iter().enumerate() {
        crate::put_past(t, at + i, *row);
    }
}

// Of the rows from `from` on, as many as are judged, those that stay go to the place `at`; the result is the place behind them.
// Where nothing has gone yet and all stay, they stand there already.
fn drop_some(t: &mut PastTable, from: usize, at: usize, stay: &[bool]) -> usize
    requires { (at ≤ «from») × (length stay.now ≤ 16) × («from» + length stay.now ≤ 256) }
    ensures { (result ≤ «from» + length stay.now) × (take result (pasts t.new) ≡ take at (pasts t.old) ++ chosen stay.now (take (length stay.now) (drop «from» (pasts t.old)))) × (drop («from» + length stay.now) (pasts t.new) ≡ drop («from» + length stay.now) (pasts t.old)) }
{
    let n = stay.len();
    if at == from && all_stay(stay) {
        return from + n;
    }
    let mut rows = unpacked(t, from, n);
    let kept = compact(&mut rows[..n], stay);
    pack(t, &rows[..kept], at);
    at + kept
}

// Keeps the rows that stay; the result is their count. Sixteen rows at a time.
pub fn drop_dead(
    t: &mut PastTable,
    n: usize,
    scope: Option<u64>,
    horizon: u64,
    snapshots: &Snapshots,
    known: usize,
    marks: &[u64; 32],
) -> usize
    requires { (n ≤ 256) × (known ≤ 64) × (rising_from 0 (take known snapshots.now) ≡ true) }
    ensures { (take result (pasts t.new) ≡ kept (stays_by scope horizon (take known snapshots.now) marks.now) (take n (pasts t.old))) × (result ≡ length (kept (stays_by scope horizon (take known snapshots.now) marks.now) (take n (pasts t.old)))) × (length (pasts t.new) ≡ 256) }
{
    let mut at: usize = 0;
    for from in (0..n).step_by(16) {
        let some = (n - from).min(16);
        let stay = judged(t, from, some, scope, horizon, snapshots, known, marks);
        at = drop_some(t, from, at, &stay[..some]);
    }
    at
}
