// A page's entries: their buried rows are added to the past, then they go to disk and the others stay pending.
ghost use Rattle.std.specs.Prelude.{◌≡◌, [], ℕ, ◌++◌, ◌<◌, ◌≤◌, length, take, get_or};
ghost use Rattle.model.specs.Changes.{of_page};
ghost use Rattle.tables.specs.Rows.{pending_of, pendings, pasts};
ghost use Rattle.shares.specs.Shares.{rows_at};
ghost use Rattle.flushes.specs.Parts.{Ruled, graves, Holding, Settled};

use crate::rows::Rule;
use tables::{Snapshots, Written};

// Adds the rows that the numbered entries leave, behind the m that there are; the result is the new count.
pub fn bury(w: &mut Written, numbers: &[u8], m: usize, snapshots: &Snapshots, rule: Rule) -> usize
    requires inside { ((j : ℕ) → j < length numbers.now → get_or numbers.now j 0 < 128) × Ruled snapshots.now rule }
    requires m_bound { (m ≤ 256) × (length (take m (pasts w.old.past) ++ graves w.old.disk w.old.dated snapshots.now rule (rows_at (pending_of []) (pendings w.old.pending) numbers.now)) ≤ 256) }
    ensures rows { Holding w.new.past result (take m (pasts w.old.past) ++ graves w.old.disk w.old.dated snapshots.now rule (rows_at (pending_of []) (pendings w.old.pending) numbers.now)) }
    ensures others { (w.new.disk ≡ w.old.disk) × (w.new.dated ≡ w.old.dated) × (w.new.pending ≡ w.old.pending) }
{
    let past = &mut w.past;
    let mut k = m;
    for number in numbers {
        let e = tables::pending_at(&w.pending, *number as usize);
        if rule.leaves(&w.disk, &w.dated, e, snapshots) {
            let q = crate::rows::buried(&w.disk, &w.dated, e);
            tables::put_past(past, k, q);
            k += 1;
        }
    }
    k
}

// The page's entries among the first n go to disk; the result is the count of the others.
pub fn settle(w: &mut Written, n: usize, page: u64) -> usize
    requires { (n ≤ 128) × (page < 32) }
    ensures { Settled page (take n (pendings w.old.pending)) w.old w.new result }
{
    let mut k: usize = 0;
    for i in 0..n {
        let e = tables::pending_at(&w.pending, i);
        if crate::rows::of_page(e, page) {
            let at = e.object as usize;
            w.disk[at] = e.value;
            w.dated[at] = e.latest;
        } else {
            tables::move_pending(&mut w.pending, i, k);
            k += 1;
        }
    }
    k
}
