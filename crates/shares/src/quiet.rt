// The newest of a page's writing stamps up to a bound: behind it, and up to the bound, nothing of the page was written.
ghost use Rattle.std.specs.Prelude.{◌≡◌, ℕ, ◌+◌, ◌<◌, ◌≤◌, length, get_or};
ghost use Rattle.model.specs.Store.{object_at};
ghost use Rattle.shares.specs.Shares.{rows_at, Shared};
ghost use Rattle.shares.specs.Lulls.{newer_of, newest_of, Still};

use crate::Share;
use model::{Past, Pending};
use tables::{Disk, Heads, Written};
use views::rows::Row;

// The larger of a stamp and the newest so far, where it isn't beyond the bound.
fn newer(newest: u64, stamp: u64, bound: u64) -> u64
    ensures { result ≡ newer_of bound newest stamp }
{
    if bound < stamp {
        newest
    } else {
        newest.max(stamp)
    }
}

// The newest of the stamps that wrote the page's values on disk: as of every stamp they are what shows where nothing else does.
fn newest_on_disk(dated: &Disk, page: u64) -> u64
    requires { page < 32 }
    ensures { (k : ℕ) → k < 16 → get_or dated.now (object_at page k) 0 ≤ result }
{
    let at = 16 * (page as usize);
    let mut newest: u64 = 0;
    for stamp in &dated[at..at + 16] {
        newest = newest.max(*stamp);
    }
    newest
}

// The newest of a stamp and of those up to the bound that wrote the numbered rows.
fn newest<R: Row>(t: &R::Table, numbers: &[u8], bound: u64, least: u64) -> u64
    requires { (j : ℕ) → j < length numbers.now → get_or numbers.now j 0 < R.room }
    ensures { result ≡ newest_of (λ r. (R.seen_of r).stamp) bound least (rows_at R.blank (R.rows t.now) numbers.now) }
{
    let mut newest = least;
    for number in numbers {
        let r = R::at(t, usize::from(*number));
        newest = newer(newest, r.seen().stamp, bound);
    }
    newest
}

// The newest of the page's stamps on disk, and of those up to the bound that wrote its past rows and its entries.
pub fn newest_up_to(w: &Written, h: Heads, page: u64, share: &Share, bound: u64) -> u64
    requires shared { Shared w.now h page share.now }
    requires counts { (h.pending ≤ 128) × (h.past ≤ 256) × (page < 32) }
    ensures still { Still w.now h page (record { from = result; until = bound + 1 }) }
    ensures by_index { (k : ℕ) → k < 16 → get_or w.now.dated (object_at page k) 0 ≤ result }
{
    let a = newest_on_disk(&w.dated, page);
    let b = newest::<Past>(&w.past, share.rows.listed(), bound, a);
    newest::<Pending>(&w.pending, share.entries.listed(), bound, b)
}
