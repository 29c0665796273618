// A page's past rows by a rule: which stay, which entries leave one, and how many there are of each.
ghost use Rattle.std.specs.Prelude.{◌≡◌, Bool, ℕ, [], ◌+◌, ◌<◌, ◌≤◌, length, take, get_or};
ghost use Rattle.model.specs.Lists.{kept};
ghost use Rattle.model.specs.Changes.{of_page};
ghost use Rattle.tables.specs.Rows.{pending_of, past_of, pendings, pasts};
ghost use Rattle.shares.specs.Shares.{row_of_page, rows_at, Numbered};
ghost use Rattle.flushes.specs.Parts.{Ruled, rule_of, stays_under, buried_in, leaves_under, Holding};

use model::{Past, Pending};
use tables::{Disk, Heads, PastTable, Snapshots, Store};
use views::rows::Row;

// How a page's past rows are judged: the page, its mark after the flush, the horizon, and how many snapshots are known.
// Kept: the snapshots stand beside a rule. In it they would be a reference, with a lifetime at each use and its value in each clause.
#[derive(Clone, Copy)]
pub struct Rule {
    pub page: u64,
    pub mark: u64,
    pub horizon: u64,
    pub known: usize,
}

impl Rule {
    pub(crate) fn new(h: Heads, page: u64, mark: u64) -> Self
        ensures { result ≡ rule_of h page mark }
    {
        Rule {
            page,
            mark,
            horizon: h.horizon,
            known: h.snapshots,
        }
    }

    // A row of another page stays, and so does a live one.
    fn stays(self, q: Past, snapshots: &Snapshots) -> bool
        requires { Ruled snapshots.now self }
        ensures { result ≡ stays_under snapshots.now self q }
    {
        q.object / 16 != self.page
            || tables::lookups::beyond(q, self.horizon)
            || tables::lookups::wanted(q, snapshots, self.known, self.mark)
    }

    // The entry is of the page, and its buried row stays.
    pub(crate) fn leaves(self, disk: &Disk, dated: &Disk, e: Pending, snapshots: &Snapshots) -> bool
        requires { Ruled snapshots.now self }
        ensures { result ≡ leaves_under disk.now dated.now snapshots.now self e }
    {
        of_page(e, self.page) && self.stays(buried(disk, dated, e), snapshots)
    }
}

pub fn of_page(e: Pending, page: u64) -> bool
    ensures { result ≡ of_page page e }
{
    e.object / 16 == page
}

// The row of the disk's old value, which the entry's takes the place of.
pub fn buried(disk: &Disk, dated: &Disk, e: Pending) -> Past
    requires { e.object < 512 }
    ensures { result ≡ buried_in disk.now dated.now e }
{
    let at = e.object as usize;
    Past {
        object: e.object,
        from: dated[at],
        until: e.first,
        value: disk[at],
    }
}

// How many of the numbered rows pass a test.
fn count<R: Row, F: Fn(R) -> bool>(t: &R::Table, numbers: &[u8], test: F) -> usize
    requires callable { F.IsAlwaysCallable test }
    requires inside { (j : ℕ) → j < length numbers.now → get_or numbers.now j 0 < R.room }
    ensures passed { (p : R → Bool) → ((r : R) (b : Bool) → F.post test r b → b ≡ p r) → result ≡ length (kept p (rows_at R.blank (R.rows t.now) numbers.now)) }
    ensures fewer { result ≤ length numbers.now }
{
    let mut n: usize = 0;
    for number in numbers {
        if test(R::at(t, usize::from(*number))) {
            n += 1;
        }
    }
    n
}

// Of the first n rows those of other pages stay, and some of those that are numbered.
pub fn count_staying(
    past: &PastTable,
    n: usize,
    numbers: &[u8],
    snapshots: &Snapshots,
    rule: Rule,
) -> usize
    requires numbered { Numbered (past_of []) (row_of_page rule.page) (pasts past.now) n numbers.now }
    requires n_bound { (n ≤ 256) × Ruled snapshots.now rule }
    ensures { (result ≡ length (kept (stays_under snapshots.now rule) (take n (pasts past.now)))) × (result ≤ n) }
{
    let others = n - numbers.len();
    others + count::<Past, _>(past, numbers, |q| rule.stays(q, snapshots))
}

pub fn count_leaving(store: &Store, numbers: &[u8], rule: Rule) -> usize
    requires numbered { Numbered (pending_of []) (of_page rule.page) (pendings store.now.written.pending) store.now.heads.pending numbers.now }
    requires n_bound { (store.now.heads.pending ≤ 128) × Ruled store.now.snapshots rule }
    ensures { (result ≡ length (kept (leaves_under store.now.written.disk store.now.written.dated store.now.snapshots rule) (take store.now.heads.pending (pendings store.now.written.pending)))) × (result ≤ store.now.heads.pending) }
{
    let w = &store.written;
    count::<Pending, _>(&w.pending, numbers, |e| {
        rule.leaves(&w.disk, &w.dated, e, &store.snapshots)
    })
}

// Keeps the rows that stay, of which the count is known; the result is it. Where all stay nothing is moved.
pub fn drop_rows(
    past: &mut PastTable,
    n: usize,
    staying: usize,
    snapshots: &Snapshots,
    rule: Rule,
) -> usize
    requires n_bound { (n ≤ 256) × Ruled snapshots.now rule }
    requires staying_value { staying ≡ length (kept (stays_under snapshots.now rule) (take n (pasts past.old))) }
    ensures { Holding past.new result (kept (stays_under snapshots.now rule) (take n (pasts past.old))) }
{
    if staying == n {
        return n;
    }
    let mut marks = [0u64; 32];
    marks[rule.page as usize] = rule.mark;
    tables::dropping::drop_dead(
        past,
        n,
        Some(rule.page),
        rule.horizon,
        snapshots,
        rule.known,
        &marks,
    )
}
