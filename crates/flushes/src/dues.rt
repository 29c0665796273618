// Which known snapshots are due: those beyond the page's mark after which some object of the page was written, as of the next.
ghost use Rattle.std.specs.Prelude.{◌≡◌, [], ℕ, ◌+◌, ◌-◌, ◌*◌, ◌<◌, ◌≤◌, max, length, take, get_or, ltb};
ghost use Rattle.model.specs.Lists.{any_b};
ghost use Rattle.model.specs.Store as model;
ghost use Rattle.shares.specs.Shares.{Shared};
ghost use Rattle.flushes.specs.Parts.{seen_in, dues_seen, Telling, ListedTo, top};
ghost use Rattle.flushes.specs.Promises.{Ready};

use shares::Share;
use shares::listed::Listed;
use tables::{Snapshots, Store};
use views::{View, Word};

// Some word is beyond a stamp.
fn some_beyond(words: &[u64], s: u64) -> bool
    ensures { result ≡ any_b (ltb s) words.now }
{
    words.iter().any(|w| s < *w)
}

// Of the snapshots from low to high, those that their sixteen ages tell due.
fn find_dues(
    snapshots: &Snapshots,
    low: usize,
    high: usize,
    ages: &[u64],
    due: &mut Listed<u64, 64>,
)
    requires { (high ≤ 64) × (16 * (high - low) ≤ length ages.now) × (low ≤ high) × (due.old.items ≡ []) }
    ensures upper_bound { length due.new.items ≤ high - low }
    ensures listed_to { (st : model.Store) (p m n : ℕ) → high ≤ n → n ≤ 64 → Telling st p m snapshots.now n low high ages.now → ListedTo st p m (take n snapshots.now) low high due.new.items }
{
    for j in low..high {
        let s = snapshots[j];
        let at = 16 * (j - low);
        if some_beyond(&ages[at..at + 16], s) {
            due.push(s);
        }
    }
}

// Of the snapshots from low to high, which have known ones behind them, those that are due, with room for sixteen ages of each.
fn list_within(
    store: &Store,
    page: u64,
    share: &Share,
    low: usize,
    high: usize,
    ages: &mut [u64],
    due: &mut Listed<u64, 64>,
)
    requires ready { Ready store.now page }
    requires shared { Shared store.now.written store.now.heads page share.now }
    requires high_bound { (high < store.now.heads.snapshots) × (due.old.items ≡ []) }
    requires low_lt_high { (low < high) × (16 * (high - low) ≤ length ages.old) }
    ensures upper_bound { length due.new.items ≤ high - low }
    ensures by_index { (m : ℕ) → ((i : ℕ) → low ≤ i → i < high → m < get_or store.now.snapshots i 0) → ListedTo (seen_in store.now.written store.now.heads) page m (take store.now.heads.snapshots store.now.snapshots) low (max low high) due.new.items }
{
    let known = &store.snapshots[..];
    shares::many::look_at_all(
        &store.written,
        store.heads,
        share,
        page,
        Word::Age,
        &known[low + 1..high + 1],
        ages,
        0,
    );
    find_dues(&store.snapshots, low, high, ages, due);
}

// The same where there are any. Most often there are few, and a small room is soon filled with zeros.
fn list_between(
    store: &Store,
    page: u64,
    share: &Share,
    low: usize,
    high: usize,
    due: &mut Listed<u64, 64>,
)
    requires ready { Ready store.now page }
    requires shared { Shared store.now.written store.now.heads page share.now }
    requires high_bound { (high < store.now.heads.snapshots) × (due.old.items ≡ []) }
    ensures upper_bound { length due.new.items ≤ high - low }
    ensures by_index { (m : ℕ) → ((i : ℕ) → low ≤ i → i < high → m < get_or store.now.snapshots i 0) → ListedTo (seen_in store.now.written store.now.heads) page m (take store.now.heads.snapshots store.now.snapshots) low (max low high) due.new.items }
{
    if high <= low {
        return;
    }
    if high - low <= 8 {
        list_within(store, page, share, low, high, &mut [0; 128], due);
    } else {
        list_within(store, page, share, low, high, &mut [0; 1024], due);
    }
}

// Lists the due snapshots. None up to the mark is due, and none at or behind the newest stamp that
// wrote the page by the last snapshot, but perhaps this last one. The ages as of the next snapshot tell the others.
pub fn list_dues(store: &Store, page: u64, share: &Share, marked: u64, due: &mut Listed<u64, 64>)
    requires ready { Ready store.now page }
    requires shared { Shared store.now.written store.now.heads page share.now }
    ensures { due.new.items ≡ dues_seen (seen_in store.now.written store.now.heads) page marked (take store.now.heads.snapshots store.now.snapshots) }
{
    crate::whole(store);
    let w = &store.written;
    let h = store.heads;
    due.clear();
    if h.snapshots == 0 {
        return;
    }
    let known = &store.snapshots[..];
    let end = h.snapshots - 1;
    let last = known[end];
    if last <= marked {
        return;
    }
    let newest = shares::quiet::newest_up_to(w, h, page, share, last);
    let low = shares::many::first_from(&known[..end], marked + 1);
    let high = shares::many::first_from(&known[..end], newest);
    list_between(store, page, share, low, high, due);
    let v = View {
        page,
        as_of: None,
        word: Word::Age,
    };
    let mut ages = [0u64; 16];
    shares::look::look_at(w, h, share, v, &mut ages);
    if some_beyond(&ages, last) {
        due.push(last);
    }
}

// The largest of a mark and some stamps.
pub fn highest(due: &[u64], marked: u64) -> u64
    ensures { result ≡ max marked (top due.now) }
{
    let mut best = marked;
    for s in due {
        best = best.max(*s);
    }
    best
}
