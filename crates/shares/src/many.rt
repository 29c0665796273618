// A page as of many stamps at once: sixteen words for each stamp, and each row is laid over the stamps of its span alone.
ghost use Rattle.std.specs.Prelude.{◌≡◌, Some, List, [], ℕ, ◌+◌, ◌*◌, ◌<◌, ◌≤◌, length, get_or, set};
ghost use Rattle.model.specs.Lists.{pick};
ghost use Rattle.model.specs.Store.{page16, object_at, slot_of};
ghost use Rattle.views.specs.Views.{part_of, lay, Lookable};
ghost use Rattle.shares.specs.Shares.{rows_at, Shared};
ghost use Rattle.shares.specs.Many.{Ordered, FirstFrom, Pages, page_at};

use crate::Share;
use model::{Past, Pending};
use tables::{Heads, Written};
use views::Word;
use views::rows::Row;

// The page's words on disk, n times.
fn lay_disk_words(w: &Written, page: u64, word: Word, n: usize, words: &mut [u64], at: usize)
    requires { (page < 32) × (at + 16 * n ≤ length words.old) }
    ensures { (stamps : List ℕ) → length stamps ≡ n → Pages (λ _. page16 (λ k. part_of word (record { value = get_or w.now.disk (object_at page k) 0; stamp = get_or w.now.dated (object_at page k) 0 }))) stamps at words.old words.new }
{
    for j in 0..n {
        let from = at + 16 * j;
        views::lay_disk(w, page, word, &mut words[from..from + 16]);
    }
}

// The row's word, at its slot, for each stamp as of which it is shown.
fn lay_shown<R: Row>(stamps: &[u64], r: R, word: Word, words: &mut [u64], at: usize)
    requires { Ordered stamps.now × (at + 16 * length stamps.now ≤ length words.old) }
    ensures { (f : ℕ → List ℕ) (w : List ℕ) → Pages f stamps.now at w words.old → Pages (λ s. pick (R.shown_b (Some s) r) (set (f s) (slot_of (R.object_of r)) (part_of word (R.seen_of r))) (f s)) stamps.now at w words.new }
{
    let seen = r.seen();
    let shown = word.of(seen);
    let slot = at + (r.object() % 16) as usize;
    let first = first_from(stamps, seen.stamp);
    for j in first..stamps.len() {
        if !r.lasts(stamps[j]) {
            return;
        }
        words[slot + 16 * j] = shown;
    }
}

// The numbered rows are laid, from the last to the first.
fn lay_numbered<R: Row>(
    t: &R::Table,
    numbers: &[u8],
    stamps: &[u64],
    word: Word,
    words: &mut [u64],
    at: usize,
)
    requires inside { (j : ℕ) → j < length numbers.now → get_or numbers.now j 0 < R.room }
    requires ordered { Ordered stamps.now × (at + 16 * length stamps.now ≤ length words.old) }
    ensures { (f : ℕ → List ℕ) (w : List ℕ) → Pages f stamps.now at w words.old → Pages (λ s. lay (R.shown_b (Some s)) (λ r. slot_of (R.object_of r)) (λ r. part_of word (R.seen_of r)) (rows_at R.blank (R.rows t.now) numbers.now) (f s)) stamps.now at w words.new }
{
    for j in (0..numbers.len()).rev() {
        let r = R::at(t, usize::from(numbers[j]));
        lay_shown(stamps, r, word, words, at);
    }
}

// The page as of each stamp, where no copy serves.
pub fn look_at_all(
    w: &Written,
    h: Heads,
    share: &Share,
    page: u64,
    word: Word,
    stamps: &[u64],
    words: &mut [u64],
    at: usize,
)
    requires lookable { Lookable w.now h page }
    requires shared { Shared w.now h page share.now }
    requires ordered { Ordered stamps.now × (at + 16 * length stamps.now ≤ length words.old) }
    ensures { Pages (page_at w.now h page word) stamps.now at words.old words.new }
{
    lay_disk_words(w, page, word, stamps.len(), words, at);
    lay_numbered::<Past>(&w.past, share.rows.listed(), stamps, word, words, at);
    lay_numbered::<Pending>(&w.pending, share.entries.listed(), stamps, word, words, at);
}

// The first of the stamps at or behind one, or their count.
// Kept: `partition_point` in place of this and of `leap` took four percent more instructions for a page as of many stamps.
pub fn first_from(stamps: &[u64], stamp: u64) -> usize
    requires { Ordered stamps.now }
    ensures { FirstFrom stamps.now stamp result }
{
    let count = stamps.len();
    for k in leap(stamps, stamp)..count {
        if stamp <= stamps[k] {
            return k;
        }
    }
    count
}

// A count of stamps that are all before one, found eight at a time.
fn leap(stamps: &[u64], stamp: u64) -> usize
    requires { Ordered stamps.now }
    ensures { (result ≤ length stamps.now) × ((i : ℕ) → i < result → get_or stamps.now i 0 < stamp) }
{
    let eights = stamps.len() / 8;
    for k in 0..eights {
        if stamp <= stamps[8 * k + 7] {
            return 8 * k;
        }
    }
    8 * eights
}
