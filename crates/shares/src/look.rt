// A page looked at through its share of the tables: as views::look_at, over the page's rows alone.
ghost use Rattle.std.specs.Prelude.{◌≡◌, List, [], ℕ, ◌<◌, length, get_or};
ghost use Rattle.model.specs.Store.{page16, object_at, slot_of};
ghost use Rattle.tables.specs.Contents.{contents};
ghost use Rattle.views.specs.Views.{viewed, part_of, lay, Lookable};
ghost use Rattle.shares.specs.Shares.{rows_at, Shared};

use crate::Share;
use model::{Past, Pending};
use tables::{Heads, Written};
use views::rows::Row;
use views::{View, rows};

// The numbered rows laid, from the last to the first.
fn lay_numbered<R: Row>(t: &R::Table, numbers: &[u8], v: View, out: &mut [u64])
    requires { (length out.old ≡ 16) × ((j : ℕ) → j < length numbers.now → get_or numbers.now j 0 < R.room) }
    ensures { out.new ≡ lay (R.shown_b v.as_of) (λ r. slot_of (R.object_of r)) (λ r. part_of v.word (R.seen_of r)) (rows_at R.blank (R.rows t.now) numbers.now) out.old }
{
    for j in (0..numbers.len()).rev() {
        let r = R::at(t, usize::from(numbers[j]));
        let slot = (r.object() % 16) as usize;
        rows::lay_row(r, slot, v, out);
    }
}

// The page as the view asks, where no copy serves.
pub fn look_at(w: &Written, h: Heads, share: &Share, v: View, out: &mut [u64])
    requires lookable { Lookable w.now h v.page }
    requires shared { Shared w.now h v.page share.now × (length out.old ≡ 16) }
    ensures { (snapshots : List ℕ) (copies : List (List ℕ)) (copied : List ℕ) → out.new ≡ page16 (λ k. viewed (contents w.now.disk w.now.dated w.now.pending w.now.past snapshots copies copied h) v (object_at v.page k)) }
{
    views::lay_disk(w, v.page, v.word, out);
    if v.as_of.is_some() {
        lay_numbered::<Past>(&w.past, share.rows.listed(), v, out);
    }
    lay_numbered::<Pending>(&w.pending, share.entries.listed(), v, out);
}
