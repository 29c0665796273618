// A page's share of the tables: the numbers of its past rows and of its entries, found once, so that no other rows are looked at again.
#![tactic(auto)]

pub mod listed;
pub mod look;
pub mod many;
pub mod quiet;

ghost use Rattle.std.specs.Prelude.{◌≡◌, [], ◌∷◌, ◌++◌, ◌<◌, ◌≤◌, length, eqb};
ghost use Rattle.model.specs.Store.{page_of};
ghost use Rattle.shares.specs.Shares.{Numbered, Shared};

use listed::Listed;
use model::{Past, Pending};
use tables::{Heads, Written};
use views::rows::Row;

// A page's past rows and its entries, by their numbers in the tables, in their order.
#[derive(Clone, Copy)]
pub struct Share {
    pub rows: Listed<u8, 256>,
    pub entries: Listed<u8, 128>,
}

impl Share {
    pub fn none() -> Self
        ensures { (result.rows.items ≡ []) × (result.entries.items ≡ []) }
    {
        Share {
            rows: Listed::none(0),
            entries: Listed::none(0),
        }
    }
}

// The numbers of those of the first n rows that are of the page.
fn number<R: Row, const N: usize>(t: &R::Table, n: usize, page: u64, numbers: &mut Listed<u8, N>)
    requires { (n ≤ R.room) × (n ≤ N) × (n ≤ 256) × (n ≤ length (R.rows t.now)) }
    ensures { Numbered R.blank (λ r. eqb (page_of (R.object_of r)) page) (R.rows t.now) n numbers.new.items }
{
    numbers.clear();
    for i in 0..n {
        if R::at(t, i).object() / 16 == page {
            numbers.push(i as u8);
        }
    }
}

pub fn find_share(w: &Written, h: Heads, page: u64, share: &mut Share)
    requires { (h.pending ≤ 128) × (h.past ≤ 256) }
    ensures { Shared w.now h page share.new }
{
    number::<Past, 256>(&w.past, h.past, page, &mut share.rows);
    number::<Pending, 128>(&w.pending, h.pending, page, &mut share.entries);
}
