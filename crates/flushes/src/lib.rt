// A flush without its journal: judged over the store, then written to it. Restart uses both as they stand.
#![tactic(auto)]

mod archive;
mod dues;
mod judge;
mod rows;
mod settle;

ghost use Rattle.std.specs.Prelude.{◌≡◌, []};
ghost use Rattle.model.specs.Changes.{flush_store};
ghost use Rattle.model.specs.Judgement.{judge_flush};
ghost use Rattle.tables.specs.Contents.{stored, Laid};
ghost use Rattle.flushes.specs.Promises.{Whole, Ready, Planned, Room, Applied};

use model::Verdict;
pub use rows::Rule;
use shares::Share;
use shares::listed::Listed;
use tables::{Copied, CopyTable, Disk, PastTable, PendingTable, Snapshots, Store};

// What the judge found and the writer needs: the page's share of the tables, the due snapshots, the page's mark after the flush,
// and how many past rows stay.
#[derive(Clone, Copy)]
pub struct Plan {
    pub share: Share,
    pub due: Listed<u64, 64>,
    pub mark: u64,
    pub staying: usize,
}

impl Plan {
    // Nothing found yet.
    pub fn empty() -> Self
        ensures { (result.share.rows.items ≡ []) × (result.share.entries.items ≡ []) × (result.due.items ≡ []) × (result.mark ≡ 0) × (result.staying ≡ 0) }
    {
        Plan {
            share: Share::none(),
            due: Listed::none(0),
            mark: 0,
            staying: 0,
        }
    }
}

// Kept: a contract knows the length of a lent array, and not of an array in a struct further in. Compiled, nothing is left of these two.
fn whole(store: &Store)
    ensures { Whole store.now }
{
    let w = &store.written;
    laid(
        &w.disk,
        &w.dated,
        &w.pending,
        &w.past,
        &store.snapshots,
        &store.copies,
        &store.copied,
    );
}

fn laid(
    values: &Disk,
    stamps: &Disk,
    pending: &PendingTable,
    past: &PastTable,
    snapshots: &Snapshots,
    copies: &CopyTable,
    copied: &Copied,
)
    ensures { Laid values.now stamps.now pending.now past.now snapshots.now copies.now copied.now }
{}

// What the store says of the flush: nothing to do, Archive full, Past full, or accepted; the plan is filled whatever it says.
pub fn judge_flush(store: &Store, page: u64, plan: &mut Plan) -> Verdict
    requires { Ready store.now page }
    ensures verdict { result ≡ judge_flush (stored store.now) page }
    ensures planned { Planned store.now page plan.new }
{
    let w = &store.written;
    let h = store.heads;
    whole(store);
    let marked = tables::lookups::mark_of(&store.copies, h.copies, page);
    shares::find_share(w, h, page, &mut plan.share);
    dues::list_dues(store, page, &plan.share, marked, &mut plan.due);
    let due = plan.due.listed();
    let mark = dues::highest(due, marked);
    let rule = Rule::new(h, page, mark);
    let staying = rows::count_staying(
        &w.past,
        h.past,
        plan.share.rows.listed(),
        &store.snapshots,
        rule,
    );
    let entries = plan.share.entries.listed();
    let verdict = judge::verdict(store, entries, due, staying, rule);
    plan.mark = mark;
    plan.staying = staying;
    verdict
}

// Copies of the due snapshots, the page's entries to disk, and the past values that are still live. The judge has accepted it, so there is room.
pub fn apply_flush(store: &mut Store, page: u64, plan: &Plan)
    requires ready { Ready store.old page }
    requires planned { Planned store.old page plan.now }
    requires room { Room (flush_store (stored store.old) page) }
    ensures { Applied store.old page store.new }
{
    whole(store);
    let h = store.heads;
    let w = &mut store.written;
    let rule = Rule::new(h, page, plan.mark);
    let due = plan.due.listed();
    let entries = plan.share.entries.listed();
    archive::archive(
        w,
        h,
        &plan.share,
        page,
        due,
        &mut store.copies,
        &mut store.copied,
    );
    let rest = rows::drop_rows(&mut w.past, h.past, plan.staying, &store.snapshots, rule);
    let rows = settle::bury(w, entries, rest, &store.snapshots, rule);
    let left = settle::settle(w, h.pending, page);
    store.heads.pending = left;
    store.heads.past = rows;
    store.heads.copies = h.copies + due.len();
    whole(store);
}
