// A commit that the judge has accepted, written to the tables.
ghost use Rattle.std.specs.Prelude.{◌≡◌, false, List, [], ℕ, ◌≤◌, ◌<◌, length, take, Some, None};
ghost use Rattle.model.specs.Lists.{twice_b};
ghost use Rattle.model.specs.Changes.{paired, write_one, commit_store};
ghost use Rattle.tables.specs.Rows.{pending_of, pendings, up_to};
ghost use Rattle.tables.specs.Lookups.{find_pending, Indexed};
ghost use Rattle.tables.specs.Contents.{stored, Counted};
ghost use Rattle.commits.specs.Promises.{Ready, Room, Applied, Sound, entries, joined, value_at, Added, Wrote, opened_all};

use crate::judging::{displaced, row_of, rows};
use model::Pending;
use tables::{Index, PendingTable, Store};

// What a write at t displaces in a row goes to the past, if it is live.
fn add_displaced(store: &mut Store, row: usize, object: u64, t: u64)
    requires sound { Sound store.old × (row < 128) }
    requires room { length (joined store.old (value_at store.old row object t)) ≤ 256 }
    ensures { Added store.old store.new (value_at store.old row object t) }
{
    rows(&store.written);
    if let Some(q) = displaced(store, row, object, t) {
        tables::put_past(&mut store.written.past, store.heads.past, q);
        store.heads.past += 1;
    }
}

// One write of an object that has an entry: the entry takes t and the value, and what it held goes to the past if live.
fn write_over(store: &mut Store, row: usize, t: u64, object: u64, value: u64)
    requires sound { Sound store.old }
    requires found { find_pending object (entries store.old) ≡ Some row }
    requires room { Room (write_one (stored store.old) t object value) }
    ensures { Wrote store.old store.new t object value }
{
    rows(&store.written);
    add_displaced(store, row, object, t);
    tables::rewrite_pending(&mut store.written.pending, row, t, value);
}

// One write of an object that has none: an entry is added.
fn write_new(store: &mut Store, t: u64, object: u64, value: u64)
    requires sound { Sound store.old }
    requires found { find_pending object (entries store.old) ≡ None }
    requires room { Room (write_one (stored store.old) t object value) }
    ensures { Wrote store.old store.new t object value }
{
    rows(&store.written);
    let new = Pending {
        object,
        first: t,
        latest: t,
        value,
    };
    tables::put_pending(&mut store.written.pending, store.heads.pending, new);
    store.heads.pending += 1;
}

// The commit's writes, in their order. The judge has accepted them, so there is room. The index follows the entries.
// Kept: objects and values are two lists, as the C interface lends them.
pub fn apply_commit(store: &mut Store, t: u64, objects: &[u64], values: &[u64], index: &mut Index)
    requires ready { Ready store.old objects.now index.old }
    requires room { (length values.now ≡ length objects.now) × Room (commit_store (stored store.old) t (paired objects.now values.now)) }
    ensures applied { Applied store.old store.new t (paired objects.now values.now) }
    ensures indexed { Indexed index.new (take store.new.heads.pending (pendings store.new.written.pending)) }
{
    rows(&store.written);
    store.heads.last = t;
    for (object, value) in objects.iter().zip(values) {
        match row_of(index, *object) {
            Some(row) => write_over(store, row, t, *object, *value),
            None => {
                index[*object as usize] = store.heads.pending as u8;
                write_new(store, t, *object, *value);
            }
        }
    }
}

// The entries of writes that are all new, in the first rows.
fn enter(pending: &mut PendingTable, t: u64, objects: &[u64], values: &[u64])
    requires { (length objects.now ≤ 16) × (length values.now ≡ length objects.now) }
    ensures { up_to (pending_of []) (length objects.now) (pendings pending.new) ≡ opened_all t objects.now values.now }
{
    for (k, object) in objects.iter().enumerate() {
        let new = Pending {
            object: *object,
            first: t,
            latest: t,
            value: values[k],
        };
        tables::put_pending(pending, k, new);
    }
}

// The writes of a commit where no entry is pending: each a new one.
// Kept: objects and values are two lists, as the C interface lends them.
pub fn add_all(store: &mut Store, t: u64, objects: &[u64], values: &[u64])
    requires none_pending { (store.old.heads.pending ≡ 0) × Counted store.old.heads }
    requires well_formed { (length objects.now ≤ 16) × (length values.now ≡ length objects.now) × (twice_b objects.now ≡ false) }
    ensures applied { Applied store.old store.new t (paired objects.now values.now) }
    ensures past_kept { (store.new.written.past ≡ store.old.written.past) × (store.new.heads.past ≡ store.old.heads.past) }
{
    enter(&mut store.written.pending, t, objects, values);
    store.heads.pending = objects.len();
    store.heads.last = t;
}
