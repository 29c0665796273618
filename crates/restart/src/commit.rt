// A commit that stands in the journal, carried out if the store accepts it.
ghost use Rattle.std.specs.Prelude.{◌≡◌, true, false, ◌≤◌, length, take, ltb};
ghost use Rattle.model.specs.Lists.{all_b, twice_b};
ghost use Rattle.model.specs.Changes as changes;
ghost use Rattle.journal.specs.declared.walk.Record.TheVariants as records;
ghost use Rattle.tables.specs.Rows.{pendings};
ghost use Rattle.tables.specs.Lookups.{Indexed};
ghost use Rattle.tables.specs.Contents.{stored};
ghost use Rattle.restart.specs.Turns.{Held, Carried, Stands, change_at};

use crate::replay::{Room, accepts};
use journal::walk::CommitHead;
use tables::{Index, Store};

// The writes are told by their objects and values.
fn carry(store: &mut Store, index: &mut Index, t: u64, objects: &[u64], values: &[u64]) -> bool
    requires held { Held store.old }
    requires indexed { Indexed index.old (take store.old.heads.pending (pendings store.old.written.pending)) }
    requires objects_len_bound { (length objects.now ≤ 16) × (length values.now ≡ length objects.now) × (twice_b objects.now ≡ false) × (all_b (λ o. ltb o 512) objects.now ≡ true) }
    ensures carried { Carried (stored store.old) (changes.commit t (changes.paired objects.now values.now)) result store.new }
    ensures indexed_2 { Indexed index.new (take store.new.heads.pending (pendings store.new.written.pending)) }
{
    let verdict = commits::fitting::judge(store, t, objects, index);
    if !accepts(verdict) {
        return false;
    }
    commits::apply_commit(store, t, objects, values, index);
    true
}

// The record at a place. Its writes are read into the room's two lists.
pub fn replay(
    store: &mut Store,
    room: &mut Room,
    journal: &[u8],
    at: usize,
    head: CommitHead,
) -> bool
    requires held { Held store.old }
    requires indexed { Indexed room.old.index (take store.old.heads.pending (pendings store.old.written.pending)) }
    requires stands { Stands journal.now at (records.Commit head) }
    ensures carried { Carried (stored store.old) (change_at journal.now at) result store.new }
    ensures indexed_2 { Indexed room.new.index (take store.new.heads.pending (pendings store.new.written.pending)) }
    ensures said { room.new.indexed ≡ room.old.indexed }
{
    let count = head.count;
    fields::get_column(journal, at + 12, 10, 2, &mut room.objects[..count]);
    fields::get_column(journal, at + 14, 10, 8, &mut room.values[..count]);
    carry(
        store,
        &mut room.index,
        head.stamp,
        &room.objects[..count],
        &room.values[..count],
    )
}
