// A gossip message that stands in the journal, carried out if the store accepts it.
ghost use Rattle.std.specs.Prelude.{◌≡◌, true, ◌≤◌, length};
ghost use Rattle.model.specs.Lists.{rising_from};
ghost use Rattle.model.specs.Changes as changes;
ghost use Rattle.journal.specs.declared.walk.Record.TheVariants as records;
ghost use Rattle.tables.specs.Contents.{stored};
ghost use Rattle.restart.specs.Turns.{Held, Carried, EntriesKept, Stands, change_at};

use crate::replay::accepts;
use journal::walk::GossipHead;
use tables::Store;

fn carry(store: &mut Store, prev: u64, curr: u64, stamps: &[u64]) -> bool
    requires held { Held store.old }
    requires stamps_len_bound { (length stamps.now ≤ 16) × (rising_from prev stamps.now ≡ true) }
    ensures carried { Carried (stored store.old) (changes.gossip prev curr stamps.now) result store.new }
    ensures kept { EntriesKept store.old store.new }
{
    let verdict = gossips::judge_gossip(store, prev, curr, stamps);
    if !accepts(verdict) {
        return false;
    }
    gossips::apply_gossip(store, curr, stamps);
    true
}

// The record at a place.
pub fn replay(store: &mut Store, journal: &[u8], at: usize, head: GossipHead) -> bool
    requires held { Held store.old }
    requires stands { Stands journal.now at (records.Gossip head) }
    ensures carried { Carried (stored store.old) (change_at journal.now at) result store.new }
    ensures kept { EntriesKept store.old store.new }
{
    let count = head.count;
    let mut stamps = [0u64; 16];
    fields::get_column(journal, at + 20, 8, 8, &mut stamps[..count]);
    carry(store, head.prev, head.curr, &stamps[..count])
}
