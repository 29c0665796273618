// A whole record of the journal, carried out if the store accepts it.
ghost use Rattle.std.specs.Prelude.{◌≡◌, take};
ghost use Rattle.tables.specs.Rows.{pendings};
ghost use Rattle.tables.specs.Contents.{stored};
ghost use Rattle.restart.specs.Turns.{accepted_b, Follows, Held, Carried, Stands, change_at};

use journal::walk::Record;
use model::Verdict;
use tables::{Index, Store};

// What a walk keeps from record to record: the index of the entries, whether it tells their rows, and the room for a commit's writes.
// Kept: were the index an Option, a commit, which is lent the room, would open it once more, with a case for None that can't come.
#[derive(Drop)]
pub struct Room {
    pub indexed: bool,
    pub index: Index,
    pub objects: [u64; 16],
    pub values: [u64; 16],
}

// Nothing to do is no yes: a record that would change nothing can't stand in a journal.
pub fn accepts(verdict: Verdict) -> bool
    ensures { result ≡ accepted_b verdict }
{
    matches!(verdict, Verdict::Accepted)
}

// Kept: the three kinds carry out by the same steps, but what a judge finds goes to its writer, and a commit's index stays from record to
// record: one function for all would be handed two closures by each kind, with more lines than the three have.
// The record at a place, told by its head; whether the store accepted it. The index is made anew where a commit needs it and it doesn't
// tell the rows. A commit keeps it up, a message leaves the entries alone, and a flush takes entries out from between others.
pub fn replay(store: &mut Store, room: &mut Room, journal: &[u8], at: usize, told: Record) -> bool
    requires held { Held store.old }
    requires follows { Follows room.old.indexed room.old.index (take store.old.heads.pending (pendings store.old.written.pending)) }
    requires stands { Stands journal.now at told }
    ensures carried { Carried (stored store.old) (change_at journal.now at) result store.new }
    ensures follows_2 { Follows room.new.indexed room.new.index (take store.new.heads.pending (pendings store.new.written.pending)) }
{
    match told {
        Record::Commit(head) => {
            if !room.indexed {
                let n = store.heads.pending;
                crate::indexing::index_entries(&store.written.pending, n, &mut room.index);
                room.indexed = true;
            }
            crate::commit::replay(store, room, journal, at, head)
        }
        Record::Gossip(head) => crate::gossip::replay(store, journal, at, head),
        Record::Flush(head) => {
            room.indexed = false;
            crate::flush::carry(store, head.page)
        }
    }
}
