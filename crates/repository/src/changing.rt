// The faces that change the store: commit, gossip and flush, each with its journal.
ghost use Rattle.model.specs.Calls.{commit_call, gossip_call, flush_call};
ghost use Rattle.tables.specs.Contents.{stored};
ghost use Rattle.repository.specs.Faces.{Changed};

use crate::{Moved, Store};
use changes::{committing, flushing, gossiping};
use journal::place::Place;

// Writes the objects' values at the stamp t.
#[unsafe(no_mangle)]
pub extern "C" fn jibcradle_commit(
    store: &mut Store,
    journal: &mut [u8],
    used: usize,
    t: u64,
    objects: &[u64],
    values: &[u64],
) -> Moved
    ensures { Changed (commit_call (stored store.old) journal.old used t objects.now values.now) result (stored store.new) journal.new }
{
    let used = Place { at: used };
    Moved::from(committing::commit(store, journal, used, t, objects, values))
}

// Takes a gossip message: its stamps beyond the horizon become known snapshots, and the horizon moves.
#[unsafe(no_mangle)]
pub extern "C" fn jibcradle_gossip(
    store: &mut Store,
    journal: &mut [u8],
    used: usize,
    prev: u64,
    curr: u64,
    stamps: &[u64],
) -> Moved
    ensures { Changed (gossip_call (stored store.old) journal.old used prev curr stamps.now) result (stored store.new) journal.new }
{
    let used = Place { at: used };
    Moved::from(gossiping::gossip(store, journal, used, prev, curr, stamps))
}

// Flushes a page: copies for the due snapshots, and its pending values to disk.
#[unsafe(no_mangle)]
pub extern "C" fn jibcradle_flush(
    store: &mut Store,
    journal: &mut [u8],
    used: usize,
    page: u64,
) -> Moved
    ensures { Changed (flush_call (stored store.old) journal.old used page) result (stored store.new) journal.new }
{
    let used = Place { at: used };
    Moved::from(flushing::flush(store, journal, used, page))
}
