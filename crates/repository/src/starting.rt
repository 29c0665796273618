// The faces that start a store: from nothing, and from a journal. Whatever the struct held before is gone.
ghost use Rattle.model.specs.Restart as starts;
ghost use Rattle.tables.specs.Contents.{stored};
ghost use Rattle.repository.specs.Faces.{Begun};

use crate::{Moved, Store};

// An empty store.
#[unsafe(no_mangle)]
pub extern "C" fn jibcradle_fresh(store: &mut Store) -> Moved
    ensures { Begun starts.fresh_start result (stored store.new) }
{
    Moved::from(restart::fresh(store))
}

// The store that a journal's whole records make.
#[unsafe(no_mangle)]
pub extern "C" fn jibcradle_restart(store: &mut Store, journal: &[u8]) -> Moved
    ensures { Begun (starts.restart journal.now) result (stored store.new) }
{
    Moved::from(restart::restart(store, journal))
}
