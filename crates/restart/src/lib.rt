// A store from nothing, and a store from a journal. Neither requires anything.
#![tactic(auto)]

mod commit;
mod empty;
mod flush;
mod gossip;
mod indexing;
mod replay;
mod walk;

ghost use Rattle.std.specs.Prelude.{◌≡◌};
ghost use Rattle.model.specs.Restart as model;
ghost use Rattle.tables.specs.Contents.{stored};
ghost use Rattle.restart.specs.Promises.{Rebuilt, Resumes, FreshKept};

use journal::place::Place;
use model::Answer;
use tables::Store;

// What a start hands back: the answer, and the place for the next call.
// Kept: a change hands back the same, but one type of both would have to stand in a crate below both, none of which has a use for it.
#[derive(Clone, Copy)]
pub struct Started {
    pub answer: Answer,
    pub place: Place,
}

// Both disks 0, the heads of a store without a row, and the place 0, from where the journal counts as empty.
pub fn fresh(store: &mut Store) -> Started
    ensures rebuilt { Rebuilt model.fresh_start result.answer (stored store.new) result.place.at }
    ensures kept { FreshKept store.old store.new }
{
    empty::start(store, Answer::Done(0))
}

// Where the journal goes on once the store is rebuilt, or why the journal is refused.
fn resumed(store: &mut Store, journal: &[u8]) -> Result<Place, Answer>
    ensures { Resumes (model.restart journal.now) result (stored store.new) }
{
    if 65535 < journal.len() {
        return Err(Answer::Shape);
    }
    let Some(version) = journal.first() else {
        empty::wipe(store);
        return Ok(Place { at: 0 });
    };
    if *version != 1 {
        return Err(Answer::Version(*version as u64));
    }
    walk::walk(store, journal)
}

// The store that the journal's whole records make, or the fresh one where the journal is refused.
pub fn restart(store: &mut Store, journal: &[u8]) -> Started
    ensures { Rebuilt (model.restart journal.now) result.answer (stored store.new) result.place.at }
{
    match resumed(store, journal) {
        Ok(place) => Started {
            answer: Answer::Done(place.at as u64),
            place,
        },
        Err(answer) => empty::start(store, answer),
    }
}
