// The journal record by record, from the place behind the version byte.
ghost use Rattle.std.specs.Prelude.{length};
ghost use Rattle.model.specs.Store as model;
ghost use Rattle.model.specs.Restart as restart;
ghost use Rattle.tables.specs.Contents.{stored};
ghost use Rattle.restart.specs.Promises.{Resumes};

use crate::replay::Room;
use journal::place::Place;
use journal::walk::Step;
use model::Answer;
use tables::Store;

// A record that isn't whole ends the walk; a malformed one and one that the store doesn't accept refuse the journal.
pub fn walk(store: &mut Store, journal: &[u8]) -> Result<Place, Answer>
    ensures { Resumes (restart.walk (length journal.now) journal.now 1 model.fresh) result (stored store.new) }
{
    crate::empty::wipe(store);
    let mut room = Room {
        indexed: true,
        index: [128; 512],
        objects: [0; 16],
        values: [0; 16],
    };
    let mut place = Place { at: 1 };
    loop {
        let at = place.at;
        match journal::reader::read_at(journal, place) {
            Step::End => return Ok(place),
            Step::Short => return Ok(place),
            Step::Malformed(offset) => return Err(Answer::Malformed(offset as u64)),
            Step::Whole { record, next } => {
                if !crate::replay::replay(store, &mut room, journal, at, record) {
                    return Err(Answer::Contradiction(at as u64));
                }
                place = next;
            }
        }
    }
}
