// The fresh store: both disks 0, no row in any table. A refused journal leaves it too.
ghost use Rattle.std.specs.Prelude.{◌≡◌};
ghost use Rattle.model.specs.Store as model;
ghost use Rattle.model.specs.Restart.{refused};
ghost use Rattle.tables.specs.Contents.{stored, Counted};
ghost use Rattle.restart.specs.Promises.{Rebuilt, FreshKept};
ghost use Rattle.restart.specs.Turns.{zeros};

use crate::Started;
use journal::place::Place;
use model::Answer;
use tables::{Disk, Heads, Store};

fn clear(words: &mut Disk)
    ensures { words.new ≡ zeros }
{
    words.fill(0);
}

// Clears the disks, and takes the heads of a store without a row. What the other tables hold doesn't matter.
pub fn wipe(store: &mut Store)
    ensures holds { stored store.new ≡ model.fresh }
    ensures counted { Counted store.new.heads }
    ensures kept { FreshKept store.old store.new }
{
    clear(&mut store.written.disk);
    clear(&mut store.written.dated);
    store.heads = Heads {
        pending: 0,
        past: 0,
        snapshots: 0,
        copies: 0,
        horizon: 0,
        last: 0,
    };
}

// A fresh store with an answer, at the place 0.
pub fn start(store: &mut Store, answer: Answer) -> Started
    ensures rebuilt { Rebuilt (refused answer) result.answer (stored store.new) result.place.at }
    ensures kept { FreshKept store.old store.new }
{
    wipe(store);
    Started {
        answer,
        place: Place { at: 0 },
    }
}
