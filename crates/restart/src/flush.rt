// A flush of a page, carried out if the store accepts it.
ghost use Rattle.std.specs.Prelude.{◌<◌};
ghost use Rattle.model.specs.Changes as changes;
ghost use Rattle.tables.specs.Contents.{stored};
ghost use Rattle.restart.specs.Turns.{Held, Carried};

use crate::replay::accepts;
use flushes::Plan;
use tables::Store;

pub fn carry(store: &mut Store, page: u64) -> bool
    requires held { Held store.old }
    requires page_bound { page < 32 }
    ensures { Carried (stored store.old) (changes.flush page) result store.new }
{
    let mut plan = Plan::empty();
    let verdict = flushes::judge_flush(store, page, &mut plan);
    if !accepts(verdict) {
        return false;
    }
    flushes::apply_flush(store, page, &plan);
    true
}
