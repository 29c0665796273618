// Flush, with its journal.
ghost use Rattle.std.specs.Prelude.{◌≡◌};
ghost use Rattle.model.specs.Calls.{flush_call};
ghost use Rattle.tables.specs.Contents.{stored};
ghost use Rattle.changes.specs.Left.{Left, Made};
ghost use Rattle.changes.specs.Kept.{FlushKept};

use crate::settling::Changed;
use flushes::Plan;
use journal::place::Place;
use model::Answer;
use tables::Store;

#[inline(always)]
fn flush_page(
    store: &mut Store,
    journal: &mut [u8],
    used: Place,
    page: u64,
) -> Result<Place, Answer>
    ensures made { Made (flush_call (stored store.old) journal.old used.at page) result (stored store.new) journal.new used.at }
    ensures kept { FlushKept store.old store.new }
{
    if damage::damaged(store) {
        return Err(Answer::Damaged);
    }
    if !crate::settling::journal_shaped(journal, used) {
        return Err(Answer::Shape);
    }
    if 32 <= page {
        return Err(Answer::Shape);
    }
    // Without entries and snapshots there is nothing to flush, on any page.
    let h = store.heads;
    if h.pending + h.snapshots == 0 {
        return Err(Answer::Nothing(used.at as u64));
    }
    let mut plan = Plan::empty();
    let verdict = flushes::judge_flush(store, page, &mut plan);
    crate::settling::settled(verdict, journal, used, 2)?;
    flushes::apply_flush(store, page, &plan);
    Ok(used.append_flush(journal, page))
}

// Flushes a page: copies for the due snapshots, and its pending values to disk.
pub fn flush(store: &mut Store, journal: &mut [u8], used: Place, page: u64) -> Changed
    ensures left { Left (flush_call (stored store.old) journal.old used.at page) result.answer (stored store.new) journal.new result.place.at }
    ensures kept { FlushKept store.old store.new }
{
    Changed::told(flush_page(store, journal, used, page), used)
}
