// Gossip, with its journal.
ghost use Rattle.std.specs.Prelude.{◌≡◌, true, false};
ghost use Rattle.model.specs.Damage.{damaged};
ghost use Rattle.model.specs.Judgement.{stamps_shaped};
ghost use Rattle.model.specs.Calls.{journal_shaped, gossip_call};
ghost use Rattle.tables.specs.Contents.{stored};
ghost use Rattle.changes.specs.Left.{Left, Made};
ghost use Rattle.changes.specs.Kept.{GossipKept};

use crate::settling::Changed;
use journal::place::Place;
use model::Answer;
use tables::Store;

// What is left where damage and shape are tested: the store's verdict, the journal's room, and the two writers.
#[inline(always)]
pub fn take(
    store: &mut Store,
    journal: &mut [u8],
    used: Place,
    prev: u64,
    curr: u64,
    stamps: &[u64],
) -> Result<Place, Answer>
    requires whole { damaged (stored store.old) ≡ false }
    requires shaped { (journal_shaped journal.old used.at ≡ true) × (stamps_shaped prev curr stamps.now ≡ true) }
    ensures made { Made (gossip_call (stored store.old) journal.old used.at prev curr stamps.now) result (stored store.new) journal.new used.at }
    ensures kept { GossipKept store.old store.new }
{
    let verdict = gossips::judge_gossip(store, prev, curr, stamps);
    crate::settling::settled(verdict, journal, used, 18 + 8 * stamps.len())?;
    gossips::apply_gossip(store, curr, stamps);
    Ok(used.append_gossip(journal, prev, curr, stamps))
}

#[inline(always)]
fn tested(
    store: &mut Store,
    journal: &mut [u8],
    used: Place,
    prev: u64,
    curr: u64,
    stamps: &[u64],
) -> Result<Place, Answer>
    ensures made { Made (gossip_call (stored store.old) journal.old used.at prev curr stamps.now) result (stored store.new) journal.new used.at }
    ensures kept { GossipKept store.old store.new }
{
    if damage::damaged(store) {
        return Err(Answer::Damaged);
    }
    if !crate::settling::journal_shaped(journal, used) {
        return Err(Answer::Shape);
    }
    if !rules::stamps_shaped(prev, curr, stamps) {
        return Err(Answer::Shape);
    }
    take(store, journal, used, prev, curr, stamps)
}

// Takes a gossip message: its stamps beyond the horizon become known snapshots, and the horizon moves.
pub fn gossip(
    store: &mut Store,
    journal: &mut [u8],
    used: Place,
    prev: u64,
    curr: u64,
    stamps: &[u64],
) -> Changed
    ensures left { Left (gossip_call (stored store.old) journal.old used.at prev curr stamps.now) result.answer (stored store.new) journal.new result.place.at }
    ensures kept { GossipKept store.old store.new }
{
    Changed::told(tested(store, journal, used, prev, curr, stamps), used)
}
