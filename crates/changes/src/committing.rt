// Commit, with its journal.
ghost use Rattle.std.specs.Prelude.{◌≡◌, false, ℕ, length, eqb, MatchResult};
ghost use Rattle.model.specs.Lists.{both};
ghost use Rattle.model.specs.Store as model;
ghost use Rattle.model.specs.Damage.{damaged};
ghost use Rattle.model.specs.Judgement.{objects_shaped};
ghost use Rattle.model.specs.Calls.{journal_shaped, commit_call};
ghost use Rattle.tables.specs.Contents.{stored};
ghost use Rattle.changes.specs.Left.{Left, Made, Formed};
ghost use Rattle.changes.specs.Kept.{CommitKept};

use crate::settling::Changed;
use journal::place::Place;
use model::Answer;
use tables::Store;

// The lists and the journal have a shape that a commit can have.
pub fn commit_shaped(journal: &[u8], used: Place, objects: &[u64], values: &[u64]) -> bool
    ensures { result ≡ both (both (eqb (length objects.now) (length values.now)) (journal_shaped journal.now used.at)) (objects_shaped objects.now) }
{
    objects.len() == values.len()
        && crate::settling::journal_shaped(journal, used)
        && rules::objects_shaped(objects)
}

// The tests that need no table: a refusal is the one that an undamaged store gives.
#[inline(always)]
pub fn formed(journal: &[u8], used: Place, objects: &[u64], values: &[u64]) -> Result<(), Answer>
    ensures { MatchResult result (λ _. Formed objects.now values.now journal.now used.at) (λ a. (st : model.Store) (t : ℕ) → damaged st ≡ false → Left (commit_call st journal.now used.at t objects.now values.now) a st journal.now used.at) }
{
    if !commit_shaped(journal, used, objects, values) {
        return Err(Answer::Shape);
    }
    if rules::named_twice(objects) {
        return Err(Answer::Twice);
    }
    Ok(())
}

// A commit where some entry is pending.
#[inline(always)]
fn rewrite(
    store: &mut Store,
    journal: &mut [u8],
    used: Place,
    t: u64,
    objects: &[u64],
    values: &[u64],
) -> Result<Place, Answer>
    ensures made { Made (commit_call (stored store.old) journal.old used.at t objects.now values.now) result (stored store.new) journal.new used.at }
    ensures kept { CommitKept store.old store.new }
{
    let mut index = [128u8; 512];
    if damage::damaged_or_indexed(store, &mut index) {
        return Err(Answer::Damaged);
    }
    formed(journal, used, objects, values)?;
    let verdict = commits::fitting::judge(store, t, objects, &index);
    crate::settling::settled(verdict, journal, used, 10 + 10 * objects.len())?;
    commits::apply_commit(store, t, objects, values, &mut index);
    Ok(used.append_commit(journal, t, objects, values))
}

// Writes the objects' values at the stamp t.
pub fn commit(
    store: &mut Store,
    journal: &mut [u8],
    used: Place,
    t: u64,
    objects: &[u64],
    values: &[u64],
) -> Changed
    ensures left { Left (commit_call (stored store.old) journal.old used.at t objects.now values.now) result.answer (stored store.new) journal.new result.place.at }
    ensures kept { CommitKept store.old store.new }
{
    let made = if store.heads.pending == 0 {
        crate::adding::add(store, journal, used, t, objects, values)
    } else {
        rewrite(store, journal, used, t, objects, values)
    };
    Changed::told(made, used)
}
