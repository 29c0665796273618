// Commit, with its journal, where no entry is pending: every write adds one, and no index is needed.
ghost use Rattle.std.specs.Prelude.{◌≡◌};
ghost use Rattle.model.specs.Calls.{commit_call};
ghost use Rattle.tables.specs.Contents.{stored};
ghost use Rattle.changes.specs.Left.{Made};
ghost use Rattle.changes.specs.Kept.{CommitKept};

use journal::place::Place;
use model::Answer;
use tables::Store;

pub fn add(
    store: &mut Store,
    journal: &mut [u8],
    used: Place,
    t: u64,
    objects: &[u64],
    values: &[u64],
) -> Result<Place, Answer>
    requires { store.old.heads.pending ≡ 0 }
    ensures made { Made (commit_call (stored store.old) journal.old used.at t objects.now values.now) result (stored store.new) journal.new used.at }
    ensures kept { CommitKept store.old store.new }
{
    if damage::out_of_range(store) {
        return Err(Answer::Damaged);
    }
    crate::committing::formed(journal, used, objects, values)?;
    let verdict = commits::judge_with_room(store, t);
    crate::settling::settled(verdict, journal, used, 10 + 10 * objects.len())?;
    commits::add_all(store, t, objects, values);
    Ok(used.append_commit(journal, t, objects, values))
}
