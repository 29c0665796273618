// The verdict on a commit, weighed only where it might not fit.
ghost use Rattle.std.specs.Prelude.{◌≡◌, List, ℕ, length};
ghost use Rattle.model.specs.Changes.{paired};
ghost use Rattle.model.specs.Judgement.{judge_commit};
ghost use Rattle.tables.specs.Contents.{stored};
ghost use Rattle.commits.specs.Promises.{Ready};

use model::Verdict;
use tables::{Index, Store};

// Inlined, so that the short test costs no call.
#[inline(always)]
pub fn judge(store: &Store, t: u64, objects: &[u64], index: &Index) -> Verdict
    requires { Ready store.now objects.now index.now }
    ensures { (vs : List ℕ) → length vs ≡ length objects.now → result ≡ judge_commit (stored store.now) t (paired objects.now vs) }
{
    if crate::roomy(store.heads, objects.len()) {
        return crate::judge_with_room(store, t);
    }
    crate::judge_commit(store, t, objects, index)
}
