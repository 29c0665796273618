// A gossip message without its journal: judged over the tables, then written to them. Restart uses both as they stand.
#![tactic(auto)]

ghost use Rattle.std.specs.Prelude.{◌≡◌, true, List, [], ℕ, ◌+◌, ◌≤◌, length, take, drop, ltb, leb};
ghost use Rattle.model.specs.Store as model;
ghost use Rattle.model.specs.Lists.{both, all_b, kept, rising_from};
ghost use Rattle.model.specs.Judgement.{compared, judge_gossip};
ghost use Rattle.tables.specs.Rows.{pasts, copy_heads};
ghost use Rattle.tables.specs.Contents.{stored, Counted};
ghost use Rattle.gossips.specs.Promises.{differing_in, Told, LivesOn, Added, Ready, Applied};

use model::{Answer, Verdict};
use tables::{Snapshots, Store, Written};

// The stamp at a place, where it is up to a bound: behind one beyond the bound all are.
fn told(stamps: &[u64], upto: u64, i: usize) -> Option<u64>
    requires { rising_from 0 stamps.now ≡ true }
    ensures { Told stamps.now upto i result }
{
    if i < stamps.len() {
        if stamps[i] <= upto {
            return Some(stamps[i]);
        }
    }
    None
}

// The first stamp in which a message's stamps up to a bound and the known ones beyond prev up to there differ. The known ones
// ascend, so that the first beyond prev is searched, and the first beyond the bound ends the comparison.
fn differing(known: &[u64], prev: u64, upto: u64, stamps: &[u64]) -> Option<u64>
    requires { (rising_from 0 stamps.now ≡ true) × (rising_from 0 known.now ≡ true) }
    ensures { result ≡ differing_in (compared (kept (λ s. leb s upto) stamps.now) (kept (λ s. both (ltb prev s) (leb s upto)) known.now)) }
{
    let heard = &known[count_known(known, prev)..];
    for (i, y) in heard.iter().enumerate() {
        if upto < *y {
            return told(stamps, upto, i);
        }
        match told(stamps, upto, i) {
            None => return Some(*y),
            Some(x) => {
                if x != *y {
                    return Some(x.min(*y));
                }
            }
        }
    }
    told(stamps, upto, heard.len())
}

// How many of the stamps, which ascend, lie up to the horizon.
// Kept: steps of eight, for a search by halves takes twice as long at a message of which every stamp is new.
fn count_known(stamps: &[u64], horizon: u64) -> usize
    requires { rising_from 0 stamps.now ≡ true }
    ensures { (kept (ltb horizon) stamps.now ≡ drop result stamps.now) × (result ≤ length stamps.now) }
{
    for i in leap(stamps, horizon)..stamps.len() {
        if horizon < stamps[i] {
            return i;
        }
    }
    stamps.len()
}

// Eight stamps at a step: how many are passed while the last of a step is up to the horizon.
fn leap(stamps: &[u64], horizon: u64) -> usize
    requires { rising_from 0 stamps.now ≡ true }
    ensures { (kept (ltb horizon) stamps.now ≡ kept (ltb horizon) (drop result stamps.now)) × (result ≤ length stamps.now) }
{
    let steps = stamps.len() / 8;
    for k in 0..steps {
        if horizon < stamps[8 * k + 7] {
            return 8 * k;
        }
    }
    8 * steps
}

// What a store with these snapshots and this horizon says of the message, whatever else it holds.
fn judge(known: &[u64], horizon: u64, prev: u64, curr: u64, stamps: &[u64]) -> Verdict
    requires short { (length known.now ≤ 64) × (length stamps.now ≤ 16) }
    requires rising { (rising_from prev stamps.now ≡ true) × (rising_from 0 known.now ≡ true) }
    ensures { (st : model.Store) → st.snapshots ≡ known.now → st.horizon ≡ horizon → result ≡ judge_gossip st prev curr stamps.now }
{
    if horizon < prev {
        return Verdict::Refused(Answer::Gap(horizon));
    }
    if let Some(s) = differing(known, prev, curr.min(horizon), stamps) {
        return Verdict::Refused(Answer::Conflict(s));
    }
    if curr <= horizon {
        return Verdict::Idle;
    }
    if 64 - known.len() < stamps.len() - count_known(stamps, horizon) {
        return Verdict::Refused(Answer::SnapshotsFull);
    }
    Verdict::Accepted
}

// Writes the stamps beyond the horizon behind the first n snapshots; the result is the new count.
fn add_known(snapshots: &mut Snapshots, n: usize, horizon: u64, stamps: &[u64]) -> usize
    requires { (n + length (kept (ltb horizon) stamps.now) ≤ 64) × (rising_from 0 stamps.now ≡ true) }
    ensures { Added snapshots.old snapshots.new n result horizon stamps.now }
{
    let mut known = n;
    for stamp in &stamps[count_known(stamps, horizon)..] {
        snapshots[known] = *stamp;
        known += 1;
    }
    known
}

// What the store says of the message: Gap, Conflict, nothing new, Snapshots full, or accepted.
pub fn judge_gossip(store: &Store, prev: u64, curr: u64, stamps: &[u64]) -> Verdict
    requires counted { store.now.heads.snapshots ≤ 64 }
    requires well_formed { (length stamps.now ≤ 16) × (rising_from prev stamps.now ≡ true) }
    requires rising { rising_from 0 (take store.now.heads.snapshots store.now.snapshots) ≡ true }
    ensures { result ≡ judge_gossip (stored store.now) prev curr stamps.now }
{
    judge(
        &store.snapshots[..store.heads.snapshots],
        store.heads.horizon,
        prev,
        curr,
        stamps,
    )
}

// The past values have the rows of their type.
// Kept: a contract knows the rows of a table that is lent or stands in a lent struct, and not of one in a struct in that.
fn rows(written: &Written)
    ensures { length (pasts written.now.past) ≡ 256 }
{
    let _ = &written.past;
}

// Dead past values go, those of every page, by a horizon.
#[tactic(auto, using(tables::proofs::Rows::copies_length))]
fn drop_past(store: &mut Store, horizon: u64)
    requires counted { Counted store.old.heads }
    requires pages_in { all_b (λ c. ltb c.page 32) (take store.old.heads.copies (copy_heads store.old.copies)) ≡ true }
    requires rising { rising_from 0 (take store.old.heads.snapshots store.old.snapshots) ≡ true }
    ensures { LivesOn store.old store.new horizon }
{
    if store.heads.past == 0 {
        return;
    }
    rows(&store.written);
    let mut marks = [0u64; 32];
    tables::lookups::marks_of(&store.copies, store.heads.copies, &mut marks);
    store.heads.past = tables::dropping::drop_dead(
        &mut store.written.past,
        store.heads.past,
        None,
        horizon,
        &store.snapshots,
        store.heads.snapshots,
        &marks,
    );
}

// Stamps beyond the horizon become known, the horizon moves, and dead past values go.
pub fn apply_gossip(store: &mut Store, curr: u64, stamps: &[u64])
    requires { Ready store.old stamps.now }
    ensures { Applied store.old store.new curr stamps.now }
{
    store.heads.snapshots = add_known(
        &mut store.snapshots,
        store.heads.snapshots,
        store.heads.horizon,
        stamps,
    );
    drop_past(store, curr);
    store.heads.horizon = curr;
}
