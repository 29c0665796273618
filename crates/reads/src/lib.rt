// The reads of the store, standing and known. None requires anything: each refuses what it can't answer.
#![tactic(auto)]

ghost use Rattle.std.specs.Prelude.{◌≡◌, true, false, ◌≤◌, length, take, pos, ◌-ℤ◌, IfOk};
ghost use Rattle.model.specs.Lists.{rising_from};
ghost use Rattle.model.specs.Store.{page_as_of};
ghost use Rattle.model.specs.Damage.{damaged};
ghost use Rattle.model.specs.Reads as model;
ghost use Rattle.model.specs.Reads.{tick_of};
ghost use Rattle.tables.specs.Rows.{pendings};
ghost use Rattle.tables.specs.Lookups.{Indexed};
ghost use Rattle.tables.specs.Contents.{stored};
ghost use Rattle.views.specs.Views.{Lookable};
ghost use Rattle.reads.specs.Read.{Read, ShownBy};
ghost use Rattle.reads.specs.Knows.{padded, Knows, Stands};

use model::{Answer, Figures};
use tables::{Index, Store};
use views::{View, Word};

// The horizon, the last commit, and the known snapshots: how many, and each, with zeros behind them.
#[derive(Clone, Copy)]
pub struct Knowledge {
    pub horizon: u64,
    pub last: u64,
    pub count: u64,
    pub stamps: [u64; 64],
}

fn read_shaped(page: u64, buffer: &[u64]) -> bool
    ensures { result ≡ model.read_shaped page buffer.now }
{
    page < 32 && buffer.len() == 16
}

// The snapshot that a read of the time shows, or why it is refused.
fn shown_by(store: &Store, time: u64, page: u64, buffer: &[u64]) -> Result<u64, Answer>
    requires { (store.now.heads.snapshots ≤ 64) × (rising_from 0 (take store.now.heads.snapshots store.now.snapshots) ≡ true) }
    ensures told { damaged (stored store.now) ≡ false → ShownBy (model.snapshot_answer (stored store.now) (model.read_shaped page buffer.now) time) result }
    ensures shaped { IfOk result (λ s. model.read_shaped page buffer.now ≡ true) }
{
    let h = store.heads;
    if !read_shaped(page, buffer) {
        return Err(Answer::Shape);
    }
    if h.horizon < time {
        return Err(Answer::Ahead(h.horizon));
    }
    let s = tables::lookups::largest_known(&store.snapshots, h.snapshots, time);
    if s == 0 {
        return Err(Answer::NoSnapshot);
    }
    Ok(s)
}

// The page as of s: the serving copy's words, else what the tables show.
fn show_page(store: &Store, index: &Index, page: u64, s: u64, buffer: &mut [u64])
    requires lookable { Lookable store.now.written store.now.heads page }
    requires indexed { Indexed index.now (take store.now.heads.pending (pendings store.now.written.pending)) }
    requires copies_bound { (store.now.heads.copies ≤ 128) × (length buffer.old ≡ 16) }
    ensures { buffer.new ≡ page_as_of (stored store.now) page s }
{
    match tables::lookups::serving(&store.copies, store.heads.copies, page, s) {
        Some(i) => views::sixteen(&store.copied, 16 * i, buffer),
        None => {
            let view = View {
                page,
                as_of: Some(s),
                word: Word::Value,
            };
            views::look_at(&store.written, store.heads, index, view, buffer);
        }
    }
}

// The page as of the largest known snapshot at or before a time.
pub fn snapshot_read(store: &Store, time: u64, page: u64, buffer: &mut [u64]) -> Answer
    ensures { Read (model.snapshot_read (stored store.now) time page buffer.old) result buffer.new }
{
    if damage::out_of_range(store) {
        return Answer::Damaged;
    }
    let shown = shown_by(store, time, page, buffer);
    // One entry alone is no second one.
    if store.heads.pending < 2 {
        if let Err(refused) = shown {
            return refused;
        }
    }
    let mut index = [128u8; 512];
    if damage::met_again(&store.written.pending, store.heads.pending, &mut index) {
        return Answer::Damaged;
    }
    match shown {
        Ok(s) => {
            show_page(store, &index, page, s, buffer);
            Answer::Done(s)
        }
        Err(refused) => refused,
    }
}

// The same at a clock tick, of 256 stamps.
pub fn clock_read(store: &Store, tick: u64, page: u64, buffer: &mut [u64]) -> Answer
    ensures { Read (model.clock_read (stored store.now) tick page buffer.old) result buffer.new }
{
    if let Some(time) = tick.checked_mul(256) {
        return snapshot_read(store, time, page, buffer);
    }
    if damage::damaged(store) {
        return Answer::Damaged;
    }
    Answer::Shape
}

// The page as it is now.
pub fn current_read(store: &Store, page: u64, buffer: &mut [u64]) -> Answer
    ensures { Read (model.current_read (stored store.now) page buffer.old) result buffer.new }
{
    if damage::out_of_range(store) {
        return Answer::Damaged;
    }
    let mut index = [128u8; 512];
    if damage::met_again(&store.written.pending, store.heads.pending, &mut index) {
        return Answer::Damaged;
    }
    if !read_shaped(page, buffer) {
        return Answer::Shape;
    }
    let view = View {
        page,
        as_of: None,
        word: Word::Value,
    };
    views::look_at(&store.written, store.heads, &index, view, buffer);
    Answer::Done(0)
}

// The ticks by which the last commit is ahead of the horizon. Both are below 2^56, so the casts lose nothing.
fn lag(last: u64, horizon: u64) -> i64
    ensures { result ≡ pos (tick_of last) -ℤ pos (tick_of horizon) }
{
    let l = (last / 256) as i64;
    let h = (horizon / 256) as i64;
    l - h
}

// The numbers of rows in the tables, and the lag; none of a damaged store.
pub fn standing(store: &Store) -> Option<Figures>
    ensures { Stands (model.standing (stored store.now)) result }
{
    if damage::damaged(store) {
        return None;
    }
    let h = store.heads;
    Some(Figures {
        pending: h.pending as u64,
        past: h.past as u64,
        snapshots: h.snapshots as u64,
        copies: h.copies as u64,
        lag: lag(h.last, h.horizon),
    })
}

// A row for each snapshot that a store can know: these, and zeros behind them.
fn snapshot_rows(stamps: &[u64]) -> [u64; 64]
    requires { length stamps.now ≤ 64 }
    ensures { result ≡ padded stamps.now }
{
    let mut all = [0u64; 64];
    all[..stamps.len()].copy_from_slice(stamps);
    all
}

// Snapshots, and zeros behind them up to as many as a store has at most. Those beyond that many are left out.
pub fn padded(stamps: &[u64]) -> [u64; 64]
    ensures all { length stamps.now ≤ 64 → result ≡ padded stamps.now }
    ensures first { result ≡ padded (take 64 stamps.now) }
{
    snapshot_rows(&stamps[..stamps.len().min(64)])
}

// The horizon, the last commit, and every known snapshot; none of a damaged store.
pub fn known(store: &Store) -> Option<Knowledge>
    ensures { Knows (model.known (stored store.now)) result }
{
    if damage::damaged(store) {
        return None;
    }
    let h = store.heads;
    let stamps = snapshot_rows(&store.snapshots[..h.snapshots]);
    Some(Knowledge {
        horizon: h.horizon,
        last: h.last,
        count: h.snapshots as u64,
        stamps,
    })
}

#[cfg(test)]
mod tests {
    use super::padded;
    use std::test::Fail;

    // Of none, of two, of as many as a store has at most, and of one more.
    #[test]
    fn snapshots_in_their_rows() -> Result<(), Fail> {
        let none = padded(&[]) == [0; 64];
        none.then_some(()).ok_or("of none")?;
        let rows = padded(&[5, 7]);
        let two = rows[0] == 5 && rows[1] == 7 && rows[2] == 0 && rows[63] == 0;
        two.then_some(()).ok_or("of two")?;
        let mut stamps = [3u64; 65];
        stamps[63] = 8;
        stamps[64] = 9;
        let rows = padded(&stamps[..64]);
        let all = rows[0] == 3 && rows[62] == 3 && rows[63] == 8;
        all.then_some(()).ok_or("of sixty-four")?;
        let first = padded(&stamps) == rows;
        first.then_some(()).ok_or("of one more")?;
        Ok(())
    }
}
