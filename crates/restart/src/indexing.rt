// The index of the entries, made anew: a flush takes entries out from between others, so that those behind them move.
ghost use Rattle.std.specs.Prelude.{◌≡◌, true, ◌≤◌, ◌<◌, take};
ghost use Rattle.tables.specs.Rows.{pendings};
ghost use Rattle.tables.specs.Lookups.{Indexed};
ghost use Rattle.history.specs.Words.{All};
ghost use Rattle.history.proofs.Invariant.{Single};

use tables::{Index, PendingTable};

// The row of each of the first n entries, of which no two are of one object; 128 for every other object.
pub fn index_entries(t: &PendingTable, n: usize, index: &mut Index)
    requires n_bound { n ≤ 128 }
    requires all { All (λ e. e.object < 512) (take n (pendings t.now)) × Single (take n (pendings t.now)) }
    ensures { Indexed index.new (take n (pendings t.now)) }
{
    index.fill(128);
    for i in 0..n {
        let e = tables::pending_at(t, i);
        index[e.object as usize] = i as u8;
    }
}
