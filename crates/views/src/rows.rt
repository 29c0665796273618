// The rows that a page is laid from, past values and pending entries alike: of an object, with a value and its stamp, shown as of some stamps.
ghost use Rattle.std.specs.Prelude.{◌≡◌, false, Bool, Option, Some, None, List, [], ℕ, ◌≤◌, ◌<◌, length, get_or, set};
ghost use Rattle.model.specs.declared.Seen.{Seen};
ghost use Rattle.model.specs.Lists.{pick};
ghost use Rattle.model.specs.Store.{past_seen, pending_seen};
ghost use Rattle.tables.specs.Rows.{pendings, pasts, pending_of, past_of};
ghost use Rattle.views.specs.Rows.{covers_by, shows_by, covers_early, covers_over, shows_early, shows_over};
ghost use Rattle.views.specs.Views.{part_of};

use crate::{View, Word};
use model::{Past, Pending, Seen};
use tables::{PastTable, PendingTable};

pub trait Row: Copy {
    type Table;

    ghost rows: { Self.Table → List Self };

    ghost blank: { Self };

    ghost room: { ℕ };

    ghost object_of: { Self → ℕ };

    ghost seen_of: { Self → Seen };

    // Shown as of a stamp, or now.
    ghost shown_b: { Option ℕ → Self → Bool };

    // The row of the table at an index.
    fn at(t: &Self::Table, i: usize) -> Self
        requires { i < room }
        ensures { result ≡ get_or (rows t.now) i blank };

    fn object(self) -> u64
        ensures { result ≡ object_of self };

    fn seen(self) -> Seen
        ensures { result ≡ seen_of self };

    fn is_shown(self, as_of: Option<u64>) -> bool
        ensures { result ≡ shown_b as_of self };

    // Whether a row is shown as of a stamp that its own stamp isn't beyond.
    fn lasts(self, stamp: u64) -> bool
        requires { (seen_of self).stamp ≤ stamp }
        ensures { result ≡ shown_b (Some stamp) self };

    ghost early: { (r : Self) (s : ℕ) → s < (seen_of r).stamp → shown_b (Some s) r ≡ false };

    ghost over: { (r : Self) (s t : ℕ) → (seen_of r).stamp ≤ s → s ≤ t → shown_b (Some s) r ≡ false → shown_b (Some t) r ≡ false };
}

impl Row for Past {
    type Table = PastTable;

    ghost rows = { pasts };

    ghost blank = { past_of [] };

    ghost room = { 256 };

    ghost object_of = { λ q. q.object };

    ghost seen_of = { past_seen };

    ghost shown_b = { covers_by };

    ghost early = { covers_early };

    ghost over = { covers_over };

    fn at(t: &PastTable, i: usize) -> Past {
        tables::past_at(t, i)
    }

    fn object(self) -> u64 {
        self.object
    }

    fn seen(self) -> Seen {
        Seen {
            value: self.value,
            stamp: self.from,
        }
    }

    fn is_shown(self, as_of: Option<u64>) -> bool {
        match as_of {
            None => false,
            Some(stamp) => self.from <= stamp && stamp < self.until,
        }
    }

    fn lasts(self, stamp: u64) -> bool {
        stamp < self.until
    }
}

impl Row for Pending {
    type Table = PendingTable;

    ghost rows = { pendings };

    ghost blank = { pending_of [] };

    ghost room = { 128 };

    ghost object_of = { λ e. e.object };

    ghost seen_of = { pending_seen };

    ghost shown_b = { shows_by };

    ghost early = { shows_early };

    ghost over = { shows_over };

    fn at(t: &PendingTable, i: usize) -> Pending {
        tables::pending_at(t, i)
    }

    fn object(self) -> u64 {
        self.object
    }

    fn seen(self) -> Seen {
        Seen {
            value: self.value,
            stamp: self.latest,
        }
    }

    fn is_shown(self, as_of: Option<u64>) -> bool {
        match as_of {
            None => true,
            Some(stamp) => self.latest <= stamp,
        }
    }

    fn lasts(self, stamp: u64) -> bool {
        true
    }
}

// A row that is shown puts its word at the slot.
pub fn lay_row<R: Row>(r: R, slot: usize, v: View, out: &mut [u64])
    requires { slot < length out.old }
    ensures { out.new ≡ pick (R.shown_b v.as_of r) (set out.old slot (part_of v.word (R.seen_of r))) out.old }
{
    if r.is_shown(v.as_of) {
        out[slot] = v.word.of(r.seen());
    }
}
