// A small store: a few rows of each table. A row is added at the count, and stays in the table if the count is taken back.
use model::{Past, Pending};
use tables::{CopyHead, Heads};

#[derive(Clone, Copy)]
pub struct Small {
    pub pending: [Pending; 3],
    pub past: [Past; 3],
    pub known: [u64; 5],
    pub copies: [CopyHead; 3],
    pub heads: Heads,
}

// No rows.
pub fn empty(horizon: u64, last: u64) -> Small {
    let entry = Pending {
        object: 0,
        first: 0,
        latest: 0,
        value: 0,
    };
    let was = Past {
        object: 0,
        from: 0,
        until: 0,
        value: 0,
    };
    let copy = CopyHead { page: 0, stamp: 0 };
    let heads = Heads {
        pending: 0,
        past: 0,
        snapshots: 0,
        copies: 0,
        horizon,
        last,
    };
    Small {
        pending: [entry; 3],
        past: [was; 3],
        known: [0; 5],
        copies: [copy; 3],
        heads,
    }
}

impl Small {
    pub fn entry(mut self, object: u64, first: u64, latest: u64, value: u64) -> Small {
        let n = self.heads.pending;
        if n < 3 {
            self.pending[n] = Pending {
                object,
                first,
                latest,
                value,
            };
            self.heads.pending = n + 1;
        }
        self
    }

    pub fn was(mut self, object: u64, from: u64, until: u64, value: u64) -> Small {
        let n = self.heads.past;
        if n < 3 {
            self.past[n] = Past {
                object,
                from,
                until,
                value,
            };
            self.heads.past = n + 1;
        }
        self
    }

    pub fn snap(mut self, s: u64) -> Small {
        let n = self.heads.snapshots;
        if n < 5 {
            self.known[n] = s;
            self.heads.snapshots = n + 1;
        }
        self
    }

    pub fn copy(mut self, page: u64, stamp: u64) -> Small {
        let n = self.heads.copies;
        if n < 3 {
            self.copies[n] = CopyHead { page, stamp };
            self.heads.copies = n + 1;
        }
        self
    }

    pub fn counts(mut self, pending: usize, past: usize, snapshots: usize, copies: usize) -> Small {
        self.heads.pending = pending;
        self.heads.past = past;
        self.heads.snapshots = snapshots;
        self.heads.copies = copies;
        self
    }
}
