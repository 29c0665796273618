// The place where the journal goes on. Each method appends something there and returns the moved place.
ghost use Rattle.std.specs.Prelude.{◌≡◌, ◌∷◌, [], ◌≤◌, ◌+◌, ◌*◌, length, eqb};
ghost use Rattle.model.specs.Lists.{pick};
ghost use Rattle.model.specs.Bytes.{be};
ghost use Rattle.model.specs.Changes.{commit, gossip, flush, paired};
ghost use Rattle.model.specs.Records.{encode, write_bytes, stamp_bytes};
ghost use Rattle.model.specs.Calls.{version, reached};
ghost use Rattle.journal.specs.Places.{Moved, Appended};

use crate::kind::Kind;

#[derive(Clone, Copy, PartialEq, Eq, Debug)]
pub struct Place {
    pub at: usize,
}

// The journal's byte 0.
pub const VERSION: u64 = 1;

// Where the fields of a gossip record stand behind its length.
pub const KIND_AT: usize = 2;

pub const PREV_AT: usize = 3;

pub const CURR_AT: usize = 11;

pub const COUNT_AT: usize = 19;

pub const STAMPS_AT: usize = 20;

impl Place {
    // A number as a field of width bytes.
    fn put(self, j: &mut [u8], width: usize, x: u64) -> Place
        requires { self.at + width ≤ length j.old }
        ensures { Moved (be width x) j.old self.at j.new result.at }
    {
        let at = self.at;
        fields::put_be(j, at, width, x);
        Place { at: at + width }
    }

    // A commit's rows: an object and its value for each write.
    fn put_writes(self, j: &mut [u8], objects: &[u64], values: &[u64]) -> Place
        requires { (length objects.now ≡ length values.now) × (self.at + 10 * length objects.now ≤ length j.old) }
        ensures { Moved (write_bytes (paired objects.now values.now)) j.old self.at j.new result.at }
    {
        let mut p = self;
        // Kept: the values go by index, since a zip of both lists compares once more for each row: two instructions more of eleven.
        for (k, object) in objects.iter().enumerate() {
            p = p.put(j, 2, *object).put(j, 8, values[k]);
        }
        p
    }

    // Stamps one behind another.
    pub fn put_stamps(self, j: &mut [u8], stamps: &[u64]) -> Place
        requires { self.at + 8 * length stamps.now ≤ length j.old }
        ensures { Moved (stamp_bytes stamps.now) j.old self.at j.new result.at }
    {
        let mut p = self;
        for stamp in stamps {
            p = p.put(j, 8, *stamp);
        }
        p
    }

    fn put_commit(self, j: &mut [u8], t: u64, objects: &[u64], values: &[u64]) -> Place
        requires { (length objects.now ≡ length values.now) × (length objects.now ≤ 16) × (self.at + (12 + 10 * length objects.now) ≤ length j.old) }
        ensures { Moved (encode (commit t (paired objects.now values.now))) j.old self.at j.new result.at }
    {
        let count = objects.len() as u64;
        self.put(j, 2, 10 + 10 * count)
            .put(j, 1, Kind::Commit as u64)
            .put(j, 8, t)
            .put(j, 1, count)
            .put_writes(j, objects, values)
    }

    // A gossip record. Each of its two long fields comes first behind a branch or a loop: there the compiler makes one store of it, elsewhere eight.
    pub fn put_gossip(self, j: &mut [u8], prev: u64, curr: u64, stamps: &[u64]) -> Place
        requires { (length stamps.now ≤ 16) × (self.at + (20 + 8 * length stamps.now) ≤ length j.old) }
        ensures { Moved (encode (gossip prev curr stamps.now)) j.old self.at j.new result.at }
    {
        let at = self.at;
        let count = stamps.len() as u64;
        fields::put_be(j, at + PREV_AT, 8, prev);
        fields::put_be(j, at, 2, 18 + 8 * count);
        fields::put_be(j, at + KIND_AT, 1, Kind::Gossip as u64);
        fields::put_be(j, at + COUNT_AT, 1, count);
        let rows = Place { at: at + STAMPS_AT };
        let end = rows.put_stamps(j, stamps);
        fields::put_be(j, at + CURR_AT, 8, curr);
        end
    }

    fn put_flush(self, j: &mut [u8], page: u64) -> Place
        requires { self.at + 4 ≤ length j.old }
        ensures { Moved (encode (flush page)) j.old self.at j.new result.at }
    {
        self.put(j, 2, 2)
            .put(j, 1, Kind::Flush as u64)
            .put(j, 1, page)
    }

    // The version byte, where the journal is empty.
    fn begun(self, j: &mut [u8]) -> Place
        requires { self.at + 1 ≤ length j.old }
        ensures { Moved (pick (eqb self.at 0) (version ∷ []) []) j.old self.at j.new result.at }
    {
        if self.at == 0 {
            return self.put(j, 1, VERSION);
        }
        self
    }

    // The place behind a record whose length field is `length`, with the version byte before the journal's first.
    pub fn behind(self, length: usize) -> usize
        requires { (self.at ≤ 65535) × (length ≤ 170) }
        ensures { result ≡ self.at + pick (eqb self.at 0) 1 0 + (2 + length) }
    {
        let at = self.at;
        if at == 0 {
            return 3 + length;
        }
        at + (2 + length)
    }

    // The three appends require a well-formed list and the room for the record: a call writes only after it has judged both,
    // so the public calls of crate changes, which require nothing, meet this.
    pub fn append_commit(self, j: &mut [u8], t: u64, objects: &[u64], values: &[u64]) -> Place
        requires { (length objects.now ≡ length values.now) × (length objects.now ≤ 16) × (reached self.at (commit t (paired objects.now values.now)) ≤ length j.old) }
        ensures { Appended (commit t (paired objects.now values.now)) j.old self.at j.new result.at }
    {
        self.begun(j).put_commit(j, t, objects, values)
    }

    pub fn append_gossip(self, j: &mut [u8], prev: u64, curr: u64, stamps: &[u64]) -> Place
        requires { (length stamps.now ≤ 16) × (reached self.at (gossip prev curr stamps.now) ≤ length j.old) }
        ensures { Appended (gossip prev curr stamps.now) j.old self.at j.new result.at }
    {
        self.begun(j).put_gossip(j, prev, curr, stamps)
    }

    pub fn append_flush(self, j: &mut [u8], page: u64) -> Place
        requires { reached self.at (flush page) ≤ length j.old }
        ensures { Appended (flush page) j.old self.at j.new result.at }
    {
        self.begun(j).put_flush(j, page)
    }
}
