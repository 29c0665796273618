// What stands at a place of the journal. A record is told by its head; the rows of its list stay where they are.
ghost use Rattle.std.specs.Prelude.{◌≡◌, not, ◌<◌, ◌≤◌, ◌+◌, ◌*◌, ◌^◌, length, drop, MatchOption};
ghost use Rattle.model.specs.Lists.{both, twice_b};
ghost use Rattle.model.specs.Bytes.{column};
ghost use Rattle.model.specs.Judgement.{objects_shaped, stamps_shaped};
ghost use Rattle.model.specs.Records.{commit_in, gossip_in, flush_in, checked, decode, step_at};
ghost use Rattle.journal.specs.Heads.{head_decoded, head_step};
ghost use Rattle.journal.specs.Counts.{Counted, Uncounted};

use crate::kind::Kind;
use crate::place::Place;

// The least and the most that a record's length field tells.
const SHORTEST: usize = 2;

const LONGEST: usize = 170;

// The most writes of a commit, and stamps of a gossip message.
const MOST_ROWS: usize = 16;

#[derive(Clone, Copy, PartialEq, Eq, Debug)]
pub struct CommitHead {
    pub stamp: u64,
    pub count: usize,
}

#[derive(Clone, Copy, PartialEq, Eq, Debug)]
pub struct GossipHead {
    pub prev: u64,
    pub curr: u64,
    pub count: usize,
}

#[derive(Clone, Copy, PartialEq, Eq, Debug)]
pub struct FlushHead {
    pub page: u64,
}

#[derive(Clone, Copy, PartialEq, Eq, Debug)]
pub enum Record {
    Commit(CommitHead),
    Gossip(GossipHead),
    Flush(FlushHead),
}

// What the walk finds: the journal's end, a record whose bytes aren't all there, a malformed one at an offset, or a whole one.
// Kept: four cases, since a restart ends at the first two alike and without a fault; a Result of an Option would tear them apart.
#[derive(Clone, Copy, PartialEq, Eq, Debug)]
pub enum Step {
    End,
    Short,
    Malformed(usize),
    Whole { record: Record, next: Place },
}

// How many rows of so many bytes a body has behind its front, whose last byte tells it: at most sixteen, and the body ends with them.
fn rows(body: &[u8], front: usize, row: usize) -> Option<usize>
    requires { (0 < front) × (front + 16 * row < 2 ^ 64) }
    ensures { MatchOption result (Uncounted body.now front row) (Counted body.now front row) }
{
    let count = usize::from(*body.get(front - 1)?);
    if MOST_ROWS < count {
        return None;
    }
    if body.len() != front + row * count {
        return None;
    }
    Some(count)
}

// The objects of a commit's body keep the Shape and Twice rules.
fn objects_good(body: &[u8], count: usize) -> bool
    requires { (9 + 10 * count ≡ length body.now) × (count ≤ 16) }
    ensures { result ≡ both (objects_shaped (column 2 10 count (drop 9 body.now))) (not (twice_b (column 2 10 count (drop 9 body.now)))) }
{
    // Most records have one write, and need no list.
    if count == 1 {
        return fields::get_be(body, 9, 2) < 512;
    }
    let mut room = [0u64; 16];
    fields::get_column(body, 9, 10, 2, &mut room[..count]);
    let objects = &room[..count];
    rules::objects_shaped(objects) && !rules::named_twice(objects)
}

fn stamps_good(body: &[u8], count: usize, prev: u64, curr: u64) -> bool
    requires { (17 + 8 * count ≡ length body.now) × (count ≤ 16) }
    ensures { result ≡ stamps_shaped prev curr (column 8 8 count (drop 17 body.now)) }
{
    let mut room = [0u64; 16];
    fields::get_column(body, 17, 8, 8, &mut room[..count]);
    rules::stamps_shaped(prev, curr, &room[..count])
}

// Each reads a body, the part of the journal behind a kind byte.
fn read_commit(body: &[u8]) -> Option<Record>
    ensures { result ≡ head_decoded (checked (length body.now + 1) (commit_in body.now)) }
{
    let count = rows(body, 9, 10)?;
    let stamp = fields::get_be(body, 0, 8);
    if !objects_good(body, count) {
        return None;
    }
    Some(Record::Commit(CommitHead { stamp, count }))
}

fn read_gossip(body: &[u8]) -> Option<Record>
    ensures { result ≡ head_decoded (checked (length body.now + 1) (gossip_in body.now)) }
{
    let count = rows(body, 17, 8)?;
    let prev = fields::get_be(body, 0, 8);
    let curr = fields::get_be(body, 8, 8);
    if !stamps_good(body, count, prev, curr) {
        return None;
    }
    Some(Record::Gossip(GossipHead { prev, curr, count }))
}

fn read_flush(body: &[u8]) -> Option<Record>
    ensures { result ≡ head_decoded (checked (length body.now + 1) (flush_in body.now)) }
{
    let [page] = body else {
        return None;
    };
    let page = u64::from(*page);
    if 32 <= page {
        return None;
    }
    Some(Record::Flush(FlushHead { page }))
}

#[tactic(auto, unfolding(model::specs::Records::decode))]
fn read_record(kind: u8, body: &[u8]) -> Option<Record>
    ensures { result ≡ head_decoded (decode (length body.now + 1) kind body.now) }
{
    match Kind::try_from(kind) {
        Ok(Kind::Commit) => read_commit(body),
        Ok(Kind::Gossip) => read_gossip(body),
        Ok(Kind::Flush) => read_flush(body),
        Err(_) => None,
    }
}

// What stands at a place. The length is judged before the record's other bytes are there.
pub fn step_at(s: &[u8], p: Place) -> Step
    ensures { result ≡ head_step (step_at s.now p.at) }
{
    let at = p.at;
    if s.len() <= at {
        return Step::End;
    }
    let left = s.len() - at;
    if left < 2 {
        return Step::Short;
    }
    let length = fields::get_be(s, at, 2) as usize;
    if length < SHORTEST || LONGEST < length {
        return Step::Malformed(at);
    }
    if left - 2 < length {
        return Step::Short;
    }
    let kind = s[at + 2];
    let next = at + 2 + length;
    let body = &s[at + 3..next];
    match read_record(kind, body) {
        Some(record) => Step::Whole {
            record,
            next: Place { at: next },
        },
        None => Step::Malformed(at),
    }
}
