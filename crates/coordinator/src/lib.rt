// The coordinator: it grants snapshots, and tells the repositories of them. No public call requires anything.
#![tactic(auto)]

pub mod kept;
pub mod messages;

ghost use Rattle.std.specs.Prelude.{◌≡◌, true, ◌∷◌, [], ◌++◌, ◌<◌, ◌≤◌, length, ltb};
ghost use Rattle.model.specs.declared.Answer.TheVariants.{Done};
ghost use Rattle.model.specs.Lists.{pick, rising_from};
ghost use Rattle.model.specs.Coordinator as model;
ghost use Rattle.coordinator.specs.States.{held, Sound, Granted};

use model::Answer;

// A stamp has 64 bits, and the node's number takes eight of them.
const LAST_TICK: u64 = 72057594037927935;

// How many stamps are granted, the largest curr sent, then the stamps. The C interface lends it in this order; it may hold anything.
#[derive(Clone, Copy)]
#[repr(C)]
pub struct State {
    pub count: u64,
    pub sent: u64,
    pub stamps: [u64; 64],
}

// Strictly ascending from beyond 0: each stamp is a rise. No stamp ends the loop early.
fn rising(stamps: &[u64]) -> bool
    ensures { result ≡ rising_from 0 stamps.now }
{
    let mut rises: usize = 0;
    let mut below: u64 = 0;
    for stamp in stamps {
        if below < *stamp {
            rises += 1;
        }
        below = *stamp;
    }
    rises == stamps.len()
}

impl State {
    // The granted stamps, where their count is within the table.
    fn granted(&self) -> &[u64]
        requires { self.now.count ≤ 64 }
        ensures { result.now ≡ (held self.now).granted }
    {
        &self.stamps[..self.count as usize]
    }

    // The same for any state, to be shown: none where their count is over 64.
    pub fn stamps(&self) -> &[u64]
        ensures { result.now ≡ pick (ltb model.most_granted (length (held self.now).granted)) [] (held self.now).granted }
    {
        if 64 < self.count {
            return &[];
        }
        self.granted()
    }

    // The largest curr sent.
    pub fn sent(&self) -> u64
        ensures { result ≡ (held self.now).sent }
    {
        self.sent
    }

    // More than 64 stamps, of which none is read then, or stamps out of order.
    pub fn damaged(&self) -> bool
        ensures { result ≡ model.coordinator_damaged (held self.now) }
    {
        64 < self.count || !rising(self.granted())
    }

    // The last granted stamp is the highest.
    fn top(&self) -> u64
        requires { Sound self.now }
        ensures { result ≡ model.top (held self.now) }
    {
        match self.granted().last() {
            Some(last) => self.sent.max(*last),
            None => self.sent,
        }
    }

    // Nothing granted, nothing sent. The words behind the count are no stamps then.
    pub fn fresh(&mut self) -> Answer
        ensures { (result ≡ Done 0) × (held self.new ≡ model.fresh_coordinator) }
    {
        self.count = 0;
        self.sent = 0;
        Answer::Done(0)
    }

    // One stamp more, where there is room.
    fn add(&mut self, stamp: u64)
        requires { self.old.count < 64 }
        ensures { held self.new ≡ record { granted = (held self.old).granted ++ (stamp ∷ []); sent = (held self.old).sent } }
    {
        self.stamps[self.count as usize] = stamp;
        self.count += 1;
    }

    // The snapshot 256 x tick + node.
    pub fn grant(&mut self, tick: u64, node: u64) -> Answer
        ensures { Granted (model.grant (held self.old) tick node) result (held self.new) }
    {
        if self.damaged() {
            return Answer::Damaged;
        }
        if LAST_TICK < tick {
            return Answer::Shape;
        }
        if 256 <= node {
            return Answer::Shape;
        }
        let stamp = 256 * tick + node;
        let top = self.top();
        if stamp <= top {
            return Answer::Late(top);
        }
        if 64 <= self.count {
            return Answer::SnapshotsFull;
        }
        self.add(stamp);
        Answer::Done(stamp)
    }
}
