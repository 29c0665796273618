// A store and its journal in the night: each call with its words, and its answer.
use changes::settling::Changed;
use changes::{committing, flushing, gossiping};
use journal::place::Place;
use tables::Store;

#[derive(Drop)]
pub struct Night {
    pub store: Store,
    pub journal: [u8; 4096],
    pub used: Place,
}

impl Night {
    pub fn new() -> Night {
        Night {
            store: Store::empty(),
            journal: [0; 4096],
            used: Place { at: 0 },
        }
    }

    pub fn commit(&mut self, rt: &HostRuntime, t: u64, object: u64, value: u64) -> Changed {
        prints::number(rt, b" commit ", t);
        prints::number(rt, b", object ", object);
        prints::number(rt, b" = ", value);
        committing::commit(
            &mut self.store,
            &mut self.journal,
            self.used,
            t,
            &[object],
            &[value],
        )
    }

    // A message of one stamp, or of none.
    pub fn gossip(
        &mut self,
        rt: &HostRuntime,
        prev: u64,
        curr: u64,
        stamp: Option<u64>,
    ) -> Changed {
        prints::number(rt, b" gossip ", prev);
        prints::number(rt, b", ", curr);
        let store = &mut self.store;
        match stamp {
            Some(stamp) => {
                prints::number(rt, b", {", stamp);
                prints::text(rt, b"}");
                gossiping::gossip(store, &mut self.journal, self.used, prev, curr, &[stamp])
            }
            None => {
                prints::text(rt, b", {}");
                gossiping::gossip(store, &mut self.journal, self.used, prev, curr, &[])
            }
        }
    }

    pub fn flush(&mut self, rt: &HostRuntime, page: u64) -> Changed {
        prints::number(rt, b" flush ", page);
        flushing::flush(&mut self.store, &mut self.journal, self.used, page)
    }

    // The buffer holds ones before, so that a zero shown is one that was read.
    pub fn read(&self, rt: &HostRuntime, time: u64, page: u64) {
        prints::number(rt, b" read time ", time);
        prints::number(rt, b", page ", page);
        let mut buffer = [1u64; 16];
        let answer = reads::snapshot_read(&self.store, time, page, &mut buffer);
        prints::answered(rt, answer);
        prints::page(rt, &buffer);
    }
}
