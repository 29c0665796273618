// Document 01's worked night, items 1 to 12, by the public calls: for each call a line with its item, the call, its code and number,
// and what the item tells besides.
#![tactic(auto)]

mod calls;

use crate::calls::Night;

#[derive(Clone, Copy)]
enum Call {
    Commit(u64, u64, u64),
    Gossip(u64, u64, Option<u64>),
    Flush(u64),
    Read(u64, u64),
}

// What is shown after the answer.
#[derive(Clone, Copy, PartialEq, Eq)]
enum Besides {
    Nothing,
    Journal,
    Standing,
}

// The item's number, its call, what is shown after it.
#[derive(Clone, Copy)]
struct Item(u64, Call, Besides);

const NIGHT: [Item; 14] = [
    Item(1, Call::Commit(100, 0, 7), Besides::Journal),
    Item(2, Call::Commit(100, 0, 7), Besides::Nothing),
    Item(3, Call::Commit(120, 0, 9), Besides::Standing),
    Item(4, Call::Gossip(0, 110, Some(105)), Besides::Nothing),
    Item(5, Call::Read(107, 0), Besides::Nothing),
    Item(6, Call::Read(104, 0), Besides::Nothing),
    Item(6, Call::Read(111, 0), Besides::Nothing),
    Item(7, Call::Flush(0), Besides::Standing),
    Item(8, Call::Flush(0), Besides::Nothing),
    Item(9, Call::Gossip(110, 200, None), Besides::Standing),
    Item(10, Call::Commit(200, 0, 7), Besides::Nothing),
    Item(10, Call::Gossip(201, 300, None), Besides::Nothing),
    Item(11, Call::Gossip(100, 300, Some(106)), Besides::Nothing),
    Item(11, Call::Gossip(100, 150, Some(105)), Besides::Nothing),
];

const SEPARATELY: [Item; 3] = [
    Item(12, Call::Commit(120, 0, 9), Besides::Nothing),
    Item(12, Call::Gossip(0, 120, Some(120)), Besides::Nothing),
    Item(12, Call::Read(120, 0), Besides::Nothing),
];

impl Night {
    // A call's line up to its answer. A call that changes the store goes on from its place.
    fn make(&mut self, rt: &HostRuntime, call: Call) {
        let done = match call {
            Call::Commit(t, object, value) => self.commit(rt, t, object, value),
            Call::Gossip(prev, curr, stamp) => self.gossip(rt, prev, curr, stamp),
            Call::Flush(page) => self.flush(rt, page),
            Call::Read(time, page) => {
                self.read(rt, time, page);
                return;
            }
        };
        prints::answered(rt, done.answer);
        self.used = done.place;
    }

    // What the item asks for besides the answer.
    fn show(&self, rt: &HostRuntime, besides: Besides) {
        match besides {
            Besides::Nothing => {}
            Besides::Journal => prints::bytes(rt, &self.journal, self.used.at),
            Besides::Standing => {
                if let Some(figures) = reads::standing(&self.store) {
                    prints::figures(rt, figures);
                }
            }
        }
    }
}

fn run(rt: &HostRuntime, items: &[Item]) {
    let mut night = Night::new();
    for Item(number, call, besides) in items {
        prints::item(rt, *number);
        night.make(rt, *call);
        night.show(rt, *besides);
        prints::end(rt);
    }
}

fn main(rt: HostRuntime) {
    run(&rt, &NIGHT);
    run(&rt, &SEPARATELY);
}
