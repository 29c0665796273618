// One call over a store, and its line.
use crate::print;
use model::{Answer, NO_FIGURES};
use tables::Store;

// With a time, with a tick.
#[derive(Clone, Copy)]
pub enum Call {
    Snapshot(u64),
    Clock(u64),
    Current,
    Standing,
}

// What a read answers. The line has the call's name, its time or tick and its page.
fn read(rt: &HostRuntime, store: &Store, call: Call, page: u64, buffer: &mut [u64]) -> Answer {
    match call {
        Call::Snapshot(time) => {
            print::text(rt, b"; snapshot");
            print::number(rt, time);
            print::number(rt, page);
            reads::snapshot_read(store, time, page, buffer)
        }
        Call::Clock(tick) => {
            print::text(rt, b"; clock");
            print::number(rt, tick);
            print::number(rt, page);
            reads::clock_read(store, tick, page, buffer)
        }
        _ => {
            print::text(rt, b"; current");
            print::number(rt, page);
            reads::current_read(store, page, buffer)
        }
    }
}

pub fn line(
    rt: &HostRuntime,
    label: u64,
    store: &Store,
    call: Call,
    page: u64,
    buffer: &mut [u64],
) {
    print::label(rt, label);
    if let Call::Standing = call {
        print::text(rt, b"; standing");
        match reads::standing(store) {
            Some(figures) => print::stood(rt, Answer::Done(0), figures),
            None => print::stood(rt, Answer::Damaged, NO_FIGURES),
        }
        return;
    }
    let answer = read(rt, store, call, page, buffer);
    print::shown(rt, answer, buffer);
}
