// One line served: the call that it is, carried out and answered.
use crate::{help, say};
use changes::settling::Changed;
use changes::{committing, flushing, gossiping};
use exchange::{asking, hearing};
use files::file::NotRenewed;
use files::{file, paths, room};
use journal::place::Place;
use lines::{Call, Listed};
use model::{Answer, NO_FIGURES};
use restart::Started;
use std::fs::File;
use tables::Store;
use terminal::serve::{Desk, Stop, given};
use terminal::{entries, hex};

// The bytes of a request, and where a message's curr stands in its bytes.
const REQUEST: usize = 19;

const CURR: usize = 11;

// The most bytes of a journal, and one more.
pub const ROOM: usize = 65536;

// A store at work: its journal, up to where it is used, and the journal's file, or none in memory. The one byte more than a journal
// may have shows a file that is longer.
#[derive(Drop)]
pub struct Keeper<'a> {
    pub store: Store,
    pub journal: [u8; ROOM],
    pub place: Place,
    pub path: &'a [u8],
    pub file: Option<File>,
}

// The curr of a message: the eight bytes behind its prev.
fn curr_of(message: &[u8]) -> u64 {
    if message.len() < CURR + 8 {
        return 0;
    }
    fields::get_be(message, CURR, 8)
}

// The calls that change the store, with as much of the journal's room as a journal may have.
fn committed(
    store: &mut Store,
    journal: &mut [u8; ROOM],
    used: Place,
    t: u64,
    objects: &[u64],
    values: &[u64],
) -> Changed {
    committing::commit(store, &mut journal[..room::MOST], used, t, objects, values)
}

fn gossiped(
    store: &mut Store,
    journal: &mut [u8; ROOM],
    used: Place,
    prev: u64,
    curr: u64,
    stamps: &[u64],
) -> Changed {
    gossiping::gossip(store, &mut journal[..room::MOST], used, prev, curr, stamps)
}

fn flushed(store: &mut Store, journal: &mut [u8; ROOM], used: Place, page: u64) -> Changed {
    flushing::flush(store, &mut journal[..room::MOST], used, page)
}

fn heard(store: &mut Store, journal: &mut [u8; ROOM], used: Place, message: &[u8]) -> Changed {
    hearing::hear(store, &mut journal[..room::MOST], used, message)
}

impl Keeper<'_> {
    // A change that was made is answered once its record is in the file.
    fn settle(&mut self, rt: &HostRuntime, done: Changed) -> Result<(), Stop> {
        let old = self.place.at;
        let new = done.place.at;
        if done.answer.is_done() {
            let file = self.file.as_ref();
            given(file::is_saved(rt, self.path, file, &self.journal[..room::MOST], old, new))?;
        }
        let said = terminal::say::answer(rt, done.answer);
        if self.file.is_some() {
            room::tell(rt, self.path, old, new);
        }
        self.place = done.place;
        given(said)
    }

    // What can be read: the horizon, the last commit, the known snapshots.
    fn is_known_shown(&self, rt: &HostRuntime) -> bool {
        match reads::known(&self.store) {
            Some(known) => terminal::say::known(
                rt,
                Answer::Done(0),
                known.horizon,
                known.last,
                &known.stamps[..known.count as usize],
            ),
            None => terminal::say::known(rt, Answer::Damaged, 0, 0, &[]),
        }
    }

    fn is_standing_shown(&self, rt: &HostRuntime) -> bool {
        match reads::standing(&self.store) {
            Some(figures) => say::standing(rt, Answer::Done(0), figures),
            None => say::standing(rt, Answer::Damaged, NO_FIGURES),
        }
    }

    // The answer, and behind it the request from the horizon to a stamp. A message that starts beyond the horizon is answered so too.
    fn is_asked(&self, rt: &HostRuntime, answer: Option<Answer>, to: u64) -> bool {
        let mut request = [0u8; REQUEST];
        let asked = asking::ask(&self.store, to, &mut request);
        let n = terminal::say::written(asked, &request);
        terminal::say::bytes(rt, answer.unwrap_or(asked), &request[..n])
    }

    // A page at the last snapshot up to a time.
    fn is_snapshot_shown(&self, rt: &HostRuntime, time: u64, page: u64) -> bool {
        let mut words = [0u64; 16];
        let answer = reads::snapshot_read(&self.store, time, page, &mut words);
        say::page(rt, answer, &words)
    }

    // The same, by a clock tick.
    fn is_clock_shown(&self, rt: &HostRuntime, tick: u64, page: u64) -> bool {
        let mut words = [0u64; 16];
        let answer = reads::clock_read(&self.store, tick, page, &mut words);
        say::page(rt, answer, &words)
    }

    // The current page.
    fn is_current_shown(&self, rt: &HostRuntime, page: u64) -> bool {
        let mut words = [0u64; 16];
        let answer = reads::current_read(&self.store, page, &mut words);
        say::page(rt, answer, &words)
    }

    // So many writes of objects, with one stamp.
    fn commit(
        &mut self,
        rt: &HostRuntime,
        stamp: u64,
        count: usize,
        listed: &Listed,
    ) -> Result<(), Stop> {
        let n = entries(count, &listed.firsts);
        let m = entries(count, &listed.seconds);
        let done = committed(
            &mut self.store,
            &mut self.journal,
            self.place,
            stamp,
            &listed.firsts[..n],
            &listed.seconds[..m],
        );
        self.settle(rt, done)
    }

    fn gossip(
        &mut self,
        rt: &HostRuntime,
        prev: u64,
        curr: u64,
        stamps: &[u64],
    ) -> Result<(), Stop> {
        let done = gossiped(
            &mut self.store,
            &mut self.journal,
            self.place,
            prev,
            curr,
            stamps,
        );
        self.settle(rt, done)
    }

    fn flush(&mut self, rt: &HostRuntime, page: u64) -> Result<(), Stop> {
        let done = flushed(&mut self.store, &mut self.journal, self.place, page);
        self.settle(rt, done)
    }

    // A message that a coordinator wrote is answered as a change, or by what is to be asked for.
    fn hear(&mut self, rt: &HostRuntime, message: &[u8]) -> Result<(), Stop> {
        let done = heard(&mut self.store, &mut self.journal, self.place, message);
        if let Answer::Gap(_) = done.answer {
            return given(self.is_asked(rt, Some(done.answer), curr_of(message)));
        }
        self.settle(rt, done)
    }

    // A store that was started anew is answered.
    fn renew(&mut self, rt: &HostRuntime, started: Started) -> Result<(), Stop> {
        self.place = started.place;
        given(terminal::say::answer(rt, started.answer))
    }

    // An empty store. The journal's file is kept, as JOURNAL.old.
    fn fresh(&mut self, rt: &HostRuntime) -> Result<(), Stop> {
        let path = self.path;
        match file::renew(rt, path, self.file.as_ref()) {
            Ok(next) => {
                // The old file is closed behind the answer.
                let _old = std::mem::replace(&mut self.file, next);
                let started = restart::fresh(&mut self.store);
                self.renew(rt, started)
            }
            Err(NotRenewed::Barred) => given(terminal::say::refused(
                rt,
                path,
                b".old is in the way",
            )),
            Err(NotRenewed::Linked) => given(terminal::say::refused(
                rt,
                path,
                b" is a link; fresh works under the file's own name",
            )),
            Err(NotRenewed::Failed) => Err(Stop::Failed),
        }
    }

    // A store from the first bytes of a journal. Only one in memory is cut, to no more bytes than it has.
    fn cut(&mut self, rt: &HostRuntime, to: usize) -> Result<(), Stop> {
        let used = self.place.at;
        if self.file.is_some() {
            return given(terminal::say::text(rt, b"? cut is for a journal in memory\n"));
        }
        if used < to {
            return given(say::refused_beyond(rt, used as u64));
        }
        let n = paths::within(to, &self.journal);
        let started = restart::restart(&mut self.store, &self.journal[..n]);
        self.renew(rt, started)
    }
}

impl Desk for Keeper<'_> {
    fn serve(&mut self, rt: &HostRuntime, line: &[u8], number: u64) -> Result<(), Stop> {
        let mut listed = Listed::empty();
        match lines::read_line(line, &mut listed) {
            Err(mistake) => given(terminal::say::wrong(rt, mistake, number)),
            Ok(Call::Blank) => Ok(()),
            Ok(Call::Help(topic)) => given(help::print(rt, topic)),
            Ok(Call::Quit) => Err(Stop::Done),
            Ok(Call::Fresh) => self.fresh(rt),
            Ok(Call::Cut(to)) => self.cut(rt, to as usize),
            Ok(Call::Hear(from, to)) => {
                let mut message = [0u8; lines::hex::ROOM];
                let count = hex::bytes_in(line, from, to, &mut message);
                let n = paths::within(count, &message);
                self.hear(rt, &message[..n])
            }
            Ok(Call::Read(time, page)) => given(self.is_snapshot_shown(rt, time, page)),
            Ok(Call::Clock(tick, page)) => given(self.is_clock_shown(rt, tick, page)),
            Ok(Call::Now(page)) => given(self.is_current_shown(rt, page)),
            Ok(Call::Ask(to)) => given(self.is_asked(rt, None, to)),
            Ok(Call::Known) => given(self.is_known_shown(rt)),
            Ok(Call::Standing) => given(self.is_standing_shown(rt)),
            Ok(Call::Commit(stamp, count)) => self.commit(rt, stamp, count, &listed),
            Ok(Call::Gossip(prev, curr, count)) => {
                let n = entries(count, &listed.firsts);
                self.gossip(rt, prev, curr, &listed.firsts[..n])
            }
            Ok(Call::Flush(page)) => self.flush(rt, page),
        }
    }
}
