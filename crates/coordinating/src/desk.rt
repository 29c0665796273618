// One line served: the order that it is, carried out and answered.
ghost use Rattle.std.specs.Prelude.{◌≤◌, length};

use crate::help;
use coordinator::State;
use files::{paths, whole};
use lines::orders::Order;
use model::Answer;
use terminal::serve::{Desk, Stop, given};
use terminal::{hex, say};

// The most bytes that a state has, and a message.
const STATE_ROOM: usize = 522;

const MESSAGE_ROOM: usize = 148;

// A coordinator at work, and how many bytes its file has. In memory it has no name and no file.
#[derive(Drop)]
pub struct Coordinator<'a> {
    pub state: State,
    pub path: &'a [u8],
    pub length: usize,
}

// The state's bytes, as its file has them, laid in the room that is lent.
fn bytes_of<'a>(state: &State, room: &'a mut [u8]) -> &'a [u8]
    ensures { length result.now ≤ length room.old }
{
    let n = say::written(state.keep(room), room);
    &room[..n]
}

// The answer, and behind it the message that it brings.
fn is_said(rt: &HostRuntime, answer: Answer, message: &[u8]) -> bool {
    let n = say::written(answer, message);
    say::bytes(rt, answer, &message[..n])
}

impl Coordinator<'_> {
    // A state that a call has changed goes to the file, for good, before the call is answered. A file of no bytes is that of a fresh state.
    fn save(&mut self, rt: &HostRuntime, old: &[u8]) -> Result<(), Stop> {
        let mut room = [0u8; STATE_ROOM];
        let new = bytes_of(&self.state, &mut room);
        if self.path.is_empty() || old == new {
            return Ok(());
        }
        let n = paths::within(self.length, old);
        given(whole::is_replaced(rt, self.path, &old[..n], new))?;
        self.length = new.len();
        Ok(())
    }

    // A grant is answered by its stamp.
    fn grant(&mut self, rt: &HostRuntime, tick: u64, node: u64) -> Result<(), Stop> {
        let mut room = [0u8; STATE_ROOM];
        let old = bytes_of(&self.state, &mut room);
        let answer = self.state.grant(tick, node);
        self.save(rt, old)?;
        given(say::answer(rt, answer))
    }

    fn message(&mut self, rt: &HostRuntime, prev: u64, clock: u64) -> Result<(), Stop> {
        let mut room = [0u8; STATE_ROOM];
        let old = bytes_of(&self.state, &mut room);
        let mut message = [0u8; MESSAGE_ROOM];
        let answer = self.state.message(prev, clock, &mut message);
        self.save(rt, old)?;
        given(is_said(rt, answer, &message))
    }

    // A repository's request is answered by the message that it asks for.
    fn answer_request(&mut self, rt: &HostRuntime, request: &[u8]) -> Result<(), Stop> {
        let mut room = [0u8; STATE_ROOM];
        let old = bytes_of(&self.state, &mut room);
        let mut message = [0u8; MESSAGE_ROOM];
        let answer = self.state.serve(request, &mut message);
        self.save(rt, old)?;
        given(is_said(rt, answer, &message))
    }

    // How many stamps are granted, the largest curr sent, and the stamps.
    fn is_shown(&self, rt: &HostRuntime) -> bool {
        let stamps = self.state.stamps();
        let count = stamps.len() as u64;
        say::known(rt, Answer::Done(0), count, self.state.sent(), stamps)
    }
}

impl Desk for Coordinator<'_> {
    fn serve(&mut self, rt: &HostRuntime, line: &[u8], number: u64) -> Result<(), Stop> {
        match lines::orders::read_order(line) {
            Err(mistake) => given(say::wrong(rt, mistake, number)),
            Ok(Order::Blank) => Ok(()),
            Ok(Order::Help) => given(help::print(rt)),
            Ok(Order::Quit) => Err(Stop::Done),
            Ok(Order::Granted) => given(self.is_shown(rt)),
            Ok(Order::Grant(tick, node)) => self.grant(rt, tick, node),
            Ok(Order::Message(prev, clock)) => self.message(rt, prev, clock),
            Ok(Order::Serve(from, to)) => {
                let mut request = [0u8; lines::hex::ROOM];
                let count = hex::bytes_in(line, from, to, &mut request);
                let n = paths::within(count, &request);
                self.answer_request(rt, &request[..n])
            }
        }
    }
}
