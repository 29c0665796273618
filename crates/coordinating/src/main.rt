// The coordinator's command: a call for each line of input, an answer line for each. With a file it keeps its state there, whole, from
// call to call; without one in memory. `--demo` shows a few calls.
#![tactic(auto)]

mod demo;
mod desk;
mod help;
mod kept;

use terminal::input::Source;
use terminal::start;
use terminal::start::{Command, UNLOCK};

struct Coordinating;

impl Command for Coordinating {
    fn name_of_file() -> &'static [u8] {
        b"the name of the file"
    }

    fn any_file() -> &'static [u8] {
        b"a coordinator's file"
    }

    fn this_file() -> &'static [u8] {
        b"the file"
    }

    fn lines() -> &'static [u8] {
        demo::LINES
    }

    fn can_keep(rt: &HostRuntime, path: &[u8]) -> bool {
        files::whole::is_single(rt, path)
    }

    fn is_served(rt: &HostRuntime, path: &[u8], source: Source, laid: &[u8]) -> bool {
        kept::is_served(rt, path, source, laid)
    }

    fn knows(word: &[u8]) -> bool {
        word == UNLOCK
    }

    // The lock of this file is taken away after a signal ended the program, which the script asks.
    fn is_done_by(rt: &HostRuntime, _word: &[u8], path: &[u8]) -> bool {
        files::lock::clear(rt, path);
        true
    }
}

fn main(rt: HostRuntime) {
    start::start::<Coordinating>(&rt);
}
