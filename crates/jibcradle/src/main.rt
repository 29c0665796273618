// The keeper's command: a call for each line of input, an answer line for each. `jibcradle JOURNAL` keeps the store in a file,
// `jibcradle` in memory, `jibcradle --demo` shows document 01's worked night, and `jibcradle --records JOURNAL` lists a journal.
#![tactic(auto)]

mod demo;
mod desk;
mod help;
mod kept;
mod records;
mod say;

use terminal::input::Source;
use terminal::start;
use terminal::start::{Command, UNLOCK};

const RECORDS: &[u8] = b"--records";

struct Jibcradle;

impl Command for Jibcradle {
    fn name_of_file() -> &'static [u8] {
        b"the name of the journal"
    }

    fn any_file() -> &'static [u8] {
        b"a journal"
    }

    fn this_file() -> &'static [u8] {
        b"the journal"
    }

    fn lines() -> &'static [u8] {
        demo::LINES
    }

    fn can_keep(_rt: &HostRuntime, _path: &[u8]) -> bool {
        true
    }

    fn is_served(rt: &HostRuntime, path: &[u8], source: Source, laid: &[u8]) -> bool {
        kept::is_served(rt, path, source, laid)
    }

    fn knows(word: &[u8]) -> bool {
        word == RECORDS || word == UNLOCK
    }

    // A journal is listed, or its lock taken away after a signal ended the program, which the script asks.
    fn is_done_by(rt: &HostRuntime, word: &[u8], path: &[u8]) -> bool {
        if word == RECORDS {
            return records::list(rt, path);
        }
        files::lock::clear(rt, path);
        true
    }
}

fn main(rt: HostRuntime) {
    start::start::<Jibcradle>(&rt);
}
