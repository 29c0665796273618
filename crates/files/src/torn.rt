// The bytes behind a journal's last whole record, which may be damaged records and not only half a one: they are kept in a file of
// their own, JOURNAL.torn-N, before the journal is cut.
use crate::text::Name;
use crate::{file, identity, names, text, trouble};

// No journal has so many torn ends.
const MOST: u64 = 1000000;

fn name_of(path: &[u8], number: u64) -> Name {
    let mut name = text::joined(path, b".torn-");
    name.add_number(number);
    name
}

// The first name from 1 on that nothing is found under, or none. Whether a file can be made there shows when it is made.
fn free_name(rt: &HostRuntime, path: &[u8]) -> Option<Name> {
    for number in 1..MOST {
        let name = name_of(path, number);
        if identity::of_entry(rt, name.bytes()).is_err() {
            return Some(name);
        }
    }
    None
}

// The bytes are in a new file for good. Where they aren't, the file is gone again.
fn is_written(rt: &HostRuntime, name: &[u8], bytes: &[u8]) -> bool {
    match names::create(rt, name) {
        Err(error) => {
            trouble::fail(rt, name, &error);
            false
        }
        Ok(file) => {
            let done = file::is_filled(rt, name, file, bytes) && file::is_named(rt, name);
            if !done {
                let _ = names::unlink(rt, name);
            }
            done
        }
    }
}

fn say_kept(rt: &HostRuntime, path: &[u8], count: u64, name: &[u8]) {
    trouble::begin(rt, path, b"");
    trouble::number(rt, count);
    trouble::more(rt, b" bytes behind the last whole record are kept in ");
    trouble::end(rt, name);
}

// If not, there was a word on standard error, and the journal is not to be cut.
pub fn is_kept(rt: &HostRuntime, path: &[u8], bytes: &[u8]) -> bool {
    let Some(name) = free_name(rt, path) else {
        trouble::say(
            rt,
            path,
            b"no name is free for the bytes behind the last whole record",
        );
        return false;
    };
    if !is_written(rt, name.bytes(), bytes) {
        return false;
    }
    say_kept(rt, path, bytes.len() as u64, name.bytes());
    true
}
