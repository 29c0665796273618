// The script that starts a program gives its status: `--under PARENT` stands before the other words, and the status goes to
// descriptor 3 when the program ends. The program's own status is 0 then, so that another shows that it was never started.
use crate::words;
use crate::words::Status;
use files::{holder, paths};
use std::fs::OpenOptions;
use std::io::Write;

// The system's name for what is open as descriptor 3. It is opened to be read too, since a pipe then makes nobody wait.
const STATUS: &str = "/proc/self/fd/3";

// The script was gone before this program could be told to end with it.
pub fn is_orphan(rt: &HostRuntime) -> bool {
    match words::word(rt, 2) {
        Ok(word) => paths::number(word.bytes()) != holder::parent(rt),
        Err(_) => holder::parent(rt) != 0,
    }
}

pub fn tell(rt: &HostRuntime, status: Status) {
    let line = [status.digit(), b'\n'];
    if let Ok(mut file) = OpenOptions::new().read(true).append(true).open(rt, STATUS) {
        let _ = file.write_all(&line);
    }
}
