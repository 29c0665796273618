// What a command writes on standard output, each answer at once. An answer is false where standard output takes no more, after
// a word on standard error.
ghost use Rattle.io.specs.Counts.{IsPrefixLen};

use answers::line::Line;
use files::trouble;
use lines::Mistake;
use model::Answer;
use std::os::fd::{AsFd, BorrowedFd};

// What the system answers where no file is open under a descriptor.
const EBADF: i32 = 9;

// A file opened while a standard descriptor is closed would take its number, and answers would go into it.
fn is_open(rt: &HostRuntime, stream: BorrowedFd<'_>, name: &[u8]) -> bool {
    match stream.try_clone_to_owned() {
        Ok(_) => true,
        Err(error) => {
            if error.raw_os_error() != Some(EBADF) {
                return true;
            }
            trouble::fail(rt, name, &error);
            false
        }
    }
}

fn is_input_open(rt: &HostRuntime) -> bool {
    let stdin = rt.stdin();
    is_open(rt, stdin.as_fd(), b"standard input")
}

fn is_error_open(rt: &HostRuntime) -> bool {
    let stderr = rt.stderr();
    is_open(rt, stderr.as_fd(), b"standard error")
}

fn is_output_open(rt: &HostRuntime) -> bool {
    let stdout = rt.stdout();
    is_open(rt, stdout.as_fd(), b"standard output")
}

pub fn are_open(rt: &HostRuntime) -> bool {
    is_input_open(rt) && is_error_open(rt) && is_output_open(rt)
}

pub fn text(rt: &HostRuntime, words: &[u8]) -> bool {
    match rt.write_all(words) {
        Ok(()) => true,
        Err(error) => {
            trouble::fail(rt, b"standard output", &error);
            false
        }
    }
}

// One text after the other, up to the first that isn't taken.
pub fn texts(rt: &HostRuntime, texts: &[&[u8]]) -> bool {
    texts.iter().all(|words| text(rt, words))
}

// A number's digits. It says no word where standard output takes no more.
pub fn digits(rt: &HostRuntime, n: u64) -> bool {
    let mut room = [0u8; 20];
    let k = io::decimal(n, &mut room);
    rt.write_all(&room[..k]).is_ok()
}

pub fn line(rt: &HostRuntime, line: &Line) -> bool {
    text(rt, line.bytes())
}

pub fn answer(rt: &HostRuntime, a: Answer) -> bool {
    let mut said = Line::new();
    answers::answer_line(a, &mut said);
    line(rt, &said)
}

// Two numbers, and stamps behind them.
pub fn known(rt: &HostRuntime, a: Answer, one: u64, two: u64, stamps: &[u64]) -> bool {
    let mut said = Line::new();
    answers::known_line(a, one, two, stamps, &mut said);
    line(rt, &said)
}

// How many bytes a call has written into lent ones: its answer's number, where it is Done.
pub fn written(a: Answer, lent: &[u8]) -> usize
    ensures { IsPrefixLen result lent.now }
{
    if a.is_done() {
        return files::paths::within(a.number() as usize, lent);
    }
    files::paths::within(0, lent)
}

// The answer, and behind it the bytes in hex.
pub fn bytes(rt: &HostRuntime, a: Answer, bytes: &[u8]) -> bool {
    let mut said = Line::new();
    answers::bytes_line(a, bytes, &mut said);
    line(rt, &said)
}

// The answer to the line of this number, which is no call.
pub fn wrong(rt: &HostRuntime, mistake: Mistake, number: u64) -> bool {
    let fault = mistake.fault as u64;
    let column = mistake.column as u64;
    let mut said = Line::new();
    answers::fault_line(fault, number, column, &mut said);
    line(rt, &said)
}

// `? line N`, and what is wrong with the whole of it.
pub fn wrong_line(rt: &HostRuntime, number: u64, what: &[u8]) -> bool {
    text(rt, b"? line ") && digits(rt, number) && text(rt, what)
}

// The first word is `opened ` or `refused `.
pub fn opening(rt: &HostRuntime, word: &[u8], path: &[u8], a: Answer) -> bool {
    let mut said = Line::new();
    answers::opened_line(a, &mut said);
    text(rt, word) && text(rt, path) && line(rt, &said)
}

// `? `, a name and what is wrong with it.
pub fn refused(rt: &HostRuntime, name: &[u8], what: &[u8]) -> bool {
    text(rt, b"? ") && text(rt, name) && text(rt, what) && text(rt, b"\n")
}
