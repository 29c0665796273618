// Who holds a lock, as a line: `PROCESS START BOOT`, the process's number, its start as the system counts it, and the run of the
// machine that both are of. A number is used again, by another start or in another run; the three together aren't.
ghost use Rattle.std.specs.Prelude.{◌≤◌, length};

use crate::identity::Unseen;
use crate::text::Text;
use crate::{identity, names, paths};
use std::io::Read;
use std::os::unix::process::parent_id;
use std::process;

// Parts of a small file: none has so many.
const PARTS: u64 = 1048576;

// The digit that bit 19 is in.
const LOOKING: usize = 11;

// A holder's line.
pub type Holder = Text<128>;

// The bytes of a small file, as many as there is room for, and none where it can't be read.
pub fn text_of<const N: usize>(rt: &HostRuntime, name: &[u8]) -> Text<N> {
    match names::open_read(rt, name) {
        Ok(file) => Text::of(file),
        Err(_) => Text::new(),
    }
}

// Behind the program's name in what /proc tells of a process: the name ends with the last `)`, and may hold any byte itself.
fn behind_name(told: &[u8]) -> &[u8]
    ensures { length result.now ≤ length told.now }
{
    match told.iter().rposition(|b| *b == b')') {
        Some(at) => &told[at + 1..],
        None => b"",
    }
}

// Behind the k-th blank.
fn behind_blanks(text: &[u8], k: u64) -> &[u8]
    ensures { length result.now ≤ length text.now }
{
    let mut left = k;
    for (i, b) in text.iter().enumerate() {
        if left == 0 {
            return &text[i..];
        }
        if *b == b' ' {
            left -= 1;
        }
    }
    b""
}

// Behind the name a blank and the process's state. One that has ended and that nobody has waited for is dead.
fn is_dead(rest: &[u8]) -> bool {
    match rest.get(1) {
        Some(state) => *state == b'Z' || *state == b'X',
        None => true,
    }
}

// The start is the twentieth word behind the name.
fn start_in(rest: &[u8]) -> u64 {
    paths::number(behind_blanks(rest, 20))
}

// The run of the machine.
fn boot(rt: &HostRuntime) -> Text<36> {
    text_of(rt, b"/proc/sys/kernel/random/boot_id")
}

// The line of a process of which the system tells this; none where it is dead.
fn line_by(rt: &HostRuntime, process: u64, told: &[u8]) -> Option<Holder> {
    let rest = behind_name(told);
    if is_dead(rest) {
        return None;
    }
    let mut line = Text::new();
    line.add_number(process);
    line.add(b" ");
    line.add_number(start_in(rest));
    line.add(b" ");
    line.add(boot(rt).bytes());
    line.add(b"\n");
    Some(line)
}

// The folder in which /proc tells of a process.
fn folder_of(process: u64) -> Text<64> {
    let mut name = Text::new();
    name.add(b"/proc/");
    name.add_number(process);
    name
}

// What the system tells of a process: nothing where it is gone, hidden from us, or where there is no /proc.
fn told_of(rt: &HostRuntime, process: u64) -> Text<4096> {
    let mut name = folder_of(process);
    name.add(b"/stat");
    text_of(rt, name.bytes())
}

fn own(rt: &HostRuntime) -> u64 {
    u64::from(process::id(rt.process()))
}

// The process that started this one, or 0.
pub fn parent(rt: &HostRuntime) -> u64 {
    u64::from(parent_id(rt.process()))
}

// Our own line. Without /proc it is the number alone.
pub fn own_line(rt: &HostRuntime) -> Holder {
    let process = own(rt);
    let told = told_of(rt, process);
    if !told.is_empty() {
        return line_by(rt, process, told.bytes()).unwrap_or(Text::new());
    }
    let mut line = Text::new();
    line.add_number(process);
    line.add(b"\n");
    line
}

// Whether /proc shows a process, as a folder of its number.
fn is_shown(rt: &HostRuntime, process: u64) -> bool {
    identity::of_name(rt, folder_of(process).bytes()) != Err(Unseen::Absent)
}

// Whether /proc tells of the processes that our numbers are of: there it calls this one by its own number.
fn is_of_ours(rt: &HostRuntime) -> bool {
    let told: Text<64> = text_of(rt, b"/proc/self/stat");
    paths::number(told.bytes()) == own(rt)
}

// How many bytes of the word stand right before this place, where it was m before this byte; all of it, once it was met.
fn met_to(word: &[u8], m: usize, byte: u8) -> usize
    requires { m ≤ length word.now }
    ensures { result ≤ length word.now }
{
    if m == word.len() {
        return m;
    }
    if word[m] == byte {
        return m + 1;
    }
    if word[0] == byte { 1 } else { 0 }
}

// Behind the word's first place in a text.
fn behind_word<'a>(text: &'a [u8], word: &[u8]) -> &'a [u8]
    ensures { length result.now ≤ length text.now }
{
    let mut m = 0;
    for (i, byte) in text.iter().enumerate() {
        if m == word.len() {
            return &text[i..];
        }
        m = met_to(word, m, *byte);
    }
    b""
}

fn met_in(word: &[u8], before: usize, bytes: &[u8]) -> usize
    requires { before ≤ length word.now }
    ensures { result ≤ length word.now }
{
    let mut m = before;
    for byte in bytes {
        m = met_to(word, m, *byte);
    }
    m
}

// Whether the word stands in a file, or may, since the file can't be read to its end. Its first byte stands in it but once.
fn may_stand(rt: &HostRuntime, name: &[u8], word: &[u8]) -> bool {
    let Ok(mut file) = names::open_read(rt, name) else {
        return true;
    };
    let mut part = io::buffer();
    let mut m = 0;
    for _ in 0..PARTS {
        let Ok(got) = file.read(&mut part) else {
            return true;
        };
        let n = paths::within(got, &part);
        if n == 0 {
            return m == word.len();
        }
        m = met_in(word, m, &part[..n]);
    }
    true
}

// A digit of hex with its highest bit.
fn is_high(digit: u8) -> bool {
    digit == b'8' || digit == b'9' || (b'a' <= digit && digit <= b'f')
}

// Whether this program's users are the system's own, all of them. Else its rights are none over other users' processes.
fn has_all_users(rt: &HostRuntime) -> bool {
    let told: Text<64> = text_of(rt, b"/proc/self/uid_map");
    let word = b" 4294967295";
    met_in(word, 0, told.bytes()) == word.len()
}

// Whether this program may look into every process, so that nothing is hidden from it: bit 19 of its rights, which are sixteen digits of hex.
fn may_look_everywhere(rt: &HostRuntime) -> bool {
    if !has_all_users(rt) {
        return false;
    }
    let status: Text<4096> = text_of(rt, b"/proc/self/status");
    match behind_word(status.bytes(), b"CapEff:\t").get(LOOKING) {
        Some(digit) => is_high(*digit),
        None => false,
    }
}

// Whether a process that /proc doesn't show may be there all the same. It may where /proc is none, or not of our processes; and where it
// hides other users' processes. Where it shows the first process and that is another user's, it hides none.
fn may_be_hidden(rt: &HostRuntime) -> bool {
    if !is_of_ours(rt) {
        return true;
    }
    if may_look_everywhere(rt) {
        return false;
    }
    let ours = match identity::of_name(rt, b"/proc/self") {
        Ok(there) => there.owner,
        Err(_) => 0,
    };
    if matches!(identity::of_name(rt, b"/proc/1"), Ok(first) if first.owner != ours) {
        return false;
    }
    may_stand(rt, b"/proc/self/mountinfo", b"hidepid=")
}

fn exists(rt: &HostRuntime, process: u64) -> bool {
    if process == 0 {
        return false;
    }
    if 2147483647 < process {
        return false;
    }
    if is_shown(rt, process) {
        return true;
    }
    may_be_hidden(rt)
}

// A line of the number alone is left from an earlier process if the number is our own.
fn is_bare(line: &[u8]) -> bool {
    behind_blanks(line, 1).is_empty()
}

// The process of this line is there. One of which nothing is told is judged by its number alone, and asked for last, since it may
// have gone meanwhile.
pub fn lives(rt: &HostRuntime, line: &[u8]) -> bool {
    let process = paths::number(line);
    let told = told_of(rt, process);
    if told.is_empty() {
        return process != own(rt) && exists(rt, process);
    }
    let Some(now) = line_by(rt, process, told.bytes()) else {
        return false;
    };
    if is_bare(line) {
        return process != own(rt);
    }
    line == now.bytes()
}
