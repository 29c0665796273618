// What is wrong with a file, on standard error.
ghost use Rattle.io.specs.Counts.{IsPrefixLen};

use crate::paths;
use std::io::{Error, Write};

// The longest text of an error.
const ROOM: usize = 256;

pub fn more(rt: &HostRuntime, what: &[u8]) {
    let _ = Print::write_all(&rt.stderr(), what);
}

// The name, and how a sentence about it begins.
pub fn begin(rt: &HostRuntime, name: &[u8], what: &[u8]) {
    more(rt, name);
    more(rt, b": ");
    more(rt, what);
}

pub fn number(rt: &HostRuntime, n: u64) {
    let mut digits = [0u8; 20];
    let k = io::decimal(n, &mut digits);
    more(rt, &digits[..k]);
}

pub fn end(rt: &HostRuntime, what: &[u8]) {
    more(rt, what);
    more(rt, b"\n");
}

pub fn say(rt: &HostRuntime, name: &[u8], what: &[u8]) {
    begin(rt, name, what);
    end(rt, b"");
}

pub fn say_of(rt: &HostRuntime, name: &[u8], process: u64, what: &[u8]) {
    begin(rt, name, b"process ");
    number(rt, process);
    end(rt, what);
}

// The error as std tells it, at the front of out: how many bytes.
fn told(error: &Error, out: &mut [u8; ROOM]) -> usize
    ensures { IsPrefixLen result out.new }
{
    let mut rest: &mut [u8] = out;
    let _ = write!(rest, "{error}");
    let left = rest.len();
    paths::within(ROOM.saturating_sub(left), out)
}

// The error's text: of one that the system told, its own words, without the number in brackets that std puts behind them.
fn words(error: &Error, text: &[u8]) -> usize
    ensures { IsPrefixLen result text.now }
{
    if error.raw_os_error().is_none() {
        return text.len();
    }
    let bracket = text.iter().rposition(|b| *b == b'(');
    let end = bracket.unwrap_or(text.len());
    paths::within(end.saturating_sub(1), text)
}

// A name, and what the system or std says of a call that failed.
pub fn fail(rt: &HostRuntime, name: &[u8], error: &Error) {
    let mut text = [0u8; ROOM];
    let n = told(error, &mut text);
    let told = &text[..n];
    let k = words(error, told);
    begin(rt, name, &told[..k]);
    end(rt, b"");
}
