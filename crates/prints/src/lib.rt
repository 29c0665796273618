// What the programs print: numbers with a text before each.
#![tactic(auto)]

ghost use Rattle.std.specs.Prelude.{pos, ◌<ℤ◌};

use model::{Answer, Figures};

// A program that prints ends no sooner where standard output takes no more.
pub fn text(rt: &HostRuntime, words: &[u8]) {
    let _ = rt.write_all(words);
}

pub fn number(rt: &HostRuntime, before: &[u8], n: u64) {
    text(rt, before);
    item(rt, n);
}

pub fn item(rt: &HostRuntime, n: u64) {
    let mut digits = [0u8; 20];
    let k = io::decimal(n, &mut digits);
    text(rt, &digits[..k]);
}

pub fn end(rt: &HostRuntime) {
    text(rt, b"\n");
}

pub fn answered(rt: &HostRuntime, answer: Answer) {
    number(rt, b": ", answer.code());
    number(rt, b" ", answer.number());
}

pub fn figures(rt: &HostRuntime, f: Figures) {
    number(rt, b", standing ", f.pending);
    number(rt, b" ", f.past);
    number(rt, b" ", f.snapshots);
    number(rt, b" ", f.copies);
    lag(rt, f.lag);
}

fn lag(rt: &HostRuntime, n: i64) {
    if n < 0 {
        number(rt, b" -", behind(n));
    } else {
        number(rt, b" ", n as u64);
    }
}

// How far a negative number lies below 0. `!n` is -1 - n, which fits where -n may not.
fn behind(n: i64) -> u64
    requires { n <ℤ pos 0 }
{
    (!n) as u64 + 1
}

pub fn page(rt: &HostRuntime, words: &[u64]) {
    text(rt, b", words");
    spaced(rt, words);
}

fn spaced(rt: &HostRuntime, words: &[u64]) {
    for n in words {
        number(rt, b" ", *n);
    }
}

// The used bytes of the journal.
pub fn bytes(rt: &HostRuntime, journal: &[u8], used: usize) {
    text(rt, b", journal");
    if used <= journal.len() {
        hexed(rt, &journal[..used]);
    }
}

fn hexed(rt: &HostRuntime, bytes: &[u8]) {
    for b in bytes {
        text(rt, b" ");
        let mut digits = [0u8; 16];
        let k = io::hex(*b as u64, 2, &mut digits);
        text(rt, &digits[..k]);
    }
}
