// Lines from standard input, by way of a lent buffer.
ghost use Rattle.std.specs.Prelude.{◌≡◌, ◌≤◌, ◌<◌, length, MatchOption};
ghost use Rattle.terminal.specs.Buffers.{Within, Lies};

use crate::say;
use std::io::{ErrorKind, IsTerminal, Read};

// Turns of a loop over the input: no input lasts so long.
pub const TURNS: u64 = 4611686018427387904;

// A line and its newline.
const ROOM: usize = 1048577;

// A mark of UTF-8 at the start of a file is no part of its first line.
const MARK: &[u8] = b"\xef\xbb\xbf";

pub fn buffer() -> [u8; ROOM]
    ensures { 1048577 ≡ length result }
{
    [0; ROOM]
}

// Where lines come from: standard input, or nowhere, so that there are none but those laid in the buffer.
#[derive(Clone, Copy, PartialEq, Eq, Debug)]
pub enum Source {
    Typed,
    Laid,
}

// What is still to come: more, nothing at the end of the input, or nothing since reading failed.
#[derive(Clone, Copy, PartialEq, Eq, Debug)]
pub enum State {
    Going,
    Ended,
    Failed,
}

// Where the input stands: the bytes from start to end are read and not yet served, they begin the line of this number, and no
// newline is among those before seen. A line that is too long is passed over to its newline.
#[derive(Clone, Copy)]
pub struct Input {
    pub source: Source,
    pub start: usize,
    pub seen: usize,
    pub end: usize,
    pub line: u64,
    pub passing: bool,
    pub state: State,
}

// Where a line lies in the buffer.
#[derive(Clone, Copy)]
pub struct Span {
    pub from: usize,
    pub to: usize,
}

// A line that nobody typed is shown as if somebody had.
fn shown(rt: &HostRuntime, line: &[u8]) -> bool {
    say::text(rt, b"> ");
    say::text(rt, line);
    say::text(rt, b"\n")
}

// How many bytes at the front of the line of this number are a mark.
fn mark(bytes: &[u8], number: u64) -> usize
    ensures { result ≤ length bytes.now }
{
    if number == 1 && MARK.len() <= bytes.len() && bytes.starts_with(MARK) {
        return MARK.len();
    }
    0
}

// The first newline among these bytes.
fn newline(buffer: &[u8], start: usize, end: usize) -> Option<usize>
    requires { (start ≤ end) × (end ≤ length buffer.now) }
    ensures { MatchOption result (Unit {0}) (λ at. (start ≤ at) × (at < end)) }
{
    let at = buffer[start..end].iter().position(|b| *b == b'\n')?;
    Some(start + at)
}

fn prompt(rt: &HostRuntime, input: &Input) {
    if input.end == 0 && !input.passing && rt.stdin().is_terminal() {
        say::text(rt, b"> ");
    }
}

// Reads once: how many bytes came, and none where it was interrupted. Where it failed there was a word on standard error.
fn read_once(rt: &HostRuntime, room: &mut [u8]) -> Result<Option<usize>, State> {
    let mut stdin = rt.stdin();
    match stdin.read(room) {
        Ok(n) => Ok(Some(n)),
        Err(error) if error.kind() == ErrorKind::Interrupted => Ok(None),
        Err(error) => {
            files::trouble::fail(rt, b"standard input", &error);
            Err(State::Failed)
        }
    }
}

impl Input {
    // The input at its start, with a text in the buffer already.
    pub fn at_start(buffer: &mut [u8], source: Source, laid: &[u8]) -> Input
        ensures within { Within result (length buffer.new) }
    {
        let end = laid.len().min(buffer.len());
        buffer[..end].copy_from_slice(&laid[..end]);
        Input {
            source,
            start: 0,
            seen: 0,
            end,
            line: 1,
            passing: false,
            state: State::Going,
        }
    }

    // The line that ends at a newline, and none where it is passed over.
    fn line_to(&mut self, rt: &HostRuntime, buffer: &[u8], at: usize) -> Option<Span>
        requires { Within self.old (length buffer.now) × (self.old.start ≤ at) × (at < self.old.end) }
        ensures within { Within self.new (length buffer.now) }
        ensures lies { MatchOption result (Unit {0}) (λ s. Lies s (length buffer.now)) }
    {
        let line = &buffer[self.start..at];
        let from = self.start + mark(line, self.line);
        let passed = self.passing;
        self.start = at + 1;
        self.seen = at + 1;
        self.line = self.line.saturating_add(1);
        self.passing = false;
        if passed {
            return None;
        }
        if self.source == Source::Laid {
            shown(rt, line);
        }
        Some(Span { from, to: at })
    }

    // So many bytes of a line stand at the front of the buffer, and are searched.
    fn begin(&mut self, kept: usize)
        ensures bounds { (self.new.start ≡ 0) × (self.new.seen ≡ kept) × (self.new.end ≡ kept) }
    {
        self.start = 0;
        self.seen = kept;
        self.end = kept;
    }

    // No more is read.
    fn end(&mut self, state: State)
        ensures bounds { (self.new.start ≡ 0) × (self.new.seen ≡ 0) × (self.new.end ≡ 0) }
    {
        self.begin(0);
        self.state = state;
    }

    // Makes room behind the beginning of a line. One that fills the buffer is too long.
    fn make_room(&mut self, rt: &HostRuntime, buffer: &mut [u8])
        requires { Within self.old (length buffer.old) }
        ensures { Within self.new (length buffer.new) }
    {
        if self.passing {
            self.begin(0);
            return;
        }
        let kept = self.end - self.start;
        buffer.copy_within(self.start..self.end, 0);
        if kept < buffer.len() {
            self.begin(kept);
            return;
        }
        if say::wrong_line(rt, self.line, b" is longer than 1048576 bytes\n") {
            self.begin(0);
            self.passing = true;
            return;
        }
        self.end(State::Failed);
    }

    // A line that was begun and has no end may be half of a call.
    fn over(&mut self, rt: &HostRuntime)
        ensures bounds { (self.new.start ≡ 0) × (self.new.seen ≡ 0) × (self.new.end ≡ 0) }
    {
        if 0 < self.end && !self.passing && !say::wrong_line(rt, self.line, b" has no end\n") {
            self.end(State::Failed);
            return;
        }
        self.end(State::Ended);
    }

    // Reads once behind the bytes that are there.
    fn read(&mut self, rt: &HostRuntime, buffer: &mut [u8])
        requires { Within self.old (length buffer.old) }
        ensures { Within self.new (length buffer.new) }
    {
        if self.source == Source::Laid {
            self.over(rt);
            return;
        }
        prompt(rt, self);
        let end = self.end;
        match read_once(rt, &mut buffer[end..]) {
            Ok(None) => {}
            Err(state) => self.end(state),
            Ok(Some(count)) => {
                let n = files::paths::within(count, &buffer[end..]);
                if n == 0 {
                    self.over(rt);
                } else {
                    self.start = 0;
                    self.seen = end;
                    self.end = end + n;
                }
            }
        }
    }

    // The next line, or none yet after one turn on the way to it.
    pub fn take(&mut self, rt: &HostRuntime, buffer: &mut [u8]) -> Option<Span>
        requires { Within self.old (length buffer.old) }
        ensures within { Within self.new (length buffer.new) }
        ensures lies { MatchOption result (Unit {0}) (λ s. Lies s (length buffer.new)) }
    {
        if let Some(at) = newline(buffer, self.seen, self.end) {
            return self.line_to(rt, buffer, at);
        }
        self.make_room(rt, buffer);
        if self.state == State::Going {
            self.read(rt, buffer);
        }
        None
    }
}
