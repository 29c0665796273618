// One line of the keeper's command, read as a call. specs/Lines.antt says what each line means.
#![tactic(auto)]

mod calls;
pub mod hex;
mod lists;
mod names;
mod numbers;
pub mod orders;
mod takes;
mod titles;
mod words;

ghost use Rattle.std.specs.Prelude.{◌≡◌};
ghost use Rattle.lines.specs.Lines.{of_text, Reading, ReadLine};

use crate::words::{Class, Reader};

// What is wrong with a line that is no call, in the order of the answers' words for it: no such call, a word is missing, a byte that is no digit, a number of 2^64 or more,
// a write without its `=`, a word too many, a byte that is no hex digit, more than 1024 hex digits, an odd number of them.
#[derive(Clone, Copy, Debug, PartialEq, Eq)]
pub enum Fault {
    Unknown,
    Missing,
    Digit,
    Large,
    Equals,
    Extra,
    Hex,
    Long,
    Odd,
}

// The first fault of a line that is no call, and the column of that, counted from 1.
#[derive(Clone, Copy, Debug, PartialEq, Eq)]
pub struct Mistake {
    pub fault: Fault,
    pub column: usize,
}

impl Fault {
    fn at(self, column: usize) -> Mistake
        ensures { result ≡ record { fault = self; column = column } }
    {
        Mistake {
            fault: self,
            column,
        }
    }
}

// What help is about: the calls, the codes of the answers, the figures of standing.
#[derive(Clone, Copy)]
pub enum Topic {
    Calls,
    Codes,
    Standing,
}

// A call with its numbers. Commit has its stamp and how many writes were kept, Gossip its two stamps and how many snapshots were kept,
// Hear where its hex word begins and ends in the line.
#[derive(Clone, Copy)]
pub enum Call {
    Blank,
    Commit(u64, usize),
    Gossip(u64, u64, usize),
    Flush(u64),
    Read(u64, u64),
    Clock(u64, u64),
    Now(u64),
    Standing,
    Fresh,
    Known,
    Quit,
    Help(Topic),
    Cut(u64),
    Ask(u64),
    Hear(usize, usize),
}

// The numbers of a line's list, at the front: objects and values of a commit, stamps of a gossip.
// Kept: two arrays, since objects and values are lent on as two slices; and the call tells how many they are, as `parsed` of specs/Lines.antt does.
#[derive(Drop)]
pub struct Listed {
    pub firsts: [u64; 17],
    pub seconds: [u64; 17],
}

impl Listed {
    // No number yet.
    pub fn empty() -> Listed {
        Listed {
            firsts: [0; 17],
            seconds: [0; 17],
        }
    }
}

// The call that a line is, its comment cut off.
fn read_text(text: &[u8], listed: &mut Listed) -> Result<Call, Mistake>
    ensures { Reading (of_text text.now) result listed.new.firsts listed.new.seconds }
{
    let mut words = Reader::new(text);
    let Some(span) = words.next_word() else {
        return Ok(Call::Blank);
    };
    match names::name_of(&text[span.from..span.to]) {
        Some(name) => calls::read_call(&mut words, name, listed),
        None => Err(Fault::Unknown.at(span.from + 1)),
    }
}

// The call that a line is. The numbers of its list go to `listed`.
pub fn read_line(line: &[u8], listed: &mut Listed) -> Result<Call, Mistake>
    ensures { ReadLine line.now result listed.new.firsts listed.new.seconds }
{
    let end = words::run_of(line, Class::Text);
    let text = &line[..end];
    read_text(text, listed)
}
