// A call by its name, and what its words say.
ghost use Rattle.std.specs.Prelude.{◌≡◌};
ghost use Rattle.lines.specs.Promises.{ahead, end_of};
ghost use Rattle.lines.specs.Lines.{bare_call, single_call, double_call, with_one, with_two, with_hex, helped, with_writes, with_stamps, called, Reading};

use crate::names::{Bare, Double, Name, Single};
use crate::numbers::Row;
use crate::words::Reader;
use crate::{Call, Fault, Listed, Mistake, Topic, lists, names};

impl Bare {
    fn call(self) -> Call
        ensures { result ≡ bare_call self }
    {
        match self {
            Bare::Standing => Call::Standing,
            Bare::Fresh => Call::Fresh,
            Bare::Known => Call::Known,
            Bare::Quit => Call::Quit,
        }
    }
}

impl Single {
    fn call(self, n: u64) -> Call
        ensures { result ≡ single_call self n }
    {
        match self {
            Single::Flush => Call::Flush(n),
            Single::Now => Call::Now(n),
            Single::Cut => Call::Cut(n),
            Single::Ask => Call::Ask(n),
        }
    }
}

impl Double {
    fn call(self, a: u64, b: u64) -> Call
        ensures { result ≡ double_call self a b }
    {
        match self {
            Double::Read => Call::Read(a, b),
            Double::Clock => Call::Clock(a, b),
        }
    }
}

fn read_single(words: &mut Reader<'_>, which: Single) -> Result<Call, Mistake>
    ensures { result ≡ with_one which (end_of words.old) (ahead words.old) }
{
    let n = words.number()?;
    words.close(which.call(n))
}

fn read_double(words: &mut Reader<'_>, which: Double) -> Result<Call, Mistake>
    ensures { result ≡ with_two which (end_of words.old) (ahead words.old) }
{
    let a = words.number()?;
    let b = words.number()?;
    words.close(which.call(a, b))
}

fn read_hear(words: &mut Reader<'_>) -> Result<Call, Mistake>
    ensures { result ≡ with_hex (end_of words.old) (ahead words.old) }
{
    let span = words.hex()?;
    words.close(Call::Hear(span.from, span.to))
}

fn read_help(words: &mut Reader<'_>) -> Result<Call, Mistake>
    ensures { result ≡ helped (ahead words.old) }
{
    let Some(span) = words.next_word() else {
        return Ok(Call::Help(Topic::Calls));
    };
    match names::topic_of(&words.text[span.from..span.to]) {
        Some(topic) => words.close(Call::Help(topic)),
        None => Err(Fault::Unknown.at(span.from + 1)),
    }
}

fn read_commit(words: &mut Reader<'_>, listed: &mut Listed) -> Result<Call, Mistake>
    ensures { Reading (with_writes (end_of words.old) (ahead words.old)) result listed.new.firsts listed.new.seconds }
{
    let stamp = words.number()?;
    let n = lists::read_list(words, Row::Write, listed)?;
    Ok(Call::Commit(stamp, n))
}

fn read_gossip(words: &mut Reader<'_>, listed: &mut Listed) -> Result<Call, Mistake>
    ensures { Reading (with_stamps (end_of words.old) (ahead words.old)) result listed.new.firsts listed.new.seconds }
{
    let prev = words.number()?;
    let curr = words.number()?;
    let n = lists::read_list(words, Row::Stamp, listed)?;
    Ok(Call::Gossip(prev, curr, n))
}

// The call of a name, and of the words behind it.
pub fn read_call(words: &mut Reader<'_>, name: Name, listed: &mut Listed) -> Result<Call, Mistake>
    ensures { Reading (called name (end_of words.old) (ahead words.old)) result listed.new.firsts listed.new.seconds }
{
    match name {
        Name::Commit => read_commit(words, listed),
        Name::Gossip => read_gossip(words, listed),
        Name::Bare(which) => words.close(which.call()),
        Name::Single(which) => read_single(words, which),
        Name::Double(which) => read_double(words, which),
        Name::Hear => read_hear(words),
        Name::Help => read_help(words),
    }
}
