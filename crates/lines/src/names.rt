// The names of the calls, and of what help is on.
ghost use Rattle.std.specs.Prelude.{◌≡◌};
ghost use Rattle.lines.specs.Names.{name_of, topic_of};

use crate::Topic;

// The calls of no number.
#[derive(Clone, Copy)]
pub enum Bare {
    Standing,
    Fresh,
    Known,
    Quit,
}

// The calls of one number.
#[derive(Clone, Copy)]
pub enum Single {
    Flush,
    Now,
    Cut,
    Ask,
}

// The calls of two numbers.
#[derive(Clone, Copy)]
pub enum Double {
    Read,
    Clock,
}

#[derive(Clone, Copy)]
pub enum Name {
    Commit,
    Gossip,
    Bare(Bare),
    Single(Single),
    Double(Double),
    Hear,
    Help,
}

pub fn topic_of(word: &[u8]) -> Option<Topic>
    ensures { result ≡ topic_of word.now }
{
    match word {
        b"codes" => Some(Topic::Codes),
        b"standing" => Some(Topic::Standing),
        _ => None,
    }
}

pub fn name_of(word: &[u8]) -> Option<Name>
    ensures { result ≡ name_of word.now }
{
    let name = match word {
        b"commit" => Name::Commit,
        b"gossip" => Name::Gossip,
        b"flush" => Name::Single(Single::Flush),
        b"read" => Name::Double(Double::Read),
        b"clock" => Name::Double(Double::Clock),
        b"now" => Name::Single(Single::Now),
        b"standing" => Name::Bare(Bare::Standing),
        b"fresh" => Name::Bare(Bare::Fresh),
        b"known" => Name::Bare(Bare::Known),
        b"quit" | b"exit" => Name::Bare(Bare::Quit),
        b"help" => Name::Help,
        b"cut" => Name::Single(Single::Cut),
        b"ask" => Name::Single(Single::Ask),
        b"hear" => Name::Hear,
        _ => return None,
    };
    Some(name)
}
