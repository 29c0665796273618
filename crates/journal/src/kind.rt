// The kind byte of a record.
ghost use Rattle.journal.specs.Kinds.{Decodes};

#[derive(Clone, Copy, PartialEq, Eq, Debug)]
pub enum Kind {
    Commit = 1,
    Gossip = 2,
    Flush = 3,
}

// A byte that is no record's kind.
#[derive(Clone, Copy, PartialEq, Eq, Debug)]
pub struct UnknownKind(pub u8);

impl TryFrom<u8> for Kind {
    type Error = UnknownKind;

    ghost try_from_gives = { Decodes };

    fn try_from(byte: u8) -> Result<Self, UnknownKind> {
        match byte {
            1 => Ok(Kind::Commit),
            2 => Ok(Kind::Gossip),
            3 => Ok(Kind::Flush),
            _ => Err(UnknownKind(byte)),
        }
    }
}
