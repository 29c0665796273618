// A reader of the journal: the slice, and the place where it stands. What stands there is told by `step_at`, on slice and place.
ghost use Rattle.std.specs.Prelude.{◌≡◌};
ghost use Rattle.model.specs.Records.{step_at};
ghost use Rattle.journal.specs.Heads.{head_step};

use crate::place::Place;
use crate::walk::Step;

#[derive(Clone, Copy, PartialEq, Eq, Debug)]
pub struct Reader<'a> {
    pub journal: &'a [u8],
    pub place: Place,
}

impl<'a> Reader<'a> {
    pub fn open(journal: &'a [u8], place: Place) -> Reader<'a>
        ensures { (result.journal ≡ journal.entry) × (result.place ≡ place) }
    {
        Reader { journal, place }
    }

    // What stands at the reader's place.
    pub fn next(self) -> Step
        ensures { result ≡ head_step (step_at self.entry.journal.now self.entry.place.at) }
    {
        crate::walk::step_at(self.journal, self.place)
    }

    // The same journal, at another place.
    pub fn after(self, place: Place) -> Reader<'a>
        ensures { (result.journal ≡ self.entry.journal) × (result.place ≡ place) }
    {
        Reader { place, ..self }
    }
}

// What stands at a place of the journal, asked with slice and place apart.
pub fn read_at(s: &[u8], p: Place) -> Step
    ensures { result ≡ head_step (step_at s.now p.at) }
{
    Reader::open(s, p).next()
}
