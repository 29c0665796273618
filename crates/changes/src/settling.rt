// What the three calls share: their result, the journal's shape, and the room for a record.
ghost use Rattle.std.specs.Prelude.{◌≡◌, ℕ, ◌≤◌, length, MatchResult};
ghost use Rattle.model.specs.declared.Answer.TheVariants.{Done};
ghost use Rattle.model.specs.Changes.{Change};
ghost use Rattle.model.specs.Records.{length_of};
ghost use Rattle.model.specs.Calls.{journal_shaped};
ghost use Rattle.changes.specs.Left.{Settled};

use journal::place::Place;
use model::{Answer, Verdict};

// What a change hands back: the answer, and the place for the next call.
#[derive(Clone, Copy)]
pub struct Changed {
    pub answer: Answer,
    pub place: Place,
}

impl Changed {
    // A change that was made goes on behind its record, a refused one where it was called.
    #[inline(always)]
    pub fn told(made: Result<Place, Answer>, used: Place) -> Changed
        ensures { MatchResult made (λ p. result ≡ record { answer = Done p.at; place = p }) (λ a. result ≡ record { answer = a; place = used }) }
    {
        match made {
            Ok(place) => Changed {
                answer: Answer::Done(place.at as u64),
                place,
            },
            Err(answer) => Changed {
                answer,
                place: used,
            },
        }
    }
}

// The journal is no longer than it may be, and the used length lies within it.
pub fn journal_shaped(journal: &[u8], used: Place) -> bool
    ensures { result ≡ journal_shaped journal.now used.at }
{
    journal.len() <= 65535 && used.at <= journal.len()
}

// A verdict with the journal's room, the last test. `length` is what the record's length field says.
#[inline(always)]
pub fn settled(verdict: Verdict, journal: &[u8], used: Place, length: usize) -> Result<(), Answer>
    requires { (length ≤ 170) × (used.at ≤ 65535) }
    ensures { (c : Change) → length_of c ≡ length → Settled verdict journal.now used.at c result }
{
    match verdict {
        Verdict::Accepted => {
            let reached = used.behind(length);
            if journal.len() < reached {
                return Err(Answer::NoRoom(reached as u64));
            }
            Ok(())
        }
        Verdict::Idle => Err(Answer::Nothing(used.at as u64)),
        Verdict::Refused(a) => Err(a),
    }
}
