// What a caller is told, as the paper's code and number.
ghost use Rattle.std.specs.Prelude.{◌≡◌};
ghost use Rattle.model.specs.Answers.{code_of, number_of};
ghost use Rattle.repository.specs.Faces.{Told};

use changes::settling::Changed;
use model::Answer;
use restart::Started;

// What a change or a start answers: the paper's code and number, and the place for the next call.
#[repr(C)]
#[derive(Clone, Copy, PartialEq, Eq, Debug)]
pub struct Moved {
    pub code: u64,
    pub number: u64,
    pub place: usize,
}

// What a read, a request and a coordinator's call answer: the paper's code and number.
#[repr(C)]
#[derive(Clone, Copy, PartialEq, Eq, Debug)]
pub struct Reply {
    pub code: u64,
    pub number: u64,
}

// What standing answers: the paper's code and number, and the five figures.
#[repr(C)]
#[derive(Clone, Copy, PartialEq, Eq, Debug)]
pub struct Report {
    pub code: u64,
    pub number: u64,
    pub pending: u64,
    pub past: u64,
    pub snapshots: u64,
    pub copies: u64,
    pub lag: i64,
}

// What known answers: the paper's code and number, the horizon, the last commit, and the known snapshots: how many, and each, with zeros behind them.
// Kept: an array with a count beside it is what C is handed.
#[repr(C)]
#[derive(Clone, Copy)]
pub struct Knowledge {
    pub code: u64,
    pub number: u64,
    pub horizon: u64,
    pub last: u64,
    pub count: u64,
    pub stamps: [u64; 64],
}

impl From<Changed> for Moved {
    ghost from_gives = { λ c r. Told c.answer c.place.at r };

    fn from(c: Changed) -> Moved {
        Moved {
            code: c.answer.code(),
            number: c.answer.number(),
            place: c.place.at,
        }
    }
}

impl From<Started> for Moved {
    ghost from_gives = { λ s r. Told s.answer s.place.at r };

    fn from(s: Started) -> Moved {
        Moved {
            code: s.answer.code(),
            number: s.answer.number(),
            place: s.place.at,
        }
    }
}

impl From<Answer> for Reply {
    ghost from_gives = { λ a r. (r.code ≡ code_of a) × (r.number ≡ number_of a) };

    fn from(answer: Answer) -> Reply {
        Reply {
            code: answer.code(),
            number: answer.number(),
        }
    }
}
