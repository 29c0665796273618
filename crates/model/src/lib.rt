// What every other crate speaks in: the rows of the store and the answers of its calls.
// The meaning of each rule of document 01 stands in specs/, over these.
#![tactic(auto)]

ghost use Rattle.std.specs.Prelude.{◌≡◌};
ghost use Rattle.model.specs.Answers.{code_of, number_of, is_done};

// An object's change since the last flush: its first stamp, its latest stamp, its value.
#[derive(Clone, Copy)]
pub struct Pending {
    pub object: u64,
    pub first: u64,
    pub latest: u64,
    pub value: u64,
}

// The object had this value at each stamp s with from <= s < until.
#[derive(Clone, Copy)]
pub struct Past {
    pub object: u64,
    pub from: u64,
    pub until: u64,
    pub value: u64,
}

// A value, and the stamp of the commit that wrote it.
#[derive(Clone, Copy)]
pub struct Seen {
    pub value: u64,
    pub stamp: u64,
}

// What standing reports; the lag is a signed count of ticks.
#[derive(Clone, Copy)]
pub struct Figures {
    pub pending: u64,
    pub past: u64,
    pub snapshots: u64,
    pub copies: u64,
    pub lag: i64,
}

// What a damaged store reports.
pub const NO_FIGURES: Figures = Figures {
    pending: 0,
    past: 0,
    snapshots: 0,
    copies: 0,
    lag: 0,
};

// What a call answers: a case for each code, with the number where the code has one.
#[derive(Clone, Copy)]
pub enum Answer {
    Done(u64),
    Nothing(u64),
    Damaged,
    Shape,
    Twice,
    Late(u64),
    Gap(u64),
    Conflict(u64),
    PendingFull,
    PastFull,
    SnapshotsFull,
    ArchiveFull,
    NoRoom(u64),
    Ahead(u64),
    NoSnapshot,
    Version(u64),
    Malformed(u64),
    Contradiction(u64),
}

// What a store says of a well-formed change, the journal aside.
#[derive(Clone, Copy)]
pub enum Verdict {
    Accepted,
    Idle,
    Refused(Answer),
}

impl Answer {
    // The change is made, or the page is shown.
    pub fn is_done(self) -> bool
        ensures { result ≡ is_done self }
    {
        matches!(self, Answer::Done(_))
    }

    pub fn code(self) -> u64
        ensures { result ≡ code_of self }
    {
        match self {
            Answer::Done(_) => 0,
            Answer::Nothing(_) => 1,
            Answer::Damaged => 2,
            Answer::Shape => 3,
            Answer::Twice => 4,
            Answer::Late(_) => 5,
            Answer::Gap(_) => 6,
            Answer::Conflict(_) => 7,
            Answer::PendingFull => 8,
            Answer::PastFull => 9,
            Answer::SnapshotsFull => 10,
            Answer::ArchiveFull => 11,
            Answer::NoRoom(_) => 12,
            Answer::Ahead(_) => 13,
            Answer::NoSnapshot => 14,
            Answer::Version(_) => 15,
            Answer::Malformed(_) => 16,
            Answer::Contradiction(_) => 17,
        }
    }

    pub fn number(self) -> u64
        ensures { result ≡ number_of self }
    {
        match self {
            Answer::Done(n) => n,
            Answer::Nothing(n) => n,
            Answer::Damaged => 0,
            Answer::Shape => 0,
            Answer::Twice => 0,
            Answer::Late(n) => n,
            Answer::Gap(n) => n,
            Answer::Conflict(n) => n,
            Answer::PendingFull => 0,
            Answer::PastFull => 0,
            Answer::SnapshotsFull => 0,
            Answer::ArchiveFull => 0,
            Answer::NoRoom(n) => n,
            Answer::Ahead(n) => n,
            Answer::NoSnapshot => 0,
            Answer::Version(n) => n,
            Answer::Malformed(n) => n,
            Answer::Contradiction(n) => n,
        }
    }
}
