// The parts of the lines that tell of a call.
ghost use Rattle.std.specs.Prelude.{◌≡◌, [], ◌++◌, ◌+◌, ◌*◌, ◌≤◌, ◌<◌, pos, nat_abs, ◌<ℤ◌, length};
ghost use Rattle.model.specs.Lists.{pick};
ghost use Rattle.model.specs.Answers.{is_done};
ghost use Rattle.answers.specs.Says.{room, signed, name_of, answer_text, page_text, known_text, figures_text, fault_text, position_text, hint_text};

use crate::line::Line;
use model::{Answer, Figures};

// What an answer's code is called.
fn name_of(answer: Answer) -> &'static [u8]
    ensures name { result.now ≡ name_of answer }
    ensures short { length result.now ≤ 15 }
{
    match answer {
        Answer::Done(_) => b"Done",
        Answer::Nothing(_) => b"Nothing",
        Answer::Damaged => b"Damaged",
        Answer::Shape => b"Shape",
        Answer::Twice => b"Twice",
        Answer::Late(_) => b"Late",
        Answer::Gap(_) => b"Gap",
        Answer::Conflict(_) => b"Conflict",
        Answer::PendingFull => b"Pending full",
        Answer::PastFull => b"Past full",
        Answer::SnapshotsFull => b"Snapshots full",
        Answer::ArchiveFull => b"Archive full",
        Answer::NoRoom(_) => b"No journal room",
        Answer::Ahead(_) => b"Ahead",
        Answer::NoSnapshot => b"No snapshot",
        Answer::Version(_) => b"Version",
        Answer::Malformed(_) => b"Malformed",
        Answer::Contradiction(_) => b"Contradiction",
    }
}

// What is wrong with a line that is no call.
fn fault_text(fault: u64) -> &'static [u8]
    ensures text { result.now ≡ fault_text fault }
    ensures short { length result.now ≤ 27 }
{
    match fault {
        0 => b"no such call",
        1 => b"a word is missing",
        2 => b"no digit",
        3 => b"a number of 2^64 or more",
        4 => b"`=` is missing",
        5 => b"a word too many",
        6 => b"no hex digit",
        7 => b"more than 1024 hex digits",
        8 => b"an odd number of hex digits",
        _ => b"not a call",
    }
}

impl Line {
    // A number with its sign, where it has one.
    fn lag(&mut self, n: i64)
        requires { length self.old + 21 ≤ room }
        ensures text { self.new ≡ self.old ++ signed n }
        ensures short { length self.new ≤ length self.old + 21 }
    {
        if n < 0 {
            self.text(b"-");
        }
        self.number(n.unsigned_abs());
    }

    // The four counts and the lag, a space in front of each.
    fn figures(&mut self, f: Figures)
        requires { length self.old + 106 ≤ room }
        ensures text { self.new ≡ self.old ++ figures_text f }
        ensures short { length self.new ≤ length self.old + 106 }
    {
        self.words(&[f.pending, f.past, f.snapshots, f.copies]);
        self.text(b" ");
        self.lag(f.lag);
    }

    // The code, the number, the name.
    pub(crate) fn answered(&mut self, answer: Answer)
        requires { length self.old + 57 ≤ room }
        ensures text { self.new ≡ self.old ++ answer_text answer }
        ensures short { length self.new ≤ length self.old + 57 }
    {
        self.number(answer.code());
        self.spaced(answer.number());
        self.text(b" ");
        self.text(name_of(answer));
    }

    // A page's words, where the page was read and there are sixteen of them.
    pub(crate) fn page(&mut self, answer: Answer, words: &[u64])
        requires { length self.old + 336 ≤ room }
        ensures text { self.new ≡ self.old ++ page_text answer words.now }
        ensures short { length self.new ≤ length self.old + 336 }
    {
        if answer.is_done() && words.len() == 16 {
            self.words(words);
        }
    }

    // The horizon, the last stamp and the stamps, where the answer is Done and there are at most 64 stamps.
    pub(crate) fn known(&mut self, answer: Answer, horizon: u64, last: u64, stamps: &[u64])
        requires { length self.old + 1386 ≤ room }
        ensures text { self.new ≡ self.old ++ known_text answer horizon last stamps.now }
        ensures short { length self.new ≤ length self.old + 1386 }
    {
        if answer.is_done() && stamps.len() <= 64 {
            self.spaced(horizon);
            self.spaced(last);
            self.words(stamps);
        }
    }

    // The figures, where the answer is Done.
    pub(crate) fn standing(&mut self, answer: Answer, f: Figures)
        requires { length self.old + 106 ≤ room }
        ensures text { self.new ≡ self.old ++ pick (is_done answer) (figures_text f) [] }
        ensures short { length self.new ≤ length self.old + 106 }
    {
        if answer.is_done() {
            self.figures(f);
        }
    }

    // What is wrong with a line that is no call.
    // Kept: a number and no enum, since `fault_line` has a line for every number, and `not a call` for one that no fault has.
    pub(crate) fn fault(&mut self, fault: u64)
        requires { length self.old + 27 ≤ room }
        ensures text { self.new ≡ self.old ++ fault_text fault }
        ensures short { length self.new ≤ length self.old + 27 }
    {
        self.text(fault_text(fault));
    }

    // Where it is wrong.
    pub(crate) fn position(&mut self, line: u64, column: u64)
        requires { length self.old + 57 ≤ room }
        ensures text { self.new ≡ self.old ++ position_text line column }
        ensures short { length self.new ≤ length self.old + 57 }
    {
        self.text(b" at line ");
        self.number(line);
        self.text(b" column ");
        self.number(column);
    }

    // What to do about it, where there is no such call.
    pub(crate) fn hint(&mut self, fault: u64)
        requires { length self.old + 17 ≤ room }
        ensures text { self.new ≡ self.old ++ hint_text fault }
        ensures short { length self.new ≤ length self.old + 17 }
    {
        if fault == 0 {
            self.text(b"; help lists them");
        }
    }
}
