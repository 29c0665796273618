// A line in the making: its bytes, and how many of them are written. A clause sees those that are.
ghost use Rattle.std.specs.Prelude.{◌≡◌, List, ℕ, ◌∷◌, [], ◌++◌, ◌+◌, ◌*◌, ◌≤◌, ◌<◌, length, take};
ghost use Rattle.answers.specs.Says.{room, text as ascii, digit as Says·digit, decimal, spaced};

use std::marker::Model;

// The most bytes that a line has.
pub const ROOM: usize = 2048;

#[derive(Drop)]
pub struct Line {
    written: [u8; ROOM],
    used: usize,
}

impl Model for Line {
    ghost Value = { List ℕ };

    ghost view = { λ l. take l.used l.written };

    ghost invariant = { λ l. l.used ≤ 2048 };
}

impl Line {
    pub fn new() -> Line
        ensures { result ≡ [] }
    {
        Line {
            written: [0; ROOM],
            used: 0,
        }
    }

    pub fn bytes(&self) -> &[u8]
        ensures text { result.now ≡ self.now }
        ensures short { length result.now ≤ room }
    {
        let whole = &self.written[..];
        &whole[..self.used]
    }

    // The line begins anew.
    pub fn clear(&mut self)
        ensures { self.new ≡ [] }
    {
        self.used = 0;
    }

    // The bytes of a text.
    pub(crate) fn text(&mut self, text: &[u8])
        requires { length self.old + length text.now ≤ room }
        ensures text { self.new ≡ self.old ++ text.now }
        ensures short { length self.new ≤ room }
    {
        let end = self.used + text.len();
        self.written[self.used..end].copy_from_slice(text);
        self.used = end;
    }

    fn digit(&mut self, d: u64)
        requires { (length self.old < room) × (d < 10) }
        ensures { self.new ≡ self.old ++ Says·digit d ∷ [] }
    {
        self.text(&[48 + d as u8]);
    }

    // The digits before the last are those of a tenth. A word has at most 20.
    pub(crate) fn number(&mut self, n: u64)
        requires { length self.old + 20 ≤ room }
        ensures text { self.new ≡ self.old ++ decimal n }
        ensures short { length self.new ≤ length self.old + 20 }
    {
        if n < 10 {
            self.digit(n);
            return;
        }
        self.number(n / 10);
        self.digit(n % 10);
    }

    // A space and the number behind it.
    pub(crate) fn spaced(&mut self, n: u64)
        requires { length self.old + 21 ≤ room }
        ensures text { self.new ≡ self.old ++ (ascii " " ++ decimal n) }
        ensures short { length self.new ≤ length self.old + 21 }
    {
        self.text(b" ");
        self.number(n);
    }

    // The numbers, a space in front of each.
    pub(crate) fn words(&mut self, numbers: &[u64])
        requires { length self.old + 21 * length numbers.now ≤ room }
        ensures text { self.new ≡ self.old ++ spaced numbers.now }
        ensures short { length self.new ≤ length self.old + 21 * length numbers.now }
    {
        for n in numbers {
            self.spaced(*n);
        }
    }
}
