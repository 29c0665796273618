// Bytes in hexadecimal, as parts of a line.
ghost use Rattle.std.specs.Prelude.{◌≡◌, ◌++◌, ◌+◌, ◌*◌, ◌≤◌, ◌<◌, length};
ghost use Rattle.answers.specs.Hex.{hex_digit, hex_pair, hex_of, bytes_text};
ghost use Rattle.answers.specs.Says.{room};

use crate::line::Line;

// The byte of a digit, in lower case.
fn digit(d: u8) -> u8
    requires { d < 16 }
    ensures { result ≡ hex_digit d }
{
    if d < 10 {
        return b'0' + d;
    }
    b'a' - 10 + d
}

impl Line {
    // A byte's two digits.
    fn pair(&mut self, b: u8)
        requires { length self.old + 2 ≤ room }
        ensures { self.new ≡ self.old ++ hex_pair b }
    {
        let both = [digit(b / 16), digit(b % 16)];
        self.text(&both);
    }

    // The digits of all the bytes.
    fn pairs(&mut self, bytes: &[u8])
        requires { length self.old + 2 * length bytes.now ≤ room }
        ensures text { self.new ≡ self.old ++ hex_of bytes.now }
        ensures short { length self.new ≤ length self.old + 2 * length bytes.now }
    {
        for b in bytes {
            self.pair(*b);
        }
    }

    // A space and the digits behind it, where there are bytes and at most 512.
    pub(crate) fn hex(&mut self, bytes: &[u8])
        requires { length self.old + 1025 ≤ room }
        ensures text { self.new ≡ self.old ++ bytes_text bytes.now }
        ensures short { length self.new ≤ length self.old + 1025 }
    {
        if bytes.is_empty() {
            return;
        }
        if bytes.len() <= 512 {
            self.text(b" ");
            self.pairs(bytes);
        }
    }
}
