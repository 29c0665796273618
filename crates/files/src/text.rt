// Bytes put together in a room of fixed size, as the names of files are: what doesn't fit is left out. A clause sees the bytes that
// are in it.
ghost use Rattle.std.specs.Prelude.{◌≡◌, ◌↔◌, IsTrue, List, ℕ, [], ◌++◌, ◌-◌, ◌≤◌, length, take};
ghost use Rattle.io.specs.Digits.{last_digits, IsDigitCount};

use std::fs::File;
use std::io::Read;
use std::marker::Model;

#[derive(Drop)]
pub struct Text<const N: usize> {
    room: [u8; N],
    used: usize,
}

// The name of a file: a path that the system can be handed is shorter.
pub type Name = Text<4096>;

impl<const N: usize> Model for Text<N> {
    ghost Value = { List ℕ };

    ghost view = { λ t. take t.used t.room };

    ghost invariant = { λ t. t.used ≤ N };
}

impl<const N: usize> Text<N> {
    pub fn new() -> Self
        ensures { result ≡ [] }
    {
        Text {
            room: [0; N],
            used: 0,
        }
    }

    pub fn bytes(&self) -> &[u8]
        ensures text { result.now ≡ self.now }
        ensures short { length result.now ≤ N }
    {
        let whole = &self.room[..];
        &whole[..self.used]
    }

    pub fn is_empty(&self) -> bool
        ensures { IsTrue result ↔ (length self.now ≡ 0) }
    {
        self.used == 0
    }

    // The bytes go behind those that are there, as far as they fit.
    pub fn add(&mut self, bytes: &[u8])
        ensures { self.new ≡ self.old ++ take (N - length self.old) bytes.now }
    {
        let fit = bytes.len().min(N - self.used);
        let start = self.used;
        let end = start + fit;
        let whole = &mut self.room[..];
        whole[start..end].copy_from_slice(&bytes[..fit]);
        self.used = end;
    }

    // The number's decimal digits behind them.
    pub fn add_number(&mut self, n: u64)
        ensures { (k : ℕ) × IsDigitCount 10 1 n k × (self.new ≡ self.old ++ take (N - length self.old) (last_digits 10 k n)) }
    {
        let mut digits = [0u8; 20];
        let k = io::decimal(n, &mut digits);
        self.add(&digits[..k]);
    }

    // The first bytes of a file, as many as there is room for, and none where it can't be read.
    pub fn of(mut file: File) -> Self {
        let mut text = Text::new();
        if let Ok(got) = file.read(&mut text.room) {
            text.used = got.min(N);
        }
        text
    }
}

// A path with more behind it.
pub fn joined(path: &[u8], suffix: &[u8]) -> Name
    ensures { result ≡ take 4096 (path.now ++ suffix.now) }
{
    let mut name = Text::new();
    name.add(path);
    name.add(suffix);
    name
}
